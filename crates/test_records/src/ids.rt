//! Unique ids, their texts and their limits.
use std::alloc::Global;
use test_support::is_debugged_as;
use tk_ids::{IdFault, Segment, UniqueId};

// Texts of ids, each with the fault of reading it, None where it is read. Positions count bytes.
fn rows() -> &'static str {
    "[engine:e]/[t:a%2Fb%3Ac%25] None
[engine:%25%2B%5B%5D%3A%2F] None
[engine:a%2fb] Some(BadEscape(11))
[engine:%41] Some(BadEscape(9))
[engine:% Some(BadEscape(9))
[engine:] Some(BadSegment(8))
[engine:e Some(BadSegment(9))
 Some(Empty)
[ä:b]ö Some(BadSegment(6))
[ä:%ö] Some(BadEscape(5))
[ä:%2ö] Some(BadEscape(6))
"
}

// Whether the fault of a row's text is the row's.
fn holds(alloc: Global, row: &str) -> bool {
    match row.split_once(' ') {
        Some((text, want)) => is_debugged_as(alloc, &UniqueId::read(alloc, text).err(), want),
        None => false,
    }
}

#[test]
fn texts_of_ids(rt: HostRuntime) {
    for row in rows().lines() {
        assert!(rt; holds(rt.alloc(), row));
    }
}

// The id of one segment.
fn engine(alloc: Global) -> Result<UniqueId, IdFault> {
    UniqueId::of(alloc, &Segment::new(alloc, "engine", "e")?)
}

// The id with one segment more, which has this value, and is a copy.
fn below(alloc: Global, id: &UniqueId, value: &str) -> Result<UniqueId, IdFault> {
    let segment = Segment::new(alloc, "t", value)?.try_clone()?;
    id.append(alloc, &segment)
}

// An id of an engine and a test whose value has escapes.
fn escaped(alloc: Global) -> Result<UniqueId, IdFault> {
    below(alloc, &engine(alloc)?, "a/b:c%")
}

fn is_written(id: &UniqueId, want: &str) -> bool {
    match id.write() {
        Ok(text) => text.as_str() == want,
        Err(_) => false,
    }
}

#[test]
fn ids_of_segments(rt: HostRuntime) {
    let is_made = match escaped(rt.alloc()) {
        Ok(id) => is_written(&id, "[engine:e]/[t:a%2Fb%3Ac%25]"),
        Err(_) => false,
    };
    assert!(rt; is_made);
}

// The fault at the 65th segment, if it is the first.
fn fault_of_segments(alloc: Global) -> Result<Option<IdFault>, IdFault> {
    let mut id = engine(alloc)?;
    for _ in 0..63 {
        id = below(alloc, &id, "b")?;
    }
    Ok(below(alloc, &id, "b").err())
}

#[test]
fn a_segment_too_many(rt: HostRuntime) {
    assert!(rt; matches!(fault_of_segments(rt.alloc()), Ok(Some(IdFault::TooLong))));
}

// The fault of the id of a long segment, if the segment has none.
fn fault_of_bytes(alloc: Global) -> Result<Option<IdFault>, IdFault> {
    let value = "v".repeat(alloc, 100_000)?;
    let segment = Segment::new(alloc, "t", value.as_str())?;
    Ok(UniqueId::of(alloc, &segment).err())
}

/// A segment has no limit: an id has.
#[test]
fn a_long_segment(rt: HostRuntime) {
    assert!(rt; matches!(fault_of_bytes(rt.alloc()), Ok(Some(IdFault::TooLong))));
}

#[test]
fn an_empty_tag(rt: HostRuntime) {
    assert!(rt; matches!(Segment::new(rt.alloc(), "", "x"), Err(IdFault::Empty)));
}

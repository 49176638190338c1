//! The table of descriptors.
use std::alloc::Global;
use tk_ids::{DType, Descriptor, IdFault, Locks, Segment, Table, TableFault, Text, UniqueId};

type Answer = Result<u32, TableFault>;

// Adds a test with this value in its segment; none where the segment finds no memory.
fn add(alloc: Global, table: &mut Table, parent: Option<u32>, value: &str) -> Option<Answer> {
    let segment = Segment::new(alloc, "t", value).ok()?;
    Some(table.add(alloc, parent, &segment, "one", DType::Test))
}

#[test]
fn additions(rt: HostRuntime) {
    let mut table = Table::new(rt.alloc());
    assert!(rt; add(rt.alloc(), &mut table, Some(3), "a") == Some(Err(TableFault::NoParent)));
    assert!(rt; add(rt.alloc(), &mut table, None, "a") == Some(Ok(0)));
    assert!(rt; add(rt.alloc(), &mut table, None, "a") == Some(Err(TableFault::Twice)));
    assert!(rt; add(rt.alloc(), &mut table, Some(0), "a") == Some(Ok(1)));
}

// A container with the id of this text.
fn container(alloc: Global, text: &str) -> Result<Descriptor, IdFault> {
    Ok(Descriptor {
        id: UniqueId::read(alloc, text)?,
        name: Text::copy(alloc, "one")?,
        dtype: DType::Container,
        locks: Locks::new(),
    })
}

// Inserts a container with the id of this text; none where the container finds no memory.
fn insert(alloc: Global, table: &mut Table, text: &str) -> Option<Answer> {
    let container = container(alloc, text).ok()?;
    Some(table.insert(container))
}

#[test]
fn insertions(rt: HostRuntime) {
    let mut table = Table::new(rt.alloc());
    assert!(rt; insert(rt.alloc(), &mut table, "[t:a]") == Some(Ok(0)));
    assert!(rt; insert(rt.alloc(), &mut table, "[t:a]/[t:b]") == Some(Ok(1)));
}

/// Adds the root whose value is this number; none where the segment finds no memory.
pub(crate) fn add_root(alloc: Global, table: &mut Table, number: u32) -> Option<Answer> {
    let value = number.to_string(alloc).ok()?;
    add(alloc, table, None, value.as_str())
}

#[test]
fn a_full_table(rt: HostRuntime) {
    let mut table = Table::new(rt.alloc());
    for number in 0..65536 {
        let _ = add_root(rt.alloc(), &mut table, number);
    }
    assert!(rt; table.len() == 65536);
    assert!(rt; add_root(rt.alloc(), &mut table, 65536) == Some(Err(TableFault::Full)));
}

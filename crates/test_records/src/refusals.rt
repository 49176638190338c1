//! Calls with ample memory and with any one request for memory refused. Calls of which one answers
//! `Memory` are made once more, and then all have to succeed.
use crate::tables::add_root;
use std::alloc::Global;
use test_support::{
    Ending, again_if_refused, is_done, is_written, read_again, record_again, start,
    two_locked_tests, two_tests,
};
use tk_events::Entry;
use tk_ids::{Table, TableFault, UniqueId};
use tk_record::{AppendFault, Record};
use tk_record_text::{write_record, write_tail};
use tk_streams::ByteTarget;

// Whether the second segment of an id has this value.
fn has_second_value(id: &UniqueId, want: &str) -> bool {
    match id.segments().get(1) {
        Some(segment) => segment.value() == want,
        None => false,
    }
}

// Whether an id has the segments of its text; none for want of memory.
fn has_its_segments(alloc: Global) -> Option<bool> {
    let id = UniqueId::read(alloc, "[engine:e]/[t:a%2Fb%3Ac%25]").ok()?;
    Some(has_second_value(&id, "a/b:c%"))
}

#[test]
fn reading_an_id_with_escapes(rt: HostRuntime) {
    assert!(rt; again_if_refused(|| has_its_segments(rt.alloc())) == Some(true));
}

// Adds a root. Where memory is refused, the table is as long as before.
fn added(alloc: Global, table: &mut Table, number: u32) -> Ending {
    let before = table.len();
    match add_root(alloc, table, number) {
        Some(Ok(key)) if key as usize == before && table.len() > before => Ending::Done,
        None | Some(Err(TableFault::Memory)) if table.len() == before => Ending::Refused,
        _ => Ending::Wrong,
    }
}

#[test]
fn a_table(rt: HostRuntime) {
    let mut table = Table::new(rt.alloc());
    for number in 0..20 {
        assert!(rt; is_done(|| added(rt.alloc(), &mut table, number)));
    }
}

// Whether the record of a text is written as that text.
fn is_record_written(alloc: Global, record: &Record, text: &[u8]) -> Option<bool> {
    let mut target = ByteTarget::new(alloc);
    is_written(write_record(alloc, record, &mut target), &target, text)
}

// Whether the third entry has this tail.
fn has_tail(alloc: Global, record: &Record, want: &str) -> Option<bool> {
    let tail = write_tail(alloc, &record.entry(2)?).ok()?;
    Some(tail.as_str() == want)
}

// Whether a record is written as this text, and the tail of its third entry, also where one request
// for memory is refused.
fn texts_hold(alloc: Global, record: &Record, text: &[u8], tail: &str) -> bool {
    let is_written = again_if_refused(|| is_record_written(alloc, record, text));
    let has_tail = again_if_refused(|| has_tail(alloc, record, tail));
    is_written == Some(true) && has_tail == Some(true)
}

fn is_written_again(alloc: Global, text: &[u8], tail: &str) -> bool {
    match record_again(alloc, text) {
        Some(record) => texts_hold(alloc, &record, text, tail),
        None => false,
    }
}

#[test]
fn texts(rt: HostRuntime) {
    assert!(rt; is_written_again(rt.alloc(), two_tests(), "finish|fail|boom"));
    assert!(rt; is_written_again(rt.alloc(), two_locked_tests(), "finish|ok"));
}

// The stamp of an entry that came back for want of memory.
fn refused_stamp(appended: &Result<(), AppendFault>) -> Option<u64> {
    match appended {
        Err(AppendFault::Memory(entry)) => Some(entry.event.stamp),
        _ => None,
    }
}

// Appends a start. Where memory is refused, the start comes back and the record is as it was.
fn appended(record: &mut Record, stamp: u64) -> Ending {
    let before = record.len();
    let event = start(0, stamp);
    let answer = record.append(Entry { worker: 1, event });
    let refused = refused_stamp(&answer);
    drop(answer);
    if record.len() == before + 1 {
        Ending::Done
    } else if record.len() == before && refused == Some(stamp) {
        Ending::Refused
    } else {
        Ending::Wrong
    }
}

// Whether twenty starts are appended, also where one request for memory is refused.
fn are_appended(record: &mut Record) -> bool {
    for stamp in 0..20 {
        if !is_done(|| appended(record, stamp)) {
            return false;
        }
    }
    record.len() == 25
}

#[test]
fn appended_entries(rt: HostRuntime) {
    let hold = match read_again(rt.alloc()) {
        Some(mut record) => are_appended(&mut record),
        None => false,
    };
    assert!(rt; hold);
}

//! Small values that many tests start from.
use crate::texts::two_tests;
use std::alloc::Global;
use std::sync::Arc;
use tk_events::{Entry, Event, Kind, Payload};
use tk_ids::{DType, Segment, Table};
use tk_record::{AppendFault, Record};
use tk_record_text::{ReadFault, read_record};
use tk_streams::ByteSource;

/// A start of the descriptor with this key.
pub fn start(key: u32, stamp: u64) -> Event {
    Event {
        kind: Kind::Started,
        key,
        stamp,
        payload: Payload::Nothing,
    }
}

// Adds the root `[engine:e]`; none for want of memory.
fn add_root(alloc: Global, table: &mut Table, dtype: DType) -> Option<u32> {
    let segment = Segment::new(alloc, "engine", "e").ok()?;
    table.add(alloc, None, &segment, "e", dtype).ok()
}

/// A table of one node, the root `[engine:e]`; none for want of memory.
pub fn one_node(alloc: Global, dtype: DType) -> Option<Arc<Table>> {
    let mut table = Table::new(alloc);
    add_root(alloc, &mut table, dtype)?;
    Arc::new(alloc, table).ok()
}

/// The record of a text, where it is one.
pub fn record_of(alloc: Global, text: &[u8]) -> Option<Record> {
    read_record(alloc, &mut ByteSource::new(text)).ok()
}

fn is_refused(answer: &Result<Record, ReadFault>) -> bool {
    matches!(answer, Err(ReadFault::Memory))
}

/// The record of a text, also where one request for memory is refused.
pub fn record_again(alloc: Global, text: &[u8]) -> Option<Record> {
    let answer = read_record(alloc, &mut ByteSource::new(text));
    if is_refused(&answer) {
        drop(answer);
        return record_of(alloc, text);
    }
    answer.ok()
}

/// The record of two tests, also where one request for memory is refused.
pub fn read_again(alloc: Global) -> Option<Record> {
    record_again(alloc, two_tests())
}

fn append_start(record: &mut Record, worker: u8, stamp: u64) -> bool {
    let event = start(0, stamp);
    let appended: Result<(), AppendFault> = record.append(Entry { worker, event });
    let is_appended = appended.is_ok();
    drop(appended);
    is_appended
}

/// A record of one test and this number of its starts by worker 0, whose stamps count from 0.
pub fn starts(alloc: Global, count: u64) -> Option<Record> {
    let mut record = Record::new(alloc, one_node(alloc, DType::Test)?);
    for stamp in 0..count {
        if !append_start(&mut record, 0, stamp) {
            return None;
        }
    }
    Some(record)
}

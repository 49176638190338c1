//! Reading and writing a record by a device that passes one byte a call and breaks at some call, at
//! each call in turn.
use std::alloc::Global;
use test_support::{OneByteSource, OneByteTarget, is_cut, record_of, two_locked_tests, two_tests};
use tk_record::Record;
use tk_record_text::{ReadFault, read_record, write_record};

fn writing_breaks(alloc: Global, record: &Record, text: &[u8], bytes: usize) -> bool {
    let mut target = OneByteTarget::new(alloc, bytes);
    let answer = write_record(alloc, record, &mut target);
    is_cut(answer, &target, text, bytes)
}

// Whether the writer answers so at each call before the last byte went out, and not after it.
fn writer_breaks(alloc: Global, record: &Record, text: &[u8]) -> bool {
    for bytes in 0..text.len() {
        if !writing_breaks(alloc, record, text, bytes) {
            return false;
        }
    }
    !writing_breaks(alloc, record, text, text.len())
}

fn writer_of_breaks(alloc: Global, text: &[u8]) -> bool {
    match record_of(alloc, text) {
        Some(record) => writer_breaks(alloc, &record, text),
        None => false,
    }
}

#[test]
fn writing_at_each_call(rt: HostRuntime) {
    assert!(rt; writer_of_breaks(rt.alloc(), two_tests()));
    assert!(rt; writer_of_breaks(rt.alloc(), two_locked_tests()));
}

fn reading_breaks(alloc: Global, text: &[u8], bytes: usize) -> bool {
    let read = read_record(alloc, &mut OneByteSource::new(text, bytes));
    let breaks = matches!(&read, Err(ReadFault::Device));
    drop(read);
    breaks
}

// Whether the reader answers so at each call up to the one that finds the end, and not after it.
fn reader_breaks(alloc: Global, text: &[u8]) -> bool {
    for bytes in 0..=text.len() {
        if !reading_breaks(alloc, text, bytes) {
            return false;
        }
    }
    !reading_breaks(alloc, text, text.len() + 1)
}

#[test]
fn reading_at_each_call(rt: HostRuntime) {
    assert!(rt; reader_breaks(rt.alloc(), two_locked_tests()));
}

//! What is shown of faults and of records, and what a failed assertion prints.
//!
//! The texts of faults and of records are fixed by clauses, which don't say that a value is shown.
use crate::pairs::one_pair;
use std::alloc::Global;
use test_support::{are_shown, is_debugged_as, is_shown, record_of, two_tests};
use tk_events::{Kind, Status};
use tk_ids::{IdFault, Segment, TableFault, Text, UniqueId};
use tk_record::{Events, Mismatch, Record, Selection, Statistics};
use tk_record_text::{LineFault, NodesFault, WriteFault};
use tk_streams::Broken;

#[test]
fn faults_of_ids(rt: HostRuntime) {
    let faults = [
        IdFault::Empty,
        IdFault::BadSegment(1),
        IdFault::BadEscape(2),
        IdFault::TooLong,
        IdFault::Memory,
    ];
    assert!(rt; are_shown(rt.alloc(), &faults));
    let faults = [
        TableFault::NoParent,
        TableFault::Twice,
        TableFault::Full,
        TableFault::Id(IdFault::Empty),
        TableFault::Memory,
    ];
    assert!(rt; are_shown(rt.alloc(), &faults));
}

#[test]
fn faults_of_texts(rt: HostRuntime) {
    assert!(rt; are_shown(rt.alloc(), &[LineFault::Bad, LineFault::Memory]));
    assert!(rt; are_shown(rt.alloc(), &[NodesFault::BadLine(2), NodesFault::Memory]));
    assert!(rt; are_shown(rt.alloc(), &[WriteFault::Device, WriteFault::Memory]));
    assert!(rt; is_shown(rt.alloc(), &Broken));
}

fn are_events_shown(alloc: Global, record: &Record) -> bool {
    match Events::all(alloc, record) {
        Ok(events) => is_shown(alloc, &events),
        Err(_) => false,
    }
}

#[test]
fn events(rt: HostRuntime) {
    let are_shown = match record_of(rt.alloc(), two_tests()) {
        Some(record) => are_events_shown(rt.alloc(), &record),
        None => false,
    };
    assert!(rt; are_shown);
}

#[test]
fn numbers(rt: HostRuntime) {
    let statistics = Statistics {
        skipped: 1,
        started: 2,
        finished: 2,
        aborted: 0,
        succeeded: 1,
        failed: 1,
        reporting: 0,
        dynamic: 0,
        files: 0,
    };
    assert!(rt; is_shown(rt.alloc(), &statistics));
    let mismatch = Mismatch {
        selection: Selection::Skipped,
        expected: 0,
        actual: 1,
    };
    assert!(rt; is_shown(rt.alloc(), &mismatch));
}

#[test]
fn debugged_ids(rt: HostRuntime) {
    let text = Text::copy(rt.alloc(), "a\"b");
    assert!(rt; is_debugged_as(rt.alloc(), &text, "Ok(\"a\\\"b\")"));
    let segment = Segment::new(rt.alloc(), "t", "a/b");
    assert!(rt; is_debugged_as(rt.alloc(), &segment, "Ok(Segment(\"t\", \"a/b\"))"));
    let id = UniqueId::read(rt.alloc(), "[t:a%2Fb]");
    assert!(rt; is_debugged_as(rt.alloc(), &id, "Ok(\"[t:a%2Fb]\")"));
}

#[test]
fn debugged_events(rt: HostRuntime) {
    assert!(rt; is_debugged_as(rt.alloc(), &one_pair(rt.alloc()), "Ok([(\"k\", \"v\")])"));
    assert!(rt; is_debugged_as(rt.alloc(), &Kind::Reporting, "Reporting"));
    assert!(rt; is_debugged_as(rt.alloc(), &Status::of_code(3), "Some(Failed)"));
}

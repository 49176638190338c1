//! Executions of the record of two tests, and those that ended in one way.
use std::alloc::{AllocError, Global};
use test_support::{is_debugged_as, record_of, two_tests};
use tk_query::{Executions, executions};
use tk_record::Events;

// Lists the executions of the record of two tests; none where memory was refused.
fn of_two_tests(alloc: Global) -> Option<Executions> {
    let record = record_of(alloc, two_tests())?;
    let events = Events::all(alloc, &record).ok()?;
    executions(alloc, &events).ok()
}

// Whether `count` executions are kept; nothing where memory was refused.
fn are_kept(kept: Result<Executions, AllocError>, count: usize) -> Option<bool> {
    Some(kept.ok()?.len() == count)
}

// Whether executions are kept by their endings as those of two tests are.
fn are_filtered(alloc: Global, list: &Executions) -> Option<bool> {
    let started = are_kept(list.started(alloc), 2)?;
    let finished = are_kept(list.finished(alloc), 2)?;
    let skipped = are_kept(list.skipped(alloc), 1)?;
    let failed = are_kept(list.failed(alloc), 1)?;
    let succeeded = are_kept(list.succeeded(alloc), 1)?;
    let aborted = are_kept(list.aborted(alloc), 0)?;
    Some(started && finished && skipped && failed && succeeded && aborted)
}

/// Whether the executions of two tests are kept by their endings; none where memory was refused.
pub(crate) fn filter_two_tests(alloc: Global) -> Option<bool> {
    are_filtered(alloc, &of_two_tests(alloc)?)
}

/// Positions are those in the record.
#[test]
fn executions_of_two_tests(rt: HostRuntime) {
    let list = of_two_tests(rt.alloc());
    let text = "Some(Executions { items: [\
        Execution { key: 1, ending: Failed, first: 1, last: 2, start: 1, stop: 2 }, \
        Execution { key: 2, ending: Skipped, first: 3, last: 3, start: 1, stop: 1 }, \
        Execution { key: 0, ending: Successful, first: 0, last: 4, start: 0, stop: 9 }] })";
    assert!(rt; is_debugged_as(rt.alloc(), &list, text));
}

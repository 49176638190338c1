//! Selections of events, by the calls that have their names.
use std::alloc::{AllocError, Global};
use test_support::{record_of, two_tests};
use tk_record::Events;

// The text of a record with an event of each kind that the record of two tests lacks.
fn other_kinds() -> &'static [u8] {
    b"testkit-record|2\nN|C|[engine:e]|e\nE|1|65536|0|dynamic|T|[engine:e]/[d:1]|one\nE|1|65536|1|finish|abort\nE|15|0|2|report|k|v\nE|15|0|3|file|out/log.txt\n"
}

// (Compared where no value is dropped, which is proved far sooner.)
fn are_same(positions: &[usize], want: &[usize]) -> bool {
    positions == want
}

fn are_these(positions: Result<Vec<usize>, AllocError>, want: &[usize]) -> Option<bool> {
    match positions {
        Ok(positions) => Some(are_same(positions.as_slice(), want)),
        Err(_) => None,
    }
}

// Whether these are the events at these positions of their record; none where memory was refused.
fn are_at(alloc: Global, events: Result<Events<'_>, AllocError>, want: &[usize]) -> Option<bool> {
    match events {
        Ok(events) => are_these(events.positions(alloc), want),
        Err(_) => None,
    }
}

// Whether the events of descriptors and of workers are those of the record of two tests.
fn are_of_two_tests(alloc: Global, events: &Events<'_>) -> Option<bool> {
    let tests = are_at(alloc, events.tests(alloc), &[1, 2, 3])?;
    let containers = are_at(alloc, events.containers(alloc), &[0, 4])?;
    let of_worker = are_at(alloc, events.by_worker(alloc, 1), &[1, 2])?;
    let of_key = are_at(alloc, events.by_key(alloc, 0), &[0, 4])?;
    Some(tests && containers && of_worker && of_key)
}

// Whether the events of kinds and of statuses are those of the record of two tests.
fn are_ends_of_two_tests(alloc: Global, events: &Events<'_>) -> Option<bool> {
    let skipped = are_at(alloc, events.skipped(alloc), &[3])?;
    let started = are_at(alloc, events.started(alloc), &[0, 1])?;
    let finished = are_at(alloc, events.finished(alloc), &[2, 4])?;
    let succeeded = are_at(alloc, events.succeeded(alloc), &[4])?;
    let failed = are_at(alloc, events.failed(alloc), &[2])?;
    Some(skipped && started && finished && succeeded && failed)
}

// Whether the events are those of the record of the other kinds.
fn are_of_other_kinds(alloc: Global, events: &Events<'_>) -> Option<bool> {
    let dynamic = are_at(alloc, events.dynamic(alloc), &[0])?;
    let aborted = are_at(alloc, events.aborted(alloc), &[1])?;
    let reporting = are_at(alloc, events.reporting(alloc), &[2])?;
    let files = are_at(alloc, events.files(alloc), &[3])?;
    let of_key = are_at(alloc, events.by_key(alloc, 65_536), &[0, 1])?;
    Some(dynamic && aborted && reporting && files && of_key)
}

/// Whether the record of two tests has its events; none where memory was refused.
pub(crate) fn select_of_two_tests(alloc: Global) -> Option<bool> {
    let record = record_of(alloc, two_tests())?;
    let events = Events::all(alloc, &record).ok()?;
    let ends = are_ends_of_two_tests(alloc, &events)?;
    Some(ends && are_of_two_tests(alloc, &events)?)
}

/// Whether the record of the other kinds has its events; none where memory was refused.
pub(crate) fn select_of_other_kinds(alloc: Global) -> Option<bool> {
    let record = record_of(alloc, other_kinds())?;
    are_of_other_kinds(alloc, &Events::all(alloc, &record).ok()?)
}

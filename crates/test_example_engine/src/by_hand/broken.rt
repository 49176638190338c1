//! An engine with one of eight defects: which expectation finds it, and how that fails.
use engine_testkit::{Expect, Failure, Selection, execute};
use example_engine::by_hand::{Defect, broken_engine};
use std::alloc::{AllocError, Global};
use std::sync::Wait;
use std::thread::Threads;

const STARTS: [&str; 2] = ["all(started,name(first))", "all(started,name(second))"];

const ENTRY: [&str; 1] = ["all(name(first),entry(rows,2))"];

// How the expectation fails that finds each defect: how its text begins.
const FAILURES: [(Defect, &str); 8] = [
    (
        Defect::FinishedTwice,
        "no 7 not-running
[engine:broken]/[suite:all]/[test:second] \"second\" finished at 7, but finished at 6 already",
    ),
    (
        Defect::StartedTooLate,
        "no 6 parent-not-running
[engine:broken]/[suite:all]/[test:second] \"second\" started at 6, \
but its parent [engine:broken]/[suite:all] \"all\" finished at 5",
    ),
    (
        Defect::TestForgotten,
        "no start 3
[engine:broken]/[suite:all]/[test:second] \"second\" neither started nor was skipped, \
but its parent [engine:broken]/[suite:all] \"all\" succeeded at 5",
    ),
    (
        Defect::LockForgotten,
        "no 2 3 db
[engine:broken]/[suite:all]/[test:second] \"second\" (2 to 6) \
and [engine:broken]/[suite:all]/[test:first] \"first\" (3 to 5) overlap, over db",
    ),
    (
        Defect::WrongOutcome,
        "skipped 0\nstarted 2\nfinished 2\naborted 0\nsucceeded 2\nfailed 0\nreporting 1\n\
dynamic 0\nfiles 0
mismatch failed expected 1 actual 0
not counted as failed:
    4 E|1|2|0|finish|ok   [engine:broken]/[suite:all]/[test:first] \"first\"
    6 E|1|3|0|finish|ok   [engine:broken]/[suite:all]/[test:second] \"second\"",
    ),
    (
        Defect::FinishLost,
        "no 6 child-running
[engine:broken]/[suite:all] \"all\" finished at 6, \
but its child [engine:broken]/[suite:all]/[test:second] \"second\", which started at 5, still ran",
    ),
    (
        Defect::OrderSwapped,
        "no 1
0 all(started,name(first))
    4: E|1|2|0|start   [engine:broken]/[suite:all]/[test:first] \"first\"
1 all(started,name(second))
    2: E|1|3|0|start   [engine:broken]/[suite:all]/[test:second] \"second\"   holds, but is not after 4",
    ),
    (
        Defect::EntryMissing,
        "no 0
0 all(name(first),entry(rows,2))
    2: E|1|2|0|start   [engine:broken]/[suite:all]/[test:first] \"first\"   does not hold: entry(rows,2)",
    ),
];

// Expects that each test runs as it should.
fn expect_runs(expect: Expect<'_>) -> Result<(), Failure> {
    expect.lifecycle()?.locks()?;
    Ok(())
}

// Expects the events of both tests, in their order.
fn expect_events(expect: Expect<'_>) -> Result<(), Failure> {
    expect
        .in_order(&STARTS)?
        .loosely(&ENTRY)?
        .pick(Selection::Tests)
        .stats("failed=1")?;
    Ok(())
}

// Expects what holds of a run without a defect.
fn expect_no_defect(expect: Expect<'_>) -> Result<(), Failure> {
    expect_runs(expect)?;
    expect_events(expect)
}

// The text of a failure, or none where there is none.
fn text_of(alloc: Global, met: Result<(), Failure>) -> Result<String, AllocError> {
    match met {
        Ok(()) => Ok(String::new(alloc)),
        Err(failure) => format!(in alloc; "{failure:?}"),
    }
}

// How a run of the engine with a defect fails what is expected.
fn failure<R: Threads + Wait + Sync>(
    rt: &R,
    alloc: Global,
    defect: Defect,
) -> Result<String, Failure> {
    let results = execute(rt, alloc, &broken_engine(alloc, Some(defect))?, 1, 16)?;
    let met = expect_no_defect(Expect::of(alloc, results.recorded()));
    Ok(text_of(alloc, met)?)
}

#[test]
fn each_defect_is_found(rt: HostRuntime) -> Result<(), Failure> {
    for (defect, begin) in FAILURES {
        let found = failure(&rt, rt.alloc(), defect)?;
        assert!(rt; found.as_str().starts_with(begin), "{found}");
    }
    Ok(())
}

#[test]
fn an_engine_without_defect_has_what_is_expected(rt: HostRuntime) -> Result<(), Failure> {
    let alloc = rt.alloc();
    let results = execute(&rt, alloc, &broken_engine(alloc, None)?, 1, 16)?;
    expect_no_defect(Expect::of(alloc, results.recorded()))
}

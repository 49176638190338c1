//! Engines that are run by one to fifteen workers.
use crate::engines::{Asked, Seen, UnitStep, Units, engine};
use std::alloc::Global;
use std::sync::Wait;
use std::sync::atomic::{AtomicU64, Ordering};
use std::test::*;
use std::thread::Threads;
use test_support::{Ending, done_if, is_done, refused_if};
use tk_engine_execute::{
    FailedRun, Results, RunFault, SinkFault, UnitFault, execute, execute_many, execute_with_record,
};
use tk_locks::Need;
use tk_queue_session::SendFault;
use tk_record::Record;

// How a run ended.
#[derive(Clone, Copy, PartialEq, Eq)]
enum Outcome {
    Recorded,
    Workers,
    Capacity,
    Memory,
    Threads,
    // The unit that failed, and the number with which it did.
    Own(u32, u32),
    // The unit to which memory was refused.
    OfMemory(u32),
    // The unit that emitted an event of an unknown key, and that key.
    UnknownKey(u32, u32),
    // The unit that failed otherwise.
    Other(u32),
}

// How a run ended, how many entries it recorded, the stamps of the first four, and how many events
// the closed session says that worker 1 and that all workers emitted; and what the engine saw.
#[derive(Clone, Copy)]
struct Ran {
    outcome: Outcome,
    entries: usize,
    stamps: (u64, u64, u64, u64),
    emitted_by_one: u64,
    emitted: u64,
    seen: Seen,
}

// The bits of 60 units.
const ALL_OF_60: u64 = (1 << 60) - 1;

fn of_unit(unit: u32, why: &UnitFault) -> Outcome {
    match why {
        UnitFault::Own(number) => Outcome::Own(unit, *number),
        UnitFault::Memory => Outcome::OfMemory(unit),
        UnitFault::Sink(SinkFault::Send(SendFault::UnknownNode(event))) => {
            Outcome::UnknownKey(unit, event.key)
        }
        _ => Outcome::Other(unit),
    }
}

fn of_fault(fault: &RunFault) -> Outcome {
    match fault {
        RunFault::Workers => Outcome::Workers,
        RunFault::Capacity => Outcome::Capacity,
        RunFault::Memory => Outcome::Memory,
        RunFault::Threads => Outcome::Threads,
        RunFault::Engine(unit, why) => of_unit(*unit, why),
    }
}

// How many events the closed session says that the workers emitted.
fn emitted(results: &Results) -> u64 {
    let mut all = 0u64;
    for worker in 0..=16u8 {
        all = all.saturating_add(results.closed().emitted(worker));
    }
    all
}

// The stamp of an entry, and 0 where there is none.
fn stamp(record: &Record, position: usize) -> u64 {
    match record.entry(position) {
        Some(entry) => entry.stamp,
        None => 0,
    }
}

fn of_results(results: &Results, seen: Seen) -> Ran {
    let record = results.recorded();
    Ran {
        outcome: Outcome::Recorded,
        entries: record.len(),
        stamps: (
            stamp(record, 0),
            stamp(record, 1),
            stamp(record, 2),
            stamp(record, 3),
        ),
        emitted_by_one: results.closed().emitted(1),
        emitted: emitted(results),
        seen,
    }
}

fn of_failure(fault: &RunFault, seen: Seen) -> Ran {
    Ran {
        outcome: of_fault(fault),
        entries: 0,
        stamps: (0, 0, 0, 0),
        emitted_by_one: 0,
        emitted: 0,
        seen,
    }
}

// Runs these units by this number of workers, through a queue of this capacity; none where memory
// was refused before.
fn run<R: Threads + Wait + Sync>(
    rt: &R,
    alloc: Global,
    units: &Units<'_>,
    workers: usize,
    capacity: usize,
) -> Option<Ran> {
    let engine = engine(alloc, units)?;
    let answer = execute(rt, alloc, &engine, workers, capacity);
    let seen = engine.seen();
    let ran = match &answer {
        Ok(results) => of_results(results, seen),
        Err(fault) => of_failure(fault, seen),
    };
    drop(answer);
    Some(ran)
}

// How the run of these units by this number of workers ends.
fn outcome_of<R: Threads + Wait + Sync>(
    rt: &R,
    alloc: Global,
    units: &Units<'_>,
    workers: usize,
    capacity: usize,
) -> Option<Outcome> {
    Some(run(rt, alloc, units, workers, capacity)?.outcome)
}

// Whether a run of `units` units that emit one start each is recorded.
fn are_recorded<R: Threads + Wait + Sync>(
    rt: &R,
    alloc: Global,
    units: u32,
    workers: usize,
    capacity: usize,
) -> bool {
    let alike = Units::alike(units, &[UnitStep::Start(0)]);
    match run(rt, alloc, &alike, workers, capacity) {
        Some(ran) => ran.entries == units as usize && ran.emitted == units as u64,
        None => false,
    }
}

#[test]
fn one_to_fifteen_workers_run_all_units(rt: HostRuntime) {
    for workers in 1..=15usize {
        assert!(rt; are_recorded(&rt, rt.alloc(), 300, workers, 3), "{workers}");
    }
}

#[test]
fn no_unit_and_as_many_as_may_be(rt: HostRuntime) {
    for (units, workers, capacity) in [(0, 15, 1), (1, 15, 1024), (65_536, 2, 1024)] {
        assert!(rt;
            are_recorded(&rt, rt.alloc(), units, workers, capacity),
            "{units}"
        );
    }
}

/// As many events come before the units as a worker may emit, and a unit emits one more.
#[test]
fn many_events(rt: HostRuntime) {
    let units = Units {
        starts_before: 1_048_576,
        ..Units::alike(1, &[UnitStep::Start(0)])
    };
    let ran = run(&rt, rt.alloc(), &units, 1, 64);
    assert!(rt; matches!(ran, Some(ran) if ran.entries == 1_048_577 && ran.emitted == 1));
}

#[test]
fn workers_and_capacity(rt: HostRuntime) {
    let units = Units::alike(1, &[UnitStep::Start(0)]);
    for workers in [0, 16] {
        let outcome = outcome_of(&rt, rt.alloc(), &units, workers, 1);
        assert!(rt; outcome == Some(Outcome::Workers), "{workers}");
    }
    for capacity in [0, 1025] {
        let outcome = outcome_of(&rt, rt.alloc(), &units, 1, capacity);
        assert!(rt; outcome == Some(Outcome::Capacity), "{capacity}");
    }
}

#[test]
fn side_by_side(rt: HostRuntime) {
    let units = Units::beside(2, &[UnitStep::Await(1, 1)], &[UnitStep::Begin]);
    assert!(rt; outcome_of(&rt, rt.alloc(), &units, 2, 64) == Some(Outcome::Recorded));
}

/// Two units that write different resources, each of which waits until the other one has begun.
#[test]
fn writers_of_different_resources(rt: HostRuntime) {
    let units = Units {
        need: Need::of(1, 2),
        need_of_others: Need::of(1, 4),
        ..Units::alike(2, &[UnitStep::Begin, UnitStep::Await(2, 1)])
    };
    assert!(rt; outcome_of(&rt, rt.alloc(), &units, 2, 64) == Some(Outcome::Recorded));
}

#[test]
fn events_as_they_are_emitted(rt: HostRuntime) {
    let first = [
        UnitStep::Start(1),
        UnitStep::Begin,
        UnitStep::Await(2, 3),
        UnitStep::Start(3),
    ];
    let other = [UnitStep::Await(1, 3), UnitStep::Start(2), UnitStep::Begin];
    let ran = run(&rt, rt.alloc(), &Units::beside(2, &first, &other), 2, 64);
    assert!(rt; matches!(ran, Some(ran) if ran.stamps == (1, 2, 3, 0) && ran.emitted == 3));
    assert!(rt; matches!(ran, Some(ran) if ran.emitted_by_one == 1 || ran.emitted_by_one == 2));
}

#[test]
fn one_shared_book(rt: HostRuntime) {
    let first = [UnitStep::Start(7), UnitStep::Alone(2), UnitStep::Start(7)];
    let other = [UnitStep::Start(8), UnitStep::Alone(2), UnitStep::Start(8)];
    let units = Units {
        need: Need::of(0, 1),
        need_of_others: Need::of(0, 1),
        ..Units::beside(2, &first, &other)
    };
    let stamps = match run(&rt, rt.alloc(), &units, 2, 64) {
        Some(ran) => ran.stamps,
        None => (0, 0, 0, 0),
    };
    assert!(rt; stamps == (7, 7, 8, 8) || stamps == (8, 8, 7, 7));
}

/// The fault of a unit is handed on as it is, with the unit's number.
#[test]
fn a_failure_is_handed_on(rt: HostRuntime) {
    let rows = [
        (UnitStep::Fail(3), Outcome::Own(1, 3)),
        (UnitStep::Fail(u32::MAX), Outcome::Own(1, u32::MAX)),
        (UnitStep::FailForMemory, Outcome::OfMemory(1)),
        (UnitStep::StartOf(9), Outcome::UnknownKey(1, 9)),
    ];
    for (step, wanted) in rows {
        let steps = [UnitStep::Start(1), step];
        let outcome = outcome_of(&rt, rt.alloc(), &Units::beside(3, &[], &steps), 1, 64);
        assert!(rt; outcome == Some(wanted));
    }
}

// How many entries a failed run has recorded, the stamps of the first two, and whether they are all
// that the workers emitted.
fn kept(failed: &FailedRun) -> Option<(usize, u64, u64, bool)> {
    let record = failed.recorded.as_ref()?;
    Some((
        record.len(),
        stamp(record, 0),
        stamp(record, 1),
        failed.is_complete,
    ))
}

// Runs these units by this number of workers, and says what is kept where the run fails.
fn run_with_record<R: Threads + Wait + Sync>(
    rt: &R,
    alloc: Global,
    units: &Units<'_>,
    workers: usize,
) -> Option<(usize, u64, u64, bool)> {
    let engine = engine(alloc, units)?;
    let answer = execute_with_record(rt, alloc, &engine, workers, 64);
    let kept = match &answer {
        Ok(_) => None,
        Err(failed) => kept(failed),
    };
    drop(answer);
    kept
}

/// Of a unit that failed after two events the record has both.
#[test]
fn a_failed_run_keeps_its_record(rt: HostRuntime) {
    let fails = [UnitStep::Start(1), UnitStep::Start(2), UnitStep::Fail(3)];
    let units = Units::beside(2, &fails, &[]);
    assert!(rt; run_with_record(&rt, rt.alloc(), &units, 2) == Some((2, 1, 2, true)));
    assert!(rt; run_with_record(&rt, rt.alloc(), &units, 0).is_none());
}

// Whether `execute_many` finds one of three runs of two units of which the check is false, and how
// often it calls the check, which is true of the first `passing` runs.
fn checked_runs<R: Threads + Wait + Sync>(
    rt: &R,
    alloc: Global,
    passing: u64,
) -> Option<(bool, u64)> {
    let engine = engine(alloc, &Units::alike(2, &[UnitStep::Start(0)]))?;
    let calls = AtomicU64::new(0);
    let counter = &calls;
    let check = move |_results: &Results| counter.fetch_add(1, Ordering::SeqCst) < passing;
    let found = execute_many(rt, alloc, &engine, 2, 64, 3, &check);
    let is_found = match &found {
        Ok(found) => Some(found.is_some()),
        Err(_) => None,
    };
    drop(found);
    Some((is_found?, calls.load(Ordering::SeqCst)))
}

/// Many runs end at the first of which the check is false, or once there were as many as asked for.
#[test]
fn many_runs_end_where_the_check_is_false(rt: HostRuntime) {
    for (passing, found) in [
        (0, (true, 1)),
        (1, (true, 2)),
        (2, (true, 3)),
        (3, (false, 3)),
    ] {
        assert!(rt;
            checked_runs(&rt, rt.alloc(), passing) == Some(found),
            "{passing}"
        );
    }
}

// What 60 units saw that each wait until every worker has one, and then do this.
fn seen_by_all<R: Threads + Wait + Sync>(
    rt: &R,
    alloc: Global,
    workers: u32,
    last: UnitStep,
) -> Option<Seen> {
    let steps = [
        UnitStep::Begin,
        UnitStep::Await(workers, 1),
        UnitStep::End,
        last,
    ];
    Some(run(rt, alloc, &Units::alike(60, &steps), workers as usize, 64)?.seen)
}

/// Each unit is run. The events before the units are asked for once, before a unit begins, and those
/// after them once, when each unit has come to its end; not where a unit failed.
#[test]
fn before_and_after_are_asked_once(rt: HostRuntime) {
    let not_asked = Asked { times: 0, ended: 0 };
    let first = Asked { times: 1, ended: 0 };
    let last = Asked {
        times: 1,
        ended: ALL_OF_60,
    };
    for workers in [1u32, 2, 15] {
        let seen = seen_by_all(&rt, rt.alloc(), workers, UnitStep::Start(0));
        let are_all = matches!(seen, Some(seen) if seen.begun == ALL_OF_60);
        assert!(rt;
            are_all && matches!(seen, Some(seen) if seen.before == first && seen.after == last),
            "{workers}"
        );
        let seen = seen_by_all(&rt, rt.alloc(), workers, UnitStep::Fail(1));
        assert!(rt;
            matches!(seen, Some(seen) if seen.before == first && seen.after == not_asked),
            "{workers}"
        );
    }
}

// Whether a run of `workers` workers, each of which fails at its first unit once all have one, answers
// the fault of worker 1, and its unit.
fn first_has_failed<R: Threads + Wait + Sync>(rt: &R, alloc: Global, workers: u32) -> bool {
    let steps = [
        UnitStep::Begin,
        UnitStep::Await(workers, 1),
        UnitStep::FailAsWorker,
    ];
    match run(rt, alloc, &Units::alike(60, &steps), workers as usize, 64) {
        Some(ran) => match ran.outcome {
            Outcome::Own(unit, fault) => {
                fault == unit.wrapping_add(1_000) && ran.seen.begun.count_ones() == workers
            }
            _ => false,
        },
        None => false,
    }
}

#[test]
fn all_workers_fail(rt: HostRuntime) {
    for workers in [1u32, 2, 15] {
        assert!(rt; first_has_failed(&rt, rt.alloc(), workers), "{workers}");
    }
}

// A run of two units, by two workers through a queue of capacity one. Each unit has 1,000 starts
// between its first step and this last one.
fn run_of_starts<R: Threads + Wait + Sync>(rt: &R, alloc: Global, last: UnitStep) -> Option<Ran> {
    let mut steps = [UnitStep::Start(0); 1_002];
    steps[0] = UnitStep::Begin;
    steps[1_001] = last;
    run(rt, alloc, &Units::alike(2, &steps), 2, 1)
}

// The workers that were started draw both units and run them to their end, even where the other
// worker has no thread.
fn of_starts(ran: Option<Ran>) -> Ending {
    let Some(ran) = ran else {
        return Ending::Refused;
    };
    let begun = ran.seen.begun;
    if begun != ran.seen.ended {
        return Ending::Wrong;
    }
    match ran.outcome {
        Outcome::Recorded => done_if(begun == 3 && ran.entries == 2_000),
        Outcome::Threads => refused_if(begun == 3),
        Outcome::Memory => refused_if(begun == 3 || begun == 0),
        _ => Ending::Wrong,
    }
}

/// Such a run with ample memory, and with any one request for memory or any one thread refused.
#[test]
fn a_refused_run(rt: HostRuntime) {
    assert!(rt; is_done(|| of_starts(run_of_starts(&rt, rt.alloc(), UnitStep::End))));
}

fn of_failing_starts(ran: Option<Ran>) -> Ending {
    let Some(ran) = ran else {
        return Ending::Refused;
    };
    match ran.outcome {
        Outcome::Own(_, fault) => done_if(fault == 5),
        Outcome::Threads | Outcome::Memory => refused_if(ran.seen.begun == 0),
        _ => Ending::Wrong,
    }
}

/// Such a run whose units fail at their last step: what a unit answered is what the run answers,
/// whatever else was refused after the unit had begun.
#[test]
fn a_refused_run_that_fails(rt: HostRuntime) {
    assert!(rt; is_done(|| of_failing_starts(run_of_starts(&rt, rt.alloc(), UnitStep::Fail(5)))));
}

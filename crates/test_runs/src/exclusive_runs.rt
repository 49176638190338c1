//! Whether tests that lock one key keep away from each other, asked of the records of their runs.
use crate::engines::{UnitStep, Units, engine};
use std::alloc::Global;
use std::sync::Wait;
use std::thread::Threads;
use tk_engine_execute::{Results, execute};
use tk_locks::Need;
use tk_query::{Exclusive, exclusive};
use tk_query_conditions::read_condition;

// What `exclusive` answers of a run; none for want of memory.
fn answer_of(alloc: Global, results: &Results, writers: &str, readers: &str) -> Option<Exclusive> {
    let writers = read_condition(alloc, writers).ok()?;
    let readers = read_condition(alloc, readers).ok()?;
    let events = results.all_events(alloc).ok()?;
    exclusive(alloc, &events, &writers, &readers).ok()
}

// What `exclusive` answers of two tests that two workers run under this need, each with these steps
// between its start and its finish.
fn answer_of_two<R: Threads + Wait + Sync>(
    rt: &R,
    alloc: Global,
    need: Need,
    steps: [UnitStep; 2],
) -> Option<Exclusive> {
    let first = [
        UnitStep::StartOf(1),
        steps[0],
        steps[1],
        UnitStep::FinishOf(1),
    ];
    let other = [
        UnitStep::StartOf(2),
        steps[0],
        steps[1],
        UnitStep::FinishOf(2),
    ];
    let units = Units {
        need,
        need_of_others: need,
        ..Units::beside(2, &first, &other)
    };
    let engine = engine(alloc, &units)?;
    let ran = execute(rt, alloc, &engine, 2, 64);
    let answer = match &ran {
        Ok(results) => answer_of(alloc, results, "test", "any()"),
        Err(_) => None,
    };
    drop(ran);
    answer
}

#[test]
fn two_writers(rt: HostRuntime) {
    let steps = [UnitStep::Alone(2), UnitStep::End];
    let answer = answer_of_two(&rt, rt.alloc(), Need::of(0, 1), steps);
    assert!(rt; answer == Some(Exclusive::Yes));
}

/// Both tests write, and the engine says of them that they read. Each waits for the other one, so
/// that the second starts before the first finishes.
#[test]
fn a_need_that_is_too_small(rt: HostRuntime) {
    let steps = [UnitStep::Begin, UnitStep::Await(2, 3)];
    let answer = answer_of_two(&rt, rt.alloc(), Need::of(1, 0), steps);
    assert!(rt; answer == Some(Exclusive::No(0, 1)));
}

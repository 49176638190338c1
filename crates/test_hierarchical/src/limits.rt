//! As much as a body may register and emit, and one more.
use crate::calls::{chain, ends_so, engine_of, skip_test};
use std::alloc::Global;
use std::sync::Wait;
use std::thread::Threads;
use tk_engine_execute::UnitFault;
use tk_engine_hierarchical::{Body, Context, Reporter, Tests};
use tk_events::{Outcome, Pairs};

// What the test of a plan does, whose id is `[c:c]/[t:t]` or, below a chain, has 60 segments.
#[derive(Clone, Copy)]
enum Doing {
    /// Registers a segment of this many letters.
    Letters(u32),
    /// Registers a container, three below it, and below the last one this many tests.
    FourLevels(u32),
    /// Registers this many tests, which it skips.
    Registrations(u32),
    /// Publishes this many entries.
    Entries(u32),
}

// A body with a container below it, which has that body.
#[derive(Drop)]
struct Above<B>(B);

impl<B: Body> Body for Above<B> {
    fn run<C: Context>(&self, test: &mut Reporter<C>) -> Result<Outcome, UnitFault> {
        test.dynamic_container(("d", "d"), "d", &self.0)?;
        Ok(Outcome::Successful)
    }
}

// A body that registers this many tests, which it skips.
#[derive(Drop)]
struct Skipping(u32);

impl Body for Skipping {
    fn run<C: Context>(&self, test: &mut Reporter<C>) -> Result<Outcome, UnitFault> {
        for number in 0..self.0 {
            let value = format!(in test.alloc(); "{number}")?;
            skip_test(value.as_str(), "d", test)?;
        }
        Ok(Outcome::Successful)
    }
}

fn skip_long<C: Context>(letters: u32, test: &mut Reporter<C>) -> Result<Outcome, UnitFault> {
    let mut value = String::new(test.alloc());
    for _ in 0..letters {
        value.push('d')?;
    }
    skip_test(value.as_str(), "d", test)?;
    Ok(Outcome::Successful)
}

fn report_all<C: Context>(count: u32, test: &mut Reporter<C>) -> Result<Outcome, UnitFault> {
    for _ in 0..count {
        test.report_pairs(Pairs::new(test.alloc()))?;
    }
    Ok(Outcome::Successful)
}

impl Tests for Doing {
    fn run<C: Context>(&self, _key: u32, test: &mut Reporter<C>) -> Result<Outcome, UnitFault> {
        match *self {
            Doing::Letters(count) => skip_long(count, test),
            Doing::FourLevels(count) => Above(Above(Above(Above(Skipping(count))))).run(test),
            Doing::Registrations(count) => Skipping(count).run(test),
            Doing::Entries(count) => report_all(count, test),
        }
    }
}

// Whether a run by one worker ends so, of a plan of a test that is a unit of its own, at the bottom of
// a chain of nodes, `levels` levels in all, each of which publishes an entry.
fn ends<R: Threads + Wait + Sync>(
    rt: &R,
    alloc: Global,
    levels: u32,
    doing: Doing,
    ending: &str,
) -> bool {
    match chain(alloc, levels, r#","mode":"concurrent","entries":[[]]"#) {
        Ok(plan) => ends_so(rt, alloc, engine_of(alloc, plan.as_bytes(), doing), ending),
        Err(_) => false,
    }
}

// An id has at most 4,096 bytes: `[c:c]/[t:t]`, `/[d:`, the letters and `]`; and 64 segments.
#[test]
fn long_ids(rt: HostRuntime) {
    let alloc = rt.alloc();
    let too_long = "unit 0 failed: id is too long";
    assert!(rt; ends(&rt, alloc, 2, Doing::Letters(4_080), "done"));
    assert!(rt; ends(&rt, alloc, 2, Doing::Letters(4_081), too_long));
    assert!(rt; ends(&rt, alloc, 60, Doing::FourLevels(0), "done"));
    assert!(rt; ends(&rt, alloc, 60, Doing::FourLevels(1), too_long));
}

#[test]
fn registrations(rt: HostRuntime) {
    let alloc = rt.alloc();
    let too_many = "unit 0 failed: registration is one too many";
    assert!(rt; ends(&rt, alloc, 2, Doing::Registrations(65_536), "done"));
    assert!(rt; ends(&rt, alloc, 2, Doing::Registrations(65_537), too_many));
}

// A worker emits at most 2^20 events, three of which are the start of the test, the plan's entry and
// the finish.
#[test]
fn events(rt: HostRuntime) {
    let alloc = rt.alloc();
    let too_many = "unit 0 failed: event is one too many";
    assert!(rt; ends(&rt, alloc, 2, Doing::Entries(1_048_573), "done"));
    assert!(rt; ends(&rt, alloc, 2, Doing::Entries(1_048_574), too_many));
}

// The start and the body's entries leave no room.
#[test]
fn the_entry_of_the_plan_is_one_too_many(rt: HostRuntime) {
    let too_many = "unit 0 failed: event is one too many";
    assert!(rt; ends(&rt, rt.alloc(), 2, Doing::Entries(1_048_575), too_many));
}

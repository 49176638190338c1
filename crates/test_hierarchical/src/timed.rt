//! Engines whose clock gives the stamps.
use crate::calls::{is_recorded, results_of, run_test, skip_test};
use std::alloc::Global;
use std::sync::Wait;
use std::sync::atomic::{AtomicU64, Ordering};
use std::thread;
use std::thread::Threads;
use std::time::{Clock, Duration, Instant};
use tk_engine_execute::UnitFault;
use tk_engine_hierarchical::{Body, Context, EventClock, Hierarchical, Reporter, Tests};
use tk_events::Outcome;
use tk_plan_reading::read_plan;

// A clock that counts its readings: 100, 110, 120 and so on.
#[derive(Drop)]
struct Counting {
    reading: AtomicU64,
}

impl EventClock for Counting {
    fn stamp(&self) -> u64 {
        self.reading.fetch_add(10, Ordering::SeqCst)
    }
}

// A body that publishes an entry.
struct Reporting;

impl Body for Reporting {
    fn run<C: Context>(&self, test: &mut Reporter<C>) -> Result<Outcome, UnitFault> {
        test.report("k", "v")?;
        Ok(Outcome::Successful)
    }
}

// Two tests: the first has a dynamic test, the second sets a stamp of its own.
#[derive(Drop)]
struct Timed;

impl Tests for Timed {
    fn run<C: Context>(&self, key: u32, test: &mut Reporter<C>) -> Result<Outcome, UnitFault> {
        if key == 2 {
            test.set_stamp(7);
        }
        run_test(("d", "1"), "one", &Reporting, test)?;
        skip_test("2", "two", test)?;
        test.file("out.txt")?;
        Ok(Outcome::Successful)
    }
}

// A root with two tests, and one that is skipped.
fn plan() -> &'static [u8] {
    br#"{"version":2,"root":{"type":"container","segment":["engine","e"],"name":"e","children":[
{"type":"test","segment":["t","1"],"name":"one"},
{"type":"test","segment":["t","2"],"name":"two"},
{"type":"test","segment":["t","3"],"name":"three","skip":"later"}]}}"#
}

// The engine of these tests with this clock; none for want of memory.
fn engine_of<T: Tests + Drop, C: EventClock + Drop>(
    alloc: Global,
    tests: T,
    clock: C,
) -> Option<Hierarchical<T, C>> {
    Hierarchical::timed(alloc, read_plan(alloc, plan()).ok()?, tests, clock).ok()
}

// Each event has the next reading, but for those at the second test's own stamp.
fn record() -> &'static [u8] {
    b"testkit-record|2
N|C|[engine:e]|e
N|T|[engine:e]/[t:1]|one
N|T|[engine:e]/[t:2]|two
N|T|[engine:e]/[t:3]|three
E|1|0|100|start
E|1|1|110|start
E|1|65536|120|dynamic|T|[engine:e]/[t:1]/[d:1]|one
E|1|65536|120|start
E|1|65536|130|report|k|v
E|1|65536|140|finish|ok
E|1|65537|150|dynamic|T|[engine:e]/[t:1]/[d:2]|two
E|1|65537|150|skip|off
E|1|1|160|file|out.txt
E|1|1|170|finish|ok
E|1|2|180|start
E|1|65538|7|dynamic|T|[engine:e]/[t:2]/[d:1]|one
E|1|65538|7|start
E|1|65538|7|report|k|v
E|1|65538|7|finish|ok
E|1|65539|7|dynamic|T|[engine:e]/[t:2]/[d:2]|two
E|1|65539|7|skip|off
E|1|2|7|file|out.txt
E|1|2|7|finish|ok
E|1|3|200|skip|later
E|1|0|210|finish|ok
"
}

#[test]
fn each_event_has_what_the_clock_reads(rt: HostRuntime) {
    let (alloc, reading) = (rt.alloc(), AtomicU64::new(100));
    let results = results_of(&rt, alloc, engine_of(alloc, Timed, Counting { reading }), 1);
    assert!(rt; is_recorded(alloc, results, record()));
}

// The microseconds since it was made.
#[derive(Drop)]
struct Stopwatch<'r, R> {
    rt: &'r R,
    start: Instant,
}

impl<R: Clock + Sync> EventClock for Stopwatch<'_, R> {
    fn stamp(&self) -> u64 {
        match self.start.elapsed(self.rt) {
            Ok(time) => u64::try_from(time.as_micros()).unwrap_or(u64::MAX),
            Err(_) => 0,
        }
    }
}

// A test that sleeps, by a handle of its own.
#[derive(Drop)]
struct Sleeping<'r, R> {
    rt: &'r R,
}

impl<R: Clock + Sync> Tests for Sleeping<'_, R> {
    fn run<C: Context>(&self, _key: u32, _test: &mut Reporter<C>) -> Result<Outcome, UnitFault> {
        thread::sleep(self.rt, Duration::from_millis(2));
        Ok(Outcome::Successful)
    }
}

// How long a run by one worker took from its first event to its last, by its stamps.
fn duration<R: Threads + Wait + Clock + Sync>(rt: &R, alloc: Global) -> Option<u64> {
    let start = Instant::now(rt).ok()?;
    let engine = engine_of(alloc, Sleeping { rt }, Stopwatch { rt, start });
    let results = results_of(rt, alloc, engine, 1)?;
    let record = results.recorded();
    let (mut first, mut last) = (u64::MAX, 0);
    for entry in record.iter() {
        first = first.min(entry.stamp);
        last = last.max(entry.stamp);
    }
    Some(last.saturating_sub(first))
}

#[test]
fn stamps_of_a_stopwatch_are_times(rt: HostRuntime) {
    // Two tests that sleep for 2 milliseconds each.
    let took = duration(&rt, rt.alloc());
    assert!(rt; took.unwrap_or(0) >= 4000);
}

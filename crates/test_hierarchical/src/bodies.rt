//! An engine whose tests have bodies: what it records, by any number of workers.
use crate::calls::{engine_of, is_recorded, results_of, run_test, skip_test, statistics_of};
use std::alloc::Global;
use std::sync::Wait;
use std::thread::Threads;
use tk_engine_execute::{Results, UnitFault};
use tk_engine_hierarchical::{Body, Context, Hierarchical, Reporter, Tests, run_tests};
use tk_events::Outcome;
use tk_record::Statistics;

// A body that publishes a file and fails.
struct Failing;

impl Body for Failing {
    fn run<C: Context>(&self, test: &mut Reporter<C>) -> Result<Outcome, UnitFault> {
        test.file("out.txt")?;
        Ok(Outcome::failed(test.alloc(), "boom")?)
    }
}

// A body with a dynamic test below it, and one that is skipped, at a stamp of the body's own.
struct Group;

impl Body for Group {
    fn run<C: Context>(&self, test: &mut Reporter<C>) -> Result<Outcome, UnitFault> {
        run_test(("d", "1"), "one", &Failing, test)?;
        test.set_stamp(500_000);
        skip_test("2", "two", test)?;
        Ok(Outcome::Successful)
    }
}

// A body that succeeds where no static descriptor runs.
struct Nameless;

impl Body for Nameless {
    fn run<C: Context>(&self, test: &mut Reporter<C>) -> Result<Outcome, UnitFault> {
        let descriptor = test.descriptor();
        let is_static = descriptor.is_ok();
        drop(descriptor);
        Ok(if is_static {
            Outcome::Failed(None)
        } else {
            Outcome::Successful
        })
    }
}

// An entry, and a dynamic container, which sets a stamp.
fn first_test<C: Context>(test: &mut Reporter<C>) -> Result<Outcome, UnitFault> {
    test.report("k", "v")?;
    test.dynamic_container(("d", "g"), "group", &Group)?;
    Ok(Outcome::Successful)
}

// A dynamic test at a stamp of the test's own.
fn second_test<C: Context>(test: &mut Reporter<C>) -> Result<Outcome, UnitFault> {
    test.set_stamp(1_000_000);
    run_test(("d", "x"), "x", &Failing, test)?;
    Ok(Outcome::Aborted(None))
}

// A dynamic test whose body is an outcome.
fn abort_below<C: Context>(test: &mut Reporter<C>) -> Result<(), UnitFault> {
    let gone = Outcome::aborted(test.alloc(), "gone")?;
    let ended = run_test(("d", "2"), "aborted", &gone, test);
    drop(gone);
    ended
}

// Two dynamic tests, the first without a static descriptor; it fails with its own name.
fn third_test<C: Context>(test: &mut Reporter<C>) -> Result<Outcome, UnitFault> {
    run_test(("d", "1"), "nameless", &Nameless, test)?;
    abort_below(test)?;
    let name = test.descriptor()?.name.try_clone()?;
    Ok(Outcome::Failed(Some(name)))
}

/// The tests of the plan.
#[derive(Drop)]
pub(crate) struct Sample;

impl Tests for Sample {
    fn run<C: Context>(&self, key: u32, test: &mut Reporter<C>) -> Result<Outcome, UnitFault> {
        match key {
            1 => first_test(test),
            2 => second_test(test),
            3 => third_test(test),
            _ => Ok(Outcome::Successful),
        }
    }
}

// Two tests, a node of both types with a test, and a container that is skipped, with a test and a
// container of a test below it. All four may run beside one another.
fn plan() -> &'static [u8] {
    br#"{"version":2,"root":{"type":"container","segment":["engine","e"],"name":"e","children":[
{"type":"test","segment":["t","1"],"name":"one","mode":"concurrent"},
{"type":"test","segment":["t","2"],"name":"two","mode":"concurrent"},
{"type":"both","segment":["c","3"],"name":"three","mode":"concurrent","children":[
 {"type":"test","segment":["t","4"],"name":"four"}]},
{"type":"container","segment":["c","5"],"name":"five","mode":"concurrent","skip":"later","children":[
 {"type":"test","segment":["t","6"],"name":"six"},
 {"type":"container","segment":["c","7"],"name":"seven","children":[
  {"type":"test","segment":["t","8"],"name":"eight"}]}]}]}}"#
}

/// The engine of the sample.
pub(crate) fn sample_engine(alloc: Global) -> Option<Hierarchical<Sample>> {
    engine_of(alloc, plan(), Sample)
}

/// The record of a run of the sample by one worker. A body's events have the stamp of its test's
/// start until a body sets another, which is that of the test's finish too.
pub(crate) fn sample_record() -> &'static [u8] {
    b"testkit-record|2
N|C|[engine:e]|e
N|T|[engine:e]/[t:1]|one
N|T|[engine:e]/[t:2]|two
N|B|[engine:e]/[c:3]|three
N|T|[engine:e]/[c:3]/[t:4]|four
N|C|[engine:e]/[c:5]|five
N|T|[engine:e]/[c:5]/[t:6]|six
N|C|[engine:e]/[c:5]/[c:7]|seven
N|T|[engine:e]/[c:5]/[c:7]/[t:8]|eight
E|0|0|0|start
E|1|1|1|start
E|1|1|1|report|k|v
E|1|65536|1|dynamic|C|[engine:e]/[t:1]/[d:g]|group
E|1|65536|1|start
E|1|65537|1|dynamic|T|[engine:e]/[t:1]/[d:g]/[d:1]|one
E|1|65537|1|start
E|1|65537|1|file|out.txt
E|1|65537|1|finish|fail|boom
E|1|65538|500000|dynamic|T|[engine:e]/[t:1]/[d:g]/[d:2]|two
E|1|65538|500000|skip|off
E|1|65536|500000|finish|ok
E|1|1|500000|finish|ok
E|1|2|3|start
E|1|65539|1000000|dynamic|T|[engine:e]/[t:2]/[d:x]|x
E|1|65539|1000000|start
E|1|65539|1000000|file|out.txt
E|1|65539|1000000|finish|fail|boom
E|1|2|1000000|finish|abort
E|1|3|5|start
E|1|65540|5|dynamic|T|[engine:e]/[c:3]/[d:1]|nameless
E|1|65540|5|start
E|1|65540|5|finish|ok
E|1|65541|5|dynamic|T|[engine:e]/[c:3]/[d:2]|aborted
E|1|65541|5|start
E|1|65541|5|finish|abort|gone
E|1|4|6|start
E|1|4|7|finish|ok
E|1|3|8|finish|fail|three
E|1|5|9|skip|later
E|0|0|10|finish|ok
"
}

// The results of a run of the sample by one worker, by the call that promises what holds of them.
fn ran<R: Threads + Wait + Sync>(rt: &R, alloc: Global) -> Option<Results> {
    run_tests(rt, alloc, &sample_engine(alloc)?, 1, 4).ok()
}

#[test]
fn each_event_of_a_run(rt: HostRuntime) {
    assert!(rt; is_recorded(rt.alloc(), ran(&rt, rt.alloc()), sample_record()));
}

#[test]
fn bodies_run_and_keep_the_lifecycle(rt: HostRuntime) {
    let alloc = rt.alloc();
    let statistics = Statistics {
        skipped: 2,
        started: 10,
        finished: 10,
        aborted: 2,
        succeeded: 5,
        failed: 3,
        reporting: 1,
        dynamic: 6,
        files: 2,
    };
    for workers in [1, 4, 15] {
        let results = results_of(&rt, alloc, sample_engine(alloc), workers);
        assert!(rt;
            statistics_of(alloc, results) == Some(statistics),
            "{workers}"
        );
    }
}

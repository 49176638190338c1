//! Faults of bodies: which one a unit ends with, also where a body drops that of a dynamic test.
use crate::calls::{ends_so, engine_of, run_test};
use std::alloc::Global;
use std::sync::{Mutex, Wait};
use std::thread::Threads;
use tk_engine_execute::UnitFault;
use tk_engine_hierarchical::{Body, Context, Reporter, Tests};
use tk_events::Outcome;

// The body of a dynamic test.
#[derive(Clone, Copy)]
enum Below {
    Succeeds,
    /// Fails with 9.
    Fails,
    /// Fails with a text.
    FailsInWords,
    /// Publishes a file without a path.
    NamesNoFile,
}

impl Body for Below {
    fn run<C: Context>(&self, test: &mut Reporter<C>) -> Result<Outcome, UnitFault> {
        match self {
            Below::Succeeds => {}
            Below::Fails => return Err(UnitFault::Own(9)),
            Below::FailsInWords => return Err(UnitFault::Text("the tape is missing")),
            Below::NamesNoFile => test.file("")?,
        }
        Ok(Outcome::Successful)
    }
}

// Runs a dynamic test, whose id ends with this tag and "1".
fn run_below<C: Context>(tag: &str, below: Below, test: &mut Reporter<C>) -> Result<(), UnitFault> {
    run_test((tag, "1"), "d", &below, test)
}

// A body that runs a dynamic test, and drops its fault.
#[derive(Drop)]
struct Dropping(Below);

impl Body for Dropping {
    fn run<C: Context>(&self, test: &mut Reporter<C>) -> Result<Outcome, UnitFault> {
        drop(run_below("d", self.0, test));
        Ok(Outcome::Successful)
    }
}

// What the test of the plan does.
#[derive(Clone, Copy)]
enum Doing {
    /// Does what a dynamic test might do.
    Answers(Below),
    /// Runs a dynamic test, and hands its fault on.
    HandsOn(Below),
    /// Drops the fault.
    Drops(Below),
    /// A dynamic container drops the fault of its test, and the test that of the container.
    DropsBelow(Below),
    /// Drops the fault, and answers another one.
    DropsAndFails(Below),
    /// Registers the id of the static test below it.
    RegistersStatic,
    /// Registers an id twice.
    RegistersTwice,
    /// Drops the fault of a dynamic test whose id is taken.
    DropsTwice,
}

fn act<C: Context>(doing: Doing, test: &mut Reporter<C>) -> Result<(), UnitFault> {
    match doing {
        Doing::Answers(below) => drop(below.run(test)?),
        Doing::HandsOn(below) => return run_below("d", below, test),
        Doing::Drops(below) => drop(run_below("d", below, test)),
        Doing::DropsBelow(below) => {
            drop(test.dynamic_container(("d", "c"), "c", &Dropping(below)));
        }
        Doing::DropsAndFails(below) => {
            drop(run_below("d", below, test));
            return Err(UnitFault::Own(7));
        }
        Doing::RegistersStatic => return run_below("t", Below::Succeeds, test),
        Doing::RegistersTwice => {
            drop(run_below("d", Below::Succeeds, test));
            return run_below("d", Below::Succeeds, test);
        }
        Doing::DropsTwice => {
            drop(run_below("d", Below::Succeeds, test));
            drop(run_below("d", Below::Succeeds, test));
        }
    }
    Ok(())
}

// The tests of the plan, of which the first counts how often it runs, and does that.
#[derive(Drop)]
struct Ending<'r> {
    runs: &'r Mutex<u64>,
    doing: Doing,
}

impl Tests for Ending<'_> {
    fn run<C: Context>(&self, key: u32, test: &mut Reporter<C>) -> Result<Outcome, UnitFault> {
        if key == 0 {
            let mut runs = self.runs.lock(test.rt());
            *runs = runs.saturating_add(1);
            drop(runs);
            act(self.doing, test)?;
        }
        Ok(Outcome::Successful)
    }
}

// A test with a test below it.
fn plan() -> &'static [u8] {
    br#"{"version":2,"root":{"type":"both","segment":["e","e"],"name":"e","children":[
{"type":"test","segment":["t","1"],"name":"one"}]}}"#
}

// Whether a run by one worker ends so, and its body ran once: the clauses speak of the record
// alone, where a body that ran once more would not show.
fn ends<R: Threads + Wait + Sync>(rt: &R, alloc: Global, doing: Doing, ending: &str) -> bool {
    let runs = Mutex::new(0);
    let tests = Ending { runs: &runs, doing };
    ends_so(rt, alloc, engine_of(alloc, plan(), tests), ending) && *runs.lock(rt) == 1
}

// How the run ends with each of these. A refused registration that is dropped changes nothing: the
// dynamic test had not begun.
fn rows() -> [(Doing, &'static str); 13] {
    let own = "unit 0 failed: engine fault 9";
    let in_words = "unit 0 failed: the tape is missing";
    let unlawful = "unit 0 failed: event is unlawful";
    let twice = "unit 0 failed: it registers a dynamic id twice";
    [
        (Doing::Answers(Below::FailsInWords), in_words),
        (Doing::Answers(Below::NamesNoFile), unlawful),
        (Doing::HandsOn(Below::Fails), own),
        (Doing::Drops(Below::Fails), own),
        (Doing::DropsBelow(Below::Fails), own),
        (Doing::Drops(Below::FailsInWords), in_words),
        (Doing::DropsBelow(Below::FailsInWords), in_words),
        (Doing::Drops(Below::NamesNoFile), unlawful),
        (Doing::DropsBelow(Below::NamesNoFile), unlawful),
        (
            Doing::DropsAndFails(Below::Fails),
            "unit 0 failed: engine fault 7",
        ),
        (Doing::RegistersStatic, twice),
        (Doing::RegistersTwice, twice),
        (Doing::DropsTwice, "done"),
    ]
}

#[test]
fn faults_of_bodies(rt: HostRuntime) {
    for (doing, ending) in rows() {
        assert!(rt; ends(&rt, rt.alloc(), doing, ending), "{ending}");
    }
}

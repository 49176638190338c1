//! Runs of bodies, with ample memory and with any one request for memory refused. What is refused
//! is asked once more, and then it has to succeed.
use crate::bodies::{sample_engine, sample_record};
use crate::calls::{engine_of, skip_test};
use std::alloc::Global;
use std::sync::Wait;
use std::thread::Threads;
use test_support::{Ending, is_done, is_written_as, refused_if};
use tk_engine_execute::{Engine, RunFault, SinkFault, UnitFault, execute};
use tk_engine_hierarchical::{Context, Reporter, Tests};
use tk_events::Outcome;
use tk_queue_session::RegisterFault;

fn is_unit_refused(fault: &UnitFault) -> bool {
    match fault {
        UnitFault::Memory => true,
        UnitFault::Sink(SinkFault::Register(why)) => matches!(why, RegisterFault::Memory),
        _ => false,
    }
}

fn of_fault(fault: &RunFault) -> Ending {
    match fault {
        RunFault::Memory | RunFault::Threads => Ending::Refused,
        RunFault::Engine(_, why) => refused_if(is_unit_refused(why)),
        _ => Ending::Wrong,
    }
}

// How a run by one worker ends, which has to have this record.
fn run<R: Threads + Wait + Sync, E: Engine + Drop>(
    rt: &R,
    alloc: Global,
    engine: Option<E>,
    record: &[u8],
) -> Ending {
    let Some(engine) = engine else {
        return Ending::Refused;
    };
    let ran = execute(rt, alloc, &engine, 1, 4);
    let ending = match &ran {
        Ok(results) if is_written_as(alloc, results.recorded(), record) => Ending::Done,
        // Memory for the record's text was refused.
        Ok(_) => Ending::Refused,
        Err(fault) => of_fault(fault),
    };
    drop(ran);
    ending
}

#[test]
fn a_run_of_bodies(rt: HostRuntime) {
    let alloc = rt.alloc();
    assert!(rt; is_done(|| run(&rt, alloc, sample_engine(alloc), sample_record())));
}

// A test that asks once more for what was refused: a descriptor that isn't there has no id.
#[derive(Drop)]
struct Insisting;

impl Tests for Insisting {
    fn run<C: Context>(&self, _key: u32, test: &mut Reporter<C>) -> Result<Outcome, UnitFault> {
        let skipped = skip_test("1", "d", test);
        let is_refused = skipped.is_err();
        drop(skipped);
        if is_refused {
            skip_test("1", "d", test)?;
        }
        Ok(Outcome::Successful)
    }
}

fn insisting_plan() -> &'static [u8] {
    br#"{"version":2,"root":{"type":"test","segment":["t","t"],"name":"t"}}"#
}

fn insisting_record() -> &'static [u8] {
    b"testkit-record|2
N|T|[t:t]|t
E|1|0|0|start
E|1|65536|0|dynamic|T|[t:t]/[d:1]|d
E|1|65536|0|skip|off
E|1|0|1|finish|ok
"
}

#[test]
fn what_was_refused_is_asked_for_again(rt: HostRuntime) {
    let alloc = rt.alloc();
    assert!(rt;
        is_done(|| {
            let engine = engine_of(alloc, insisting_plan(), Insisting);
            run(&rt, alloc, engine, insisting_record())
        })
    );
}

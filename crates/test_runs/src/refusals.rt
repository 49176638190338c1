//! Reading and running the demo plan, with ample memory and with any one request for memory refused.
//! What is refused is asked once more, and then it has to succeed.
use std::alloc::Global;
use std::sync::Wait;
use std::thread::Threads;
use test_support::{
    Ending, again_if_refused, demo_plan, demo_report, done_if, is_done, refused_if,
};
use tk_engine_execute::{RunFault, SinkFault, UnitFault};
use tk_plan_reading::read_plan;
use tk_plan_runs::{ReportFault, plan_report};
use tk_queue_session::RegisterFault;
use tk_streams::{ByteTarget, Target};

// How many events the demo plan gives.
fn events(alloc: Global) -> Option<u32> {
    Some(read_plan(alloc, demo_plan()).ok()?.total_events())
}

#[test]
fn a_plan(rt: HostRuntime) {
    assert!(rt; again_if_refused(|| events(rt.alloc())) == Some(16));
}

fn is_emission_refused(fault: &SinkFault) -> bool {
    match fault {
        SinkFault::Register(why) => matches!(why, RegisterFault::Memory),
        _ => false,
    }
}

fn is_unit_refused(fault: &UnitFault) -> bool {
    match fault {
        UnitFault::Memory => true,
        UnitFault::Sink(why) => is_emission_refused(why),
        _ => false,
    }
}

// Whether a thread was refused, or a unit stopped for want of memory.
fn is_run_refused(fault: &RunFault) -> bool {
    match fault {
        RunFault::Threads => true,
        RunFault::Engine(_, why) => is_unit_refused(why),
        _ => false,
    }
}

// A refused growth of the target breaks it, and what it took is a prefix of the report.
fn of_reporting(answer: &Result<(), ReportFault>, taken: &[u8], is_broken: bool) -> Ending {
    let is_prefix = demo_report().starts_with(taken);
    match answer {
        Ok(()) => done_if(taken == demo_report()),
        Err(ReportFault::Plan(_)) => Ending::Wrong,
        Err(ReportFault::Run(fault)) => refused_if(taken.is_empty() && is_run_refused(fault)),
        Err(ReportFault::Memory) => refused_if(is_prefix && !is_broken),
        Err(ReportFault::Device) => refused_if(is_prefix && is_broken),
    }
}

fn report<R: Threads + Wait + Sync>(rt: &R, alloc: Global) -> Ending {
    let mut target = ByteTarget::new(alloc);
    let answer = plan_report(rt, alloc, demo_plan(), 2, &mut target);
    let ending = of_reporting(&answer, target.bytes(), target.is_broken());
    drop(answer);
    ending
}

#[test]
fn a_report(rt: HostRuntime) {
    assert!(rt; is_done(|| report(&rt, rt.alloc())));
}

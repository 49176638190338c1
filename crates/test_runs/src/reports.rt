//! What a run of the demo plan records, and where its report breaks.
use std::alloc::{AllocError, Global};
use std::sync::Wait;
use std::thread::Threads;
use test_support::{OneByteTarget, demo_plan, demo_report};
use tk_engine_execute::Results;
use tk_plan_runs::{ReportFault, plan_report, run_plan, write_report};
use tk_query_lifecycle::Lifecycle;

// How many events the workers emitted, without those before and after the units.
fn emitted(results: &Results) -> u64 {
    let mut all = 0u64;
    for worker in 1..=15u8 {
        all = all.saturating_add(results.closed().emitted(worker));
    }
    all
}

// How many events there are, of all descriptors, of tests and of containers.
fn counts(alloc: Global, results: &Results) -> Result<(usize, usize, usize), AllocError> {
    let all = results.all_events(alloc)?.count();
    let tests = results.test_events(alloc)?.count();
    Ok((all, tests, results.container_events(alloc)?.count()))
}

// Whether the device broke, and `breaks_at` bytes of the demo plan's report went out before.
fn is_cut(answer: &Result<(), ReportFault>, target: &OneByteTarget, breaks_at: usize) -> bool {
    let taken = target.taken();
    let is_prefix = taken.len() == breaks_at && demo_report().starts_with(taken);
    matches!(answer, Err(ReportFault::Device)) && is_prefix
}

fn writing_breaks(alloc: Global, results: &Results, breaks_at: usize) -> bool {
    let mut target = OneByteTarget::new(alloc, breaks_at);
    let answer = write_report(alloc, results, &mut target);
    let breaks = is_cut(&answer, &target, breaks_at);
    drop(answer);
    breaks
}

// Whether the report was cut where the device breaks before its end, and else went out whole.
fn is_answered(answer: &Result<(), ReportFault>, target: &OneByteTarget, breaks_at: usize) -> bool {
    if breaks_at < demo_report().len() {
        is_cut(answer, target, breaks_at)
    } else {
        answer.is_ok() && target.taken() == demo_report()
    }
}

fn reporting_is_answered<R: Threads + Wait + Sync>(
    rt: &R,
    alloc: Global,
    breaks_at: usize,
) -> bool {
    let mut target = OneByteTarget::new(alloc, breaks_at);
    let answer = plan_report(rt, alloc, demo_plan(), 4, &mut target);
    let is_answered = is_answered(&answer, &target, breaks_at);
    drop(answer);
    is_answered
}

// Whether a run of the demo plan recorded all events, each of them once, and kept the lifecycle.
fn is_whole(alloc: Global, results: &Results) -> bool {
    results.recorded().len() == 16
        && emitted(results) == 14
        && matches!(counts(alloc, results), Ok((16, 7, 9)))
        && matches!(results.lifecycle(alloc), Ok(Lifecycle::Kept))
}

// Whether writing the report breaks at each byte, and nowhere else.
fn writing_breaks_at_each_byte(alloc: Global, results: &Results) -> bool {
    for call in 0..demo_report().len() {
        if !writing_breaks(alloc, results, call) {
            return false;
        }
    }
    !writing_breaks(alloc, results, demo_report().len())
}

// Whether that holds of what three workers record of the demo plan.
fn run_holds<R: Threads + Wait + Sync>(rt: &R, alloc: Global) -> bool {
    let ran = run_plan(rt, alloc, demo_plan(), 3);
    let holds = match &ran {
        Ok(run) => is_whole(alloc, &run.results)
            && writing_breaks_at_each_byte(alloc, &run.results),
        Err(_) => false,
    };
    drop(ran);
    holds
}

#[test]
fn a_run_and_its_report(rt: HostRuntime) {
    assert!(rt; run_holds(&rt, rt.alloc()));
}

/// The last device of these breaks after the report, and so gets all of it.
#[test]
fn a_report_to_a_device_that_breaks(rt: HostRuntime) {
    for call in 0..=demo_report().len() {
        assert!(rt; reporting_is_answered(&rt, rt.alloc(), call), "{call}");
    }
}

//! Calls that many tests make. They have no clauses, so a test that makes them carries no contract.
use std::alloc::{AllocError, Global};
use std::sync::Wait;
use std::thread::Threads;
use test_support::is_written_as;
use tk_engine_execute::{Engine, Results, UnitFault, execute};
use tk_engine_hierarchical::{Body, Context, Hierarchical, Reporter, Tests};
use tk_plan_reading::read_plan;
use tk_query_lifecycle::Lifecycle;
use tk_record::Statistics;

/// The engine of the plan of this text, and of these tests; none for want of memory.
pub(crate) fn engine_of<T: Tests + Drop>(
    alloc: Global,
    plan: &[u8],
    tests: T,
) -> Option<Hierarchical<T>> {
    let plan = read_plan(alloc, plan).ok()?;
    Hierarchical::new(alloc, plan, tests).ok()
}

/// The results of a run by some workers; none where it failed.
pub(crate) fn results_of<R: Threads + Wait + Sync, E: Engine + Drop>(
    rt: &R,
    alloc: Global,
    engine: Option<E>,
    workers: usize,
) -> Option<Results> {
    execute(rt, alloc, &engine?, workers, 4).ok()
}

/// Whether a run has this record.
pub(crate) fn is_recorded(alloc: Global, results: Option<Results>, record: &[u8]) -> bool {
    match &results {
        Some(results) => is_written_as(alloc, results.recorded(), record),
        None => false,
    }
}

/// The statistics of a run, where it keeps the lifecycle.
pub(crate) fn statistics_of(alloc: Global, results: Option<Results>) -> Option<Statistics> {
    let results = results?;
    if results.lifecycle(alloc) != Ok(Lifecycle::Kept) {
        return None;
    }
    Some(results.all_events(alloc).ok()?.statistics())
}

// What is printed of the fault with which a run by one worker ends, or "done".
fn printed_ending<R: Threads + Wait + Sync, E: Engine>(
    rt: &R,
    alloc: Global,
    engine: &E,
) -> Option<String> {
    let ran = execute(rt, alloc, engine, 1, 64);
    let text = match &ran {
        Ok(_) => format!(in alloc; "done"),
        Err(fault) => format!(in alloc; "{fault}"),
    };
    drop(ran);
    text.ok()
}

/// Whether a run by one worker ends with the fault that is printed so, or is "done".
pub(crate) fn ends_so<R: Threads + Wait + Sync, E: Engine + Drop>(
    rt: &R,
    alloc: Global,
    engine: Option<E>,
    ending: &str,
) -> bool {
    let Some(engine) = engine else {
        return false;
    };
    matches!(printed_ending(rt, alloc, &engine), Some(text) if text.as_str() == ending)
}

/// The text of a plan with a test at the bottom of a chain of containers, `levels` levels in all.
/// Each node has these members beside its own.
pub(crate) fn chain(alloc: Global, levels: u32, members: &str) -> Result<String, AllocError> {
    let mut plan = String::from_str(alloc, r#"{"version":2,"root":{"#)?;
    for _ in 1..levels {
        plan.push_str(r#""type":"container","segment":["c","c"],"name":"c""#)?;
        plan.push_str(members)?;
        plan.push_str(r#","children":[{"#)?;
    }
    plan.push_str(r#""type":"test","segment":["t","t"],"name":"t""#)?;
    plan.push_str(members)?;
    for _ in 1..levels {
        plan.push_str("}]")?;
    }
    plan.push_str("}}")?;
    Ok(plan)
}

/// Runs a dynamic test.
pub(crate) fn run_test<B: Body, C: Context>(
    segment: (&str, &str),
    name: &str,
    body: &B,
    test: &mut Reporter<C>,
) -> Result<(), UnitFault> {
    test.dynamic_test(segment, name, body)
}

/// Skips a dynamic test, whose id ends with the tag `d` and this value.
pub(crate) fn skip_test<C: Context>(
    value: &str,
    name: &str,
    test: &mut Reporter<C>,
) -> Result<(), UnitFault> {
    test.skip_test(("d", value), name, "off")
}

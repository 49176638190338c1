//! Running a plan from its bytes.
ghost use Rattle.tk_plan_runs.specs.Answers.{IsPlanRun};

use crate::faults::ReportFault;
use std::alloc::Global;
use std::sync::Wait;
use std::thread::Threads;
use tk_engine_execute::{Results, execute};
use tk_engine_scripted::Scripted;
use tk_plan_reading::read_plan;
use tk_run_laws::laws::{lifecycle, report_is_unique};

/// How many items the queue of a run holds where the caller gives no number, as in [`run_plan`].
pub const DEFAULT_CAPACITY: usize = 64;

/// A plan that was run: the engine that has the plan, and the run's results.
#[derive(Drop)]
pub struct PlanRun {
    /// The engine, which has the plan.
    pub engine: Scripted,
    /// What the run left: its record, and how many events each worker emitted.
    pub results: Results,
}

/// Reads a plan and runs it by 1 to `MAX_WORKERS` workers, each in a thread of its own.
///
/// `bytes` are a plan's JSON text, of version 1 or 2. The report of the results is the plan's,
/// and `Results::lifecycle` answers `Kept`, however many workers there are.
///
/// # Errors
/// `Plan` or `Run`. `Memory` where memory was refused, also in reading the plan and in running it,
/// but in a unit it is `Run(Engine(unit, fault))`, with the unit that `execute` answered.
pub fn run_plan<R: Threads + Wait + Sync>(
    rt: &R,
    alloc: Global,
    bytes: &[u8],
    workers: usize,
) -> Result<PlanRun, ReportFault>
    ensures { IsPlanRun bytes.now workers result }
{
    let plan = read_plan(alloc, bytes)?;
    let engine = Scripted::new(plan);
    let results = execute(rt, alloc, &engine, workers, DEFAULT_CAPACITY)?;
    report_is_unique();
    lifecycle();
    // For the proof: the plan's invariant, which a call on the plan shows.
    let _table = engine.plan().table();
    Ok(PlanRun { engine, results })
}

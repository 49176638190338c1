//! The run of an engine of tests, and what holds of its record.
ghost use Rattle.std.specs.Prelude.{◌≡◌, ◌↔◌, ℕ, ◌<◌, ◌≤◌, ◌⊎◌, Err, IfOk, is_some};
ghost use Rattle.tk_queue_session.specs.Limits.{capacity_of};
ghost use Rattle.tk_query_lifecycle.specs.KeepsLifecycle.{KeepsLifecycle};
ghost use Rattle.tk_engine_execute.specs.Results.{IsTallied};
ghost use Rattle.tk_engine_execute.specs.declared.engines.UnitFault.{UnitFault};
ghost use Rattle.tk_run_laws.specs.Laws.{IsKept};
ghost use Rattle.tk_engine_hierarchical.specs.Laws.{FollowsPlan, HasOutcomes, HaveTurns, IsRunOf};
ghost use Rattle.tk_engine_hierarchical.specs.Laws.{UnitsNest, UnitsRanTrees};
ghost use Rattle.tk_engine_hierarchical.specs.Runs.{IsRunBy};
ghost use Rattle.tk_engine_hierarchical.specs.TreeRuns.{test_rules};
ghost use Rattle.tk_engine_unit_events.specs.Shapes.{count_units};

use crate::clocks::EventClock;
use crate::engines::Hierarchical;
use crate::laws::{due_keys_run, lifecycle, nesting, outcomes, steps, trees, turns};
use crate::tests::Tests;
use std::alloc::Global;
use std::sync::Wait;
use std::thread::Threads;
use tk_base::MAX_WORKERS;
use tk_engine_execute::{Results, RunFault, execute};
use tk_queue_session::MAX_CAPACITY;

// Shows what holds of the record of each run of the engine.
fn shows_laws<T: Tests + Sync, C: EventClock + Sync>(engine: &Hierarchical<T, C>, results: &Results)
    requires { IsRunOf engine.now.shape
        (test_rules (is_some engine.now.clock) (T.may_end engine.now.tests)
        (T.may_run engine.now.tests))
        results.now.recorded }
    ensures lifecycle { KeepsLifecycle results.now.recorded }
    ensures kept { IsKept results.now.recorded }
    ensures turns { HaveTurns results.now.recorded }
    ensures outcomes { HasOutcomes (T.may_end engine.now.tests) results.now.recorded }
    ensures steps { FollowsPlan engine.now.shape.plan (T.may_end engine.now.tests)
        results.now.recorded }
    ensures nesting { UnitsNest results.now.recorded }
    ensures trees { UnitsRanTrees engine.now.shape.plan
        (test_rules (is_some engine.now.clock) (T.may_end engine.now.tests)
        (T.may_run engine.now.tests)) results.now.recorded }
{
    lifecycle(engine, results);
    due_keys_run(engine, results);
    turns(engine, results);
    outcomes(engine, results);
    steps(engine, results);
    nesting(engine, results);
    trees(engine, results);
}

/// Runs an engine of tests as [`execute`] does, by 1 to `MAX_WORKERS` workers, through a queue of 1
/// to `MAX_CAPACITY` items, and records what they emit.
///
/// Whatever the tests do, and in whatever order the workers come, it is proved of each record that
/// this answers:
///
/// - `run`: it is that of a run of the engine by this many workers.
/// - `lifecycle`, `kept`: it keeps the lifecycle, and `Results::lifecycle` answers `Kept`.
/// - `turns`: each static descriptor starts once and then finishes once, or is skipped once, or
///   stands below one that was skipped.
/// - `outcomes`: a static test that a unit finishes has an outcome that `may_end` allows.
/// - `steps`: what is started, what is skipped, and how containers finish, is what the plan says.
/// - `nesting`: what a worker emits between the start and the finish of a test belongs to the test,
///   or to what its body runs.
/// - `trees`: each unit ran its tree, and of each static test the body once, as `may_run` says.
///
/// # Errors
/// Those of [`execute`]. To keep the record of a run that failed, call `execute_with_record`.
pub fn run_tests<R: Threads + Wait + Sync, T: Tests + Sync, C: EventClock + Sync>(
    rt: &R,
    alloc: Global,
    engine: &Hierarchical<T, C>,
    workers: usize,
    capacity: usize,
) -> Result<Results, RunFault>
    ensures run { IfOk result (λ r. IsRunBy engine.now.shape
        (test_rules (is_some engine.now.clock) (T.may_end engine.now.tests)
        (T.may_run engine.now.tests))
        workers r.recorded) }
    ensures lifecycle { IfOk result (λ r. KeepsLifecycle r.recorded) }
    ensures kept { IfOk result (λ r. IsKept r.recorded) }
    ensures turns { IfOk result (λ r. HaveTurns r.recorded) }
    ensures outcomes { IfOk result (λ r. HasOutcomes (T.may_end engine.now.tests) r.recorded) }
    ensures steps { IfOk result (λ r.
        FollowsPlan engine.now.shape.plan (T.may_end engine.now.tests) r.recorded) }
    ensures nesting { IfOk result (λ r. UnitsNest r.recorded) }
    ensures trees { IfOk result (λ r.
        UnitsRanTrees engine.now.shape.plan
        (test_rules (is_some engine.now.clock) (T.may_end engine.now.tests)
        (T.may_run engine.now.tests)) r.recorded) }
    ensures tally { IfOk result (λ r. IsTallied workers r.closed r.recorded.entries) }
    ensures of_capacity { IfOk result (λ r. capacity_of r.closed.session ≡ capacity) }
    ensures workers { (result ≡ Err RunFault.Workers) ↔ ((workers ≡ 0) ⊎ (MAX_WORKERS < workers)) }
    ensures capacity { (result ≡ Err RunFault.Capacity)
        ↔ (((0 < workers) × (workers ≤ MAX_WORKERS))
        × ((capacity ≡ 0) ⊎ (MAX_CAPACITY < capacity))) }
    ensures unit { (unit : ℕ) (why : UnitFault) → result ≡ Err (RunFault.Engine unit why)
        → unit < count_units engine.now.shape }
{
    let results = execute(rt, alloc, engine, workers, capacity)?;
    shows_laws(engine, &results);
    Ok(results)
}

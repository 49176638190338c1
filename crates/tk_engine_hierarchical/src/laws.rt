//! The laws of engines whose tests have bodies.
ghost use Rattle.std.specs.Prelude.{is_some};
ghost use Rattle.tk_query_lifecycle.specs.KeepsLifecycle.{KeepsLifecycle};
ghost use Rattle.tk_query_lifecycle.specs.NeverRan.{EachDueKeyRuns};
ghost use Rattle.tk_run_laws.specs.Laws.{IsKept};
ghost use Rattle.tk_engine_hierarchical.specs.Laws.{FollowsPlan, HasOutcomes, HaveTurns, IsRunOf, UnitsNest, UnitsRanTrees};
ghost use Rattle.tk_engine_hierarchical.specs.TreeRuns.{test_rules};

use crate::clocks::EventClock;
use crate::engines::Hierarchical;
use crate::tests::Tests;
use tk_engine_execute::Results;
use tk_engine_lifecycle::laws::runs_keep_lifecycle;
use tk_query_lifecycle::laws::{kept_by_its_events, lifecycle_is_unique};

/// The record of each run of the engine keeps the lifecycle, whatever its tests do.
pub fn lifecycle<T: Tests + Sync, C: EventClock + Sync>(
    engine: &Hierarchical<T, C>,
    results: &Results,
)
    requires { IsRunOf engine.now.shape
        (test_rules (is_some engine.now.clock) (T.may_end engine.now.tests)
        (T.may_run engine.now.tests))
        results.now.recorded }
    ensures { KeepsLifecycle results.now.recorded }
{
    engine.shows_shape();
    runs_keep_lifecycle(engine, results);
}

/// Each static test that a unit finishes has an outcome that `may_end` allows. [`trees`] says that
/// it is the one that the test's `run` answered.
pub fn outcomes<T: Tests + Sync, C: EventClock + Sync>(
    engine: &Hierarchical<T, C>,
    results: &Results,
)
    requires { IsRunOf engine.now.shape
        (test_rules (is_some engine.now.clock) (T.may_end engine.now.tests)
        (T.may_run engine.now.tests))
        results.now.recorded }
    ensures { HasOutcomes (T.may_end engine.now.tests) results.now.recorded }
{
    steps(engine, results);
}

/// Each start, skip and finish of a static descriptor by a unit is what the plan says: it starts
/// where it isn't skipped, or is skipped for the plan's reason; a test finishes with an outcome
/// that `may_end` allows, any other descriptor with that of the plan.
pub fn steps<T: Tests + Sync, C: EventClock + Sync>(engine: &Hierarchical<T, C>, results: &Results)
    requires { IsRunOf engine.now.shape
        (test_rules (is_some engine.now.clock) (T.may_end engine.now.tests)
        (T.may_run engine.now.tests))
        results.now.recorded }
    ensures { FollowsPlan engine.now.shape.plan (T.may_end engine.now.tests) results.now.recorded }
{
    engine.shows_shape();
    let _ = results;
}

/// Each static descriptor starts once and then finishes once, or is skipped once, or stands below
/// one that was skipped.
pub fn turns<T: Tests + Sync, C: EventClock + Sync>(engine: &Hierarchical<T, C>, results: &Results)
    requires { IsRunOf engine.now.shape
        (test_rules (is_some engine.now.clock) (T.may_end engine.now.tests)
        (T.may_run engine.now.tests))
        results.now.recorded }
    ensures { HaveTurns results.now.recorded }
{
    engine.shows_shape();
    lifecycle(engine, results);
}

/// Each static root, and each static child of a descriptor that succeeds, starts or is skipped, and
/// `Kept` is the one answer of `Results::lifecycle` on the record of each run, whatever the engine's
/// tests do.
pub fn due_keys_run<T: Tests + Sync, C: EventClock + Sync>(
    engine: &Hierarchical<T, C>,
    results: &Results,
)
    requires { IsRunOf engine.now.shape
        (test_rules (is_some engine.now.clock) (T.may_end engine.now.tests)
        (T.may_run engine.now.tests))
        results.now.recorded }
    ensures due { EachDueKeyRuns results.now.recorded }
    ensures kept { IsKept results.now.recorded }
{
    engine.shows_shape();
    lifecycle(engine, results);
    turns(engine, results);
    // For the proof: what holds of each record and of each table.
    results.recorded().shows_record();
    results.recorded().table().shows_different_ids();
    kept_by_its_events();
    lifecycle_is_unique();
}

/// What a worker emits after the start of a key, and before the key finishes, is of that key or of
/// one below it: the events of a test, and of what its body runs, stand together.
pub fn nesting<T: Tests + Sync, C: EventClock + Sync>(
    engine: &Hierarchical<T, C>,
    results: &Results,
)
    requires { IsRunOf engine.now.shape
        (test_rules (is_some engine.now.clock) (T.may_end engine.now.tests)
        (T.may_run engine.now.tests))
        results.now.recorded }
    ensures { UnitsNest results.now.recorded }
{
    engine.shows_shape();
    // For the proof: what holds of each record.
    results.recorded().shows_record();
}

/// Each unit ran its tree, and a worker emitted what it did in a row: each node that isn't skipped
/// starts, runs its body once where it is a static test, as `may_run` says, publishes the plan's
/// entries and files, runs what stands below it, and finishes. Where the engine isn't timed, the
/// stamps are the plan's.
pub fn trees<T: Tests + Sync, C: EventClock + Sync>(engine: &Hierarchical<T, C>, results: &Results)
    requires { IsRunOf engine.now.shape
        (test_rules (is_some engine.now.clock) (T.may_end engine.now.tests)
        (T.may_run engine.now.tests))
        results.now.recorded }
    ensures { UnitsRanTrees engine.now.shape.plan
        (test_rules (is_some engine.now.clock) (T.may_end engine.now.tests)
        (T.may_run engine.now.tests)) results.now.recorded }
{
    let _ = engine;
    let _ = results;
}

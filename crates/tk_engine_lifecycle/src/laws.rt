//! Laws of engines whose units keep the lifecycle.
ghost use Rattle.std.specs.Prelude.{ℕ, List};
ghost use Rattle.tk_ids.specs.IdText.{SegmentView};
ghost use Rattle.tk_query_lifecycle.specs.KeepsLifecycle.{KeepsLifecycle};
ghost use Rattle.tk_claims.specs.Run.{IsRun};
ghost use Rattle.tk_engine_lifecycle.specs.Laws.{Begins, Closes, Finishes, Registers, Reports, Skips, Starts};
ghost use Rattle.tk_engine_lifecycle.specs.Units.{UnitsKeepLifecycle};

use tk_engine_execute::{Engine, Results};

/// Where each unit of an engine keeps the lifecycle in a run of its own, no id belongs to two units,
/// and what stands around the units keeps it by itself, each run of the engine keeps it, whoever ran
/// its units and in whatever order.
///
/// `owner` says to which unit an id belongs. Each record that
/// [`execute`](tk_engine_execute::execute) answers is such a run. The law says nothing of static
/// keys that neither start nor are skipped: `Kept` is the answer where each that is due does.
pub fn runs_keep_lifecycle<E: Engine>(engine: &E, results: &Results)
    requires { (workers : ℕ)
        × IsRun (E.may engine.now) (E.table engine.now) (E.before engine.now)
        (E.after engine.now) (E.units engine.now) workers results.now.recorded }
    ensures { (owner : List SegmentView → ℕ)
        → UnitsKeepLifecycle
        (record {
          table = E.table engine.now;
          before = E.before engine.now;
          after = E.after engine.now;
          units = E.units engine.now;
          owner = owner;
        })
        (E.may engine.now)
        → KeepsLifecycle results.now.recorded }
{
    let _ = engine;
    // For the proof: what holds of each record.
    results.recorded().shows_record();
}

/// What a unit may emit after what it has emitted, so that it keeps the lifecycle: the innermost key
/// that runs finishes first.
///
/// The author of an engine carries `IsUnderWay` from event to event, as the invariant of a loop; at
/// the end no key runs, and `closes` gives what [`runs_keep_lifecycle`] asks of the unit.
pub fn unit_events()
    ensures begins { Begins }
    ensures starts { Starts }
    ensures skips { Skips }
    ensures reports { Reports }
    ensures registers { Registers }
    ensures finishes { Finishes }
    ensures closes { Closes }
{}

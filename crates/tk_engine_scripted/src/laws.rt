//! What holds of each run of a plan's engine.
ghost use Rattle.std.specs.Prelude.{ℕ};
ghost use Rattle.tk_query_lifecycle.specs.KeepsLifecycle.{KeepsLifecycle};
ghost use Rattle.tk_query_lifecycle.specs.NeverRan.{EachDueKeyRuns};
ghost use Rattle.tk_report_text.specs.Labels.{labels};
ghost use Rattle.tk_run_laws.specs.Laws.{IsKept};
ghost use Rattle.tk_run_laws.specs.Listening.{Listens};
ghost use Rattle.tk_run_laws.specs.Scripts.{IsRunOf};

use crate::scripted::Scripted;
use tk_engine_execute::Results;
pub use tk_engine_execute::laws::{each_worker_has_its_list, limits};
pub use tk_run_laws::laws::{
    nodes_are_found, report_is_unique, scripts_are_playable, stamps_are_positions,
};

/// What a listener may rely on holds of each record that is a run of the engine. Each record that
/// `execute` answers for the engine is such a run.
pub fn listener(engine: &Scripted, results: &Results)
    requires { (workers : ℕ)
        × IsRunOf engine.now.nodes engine.now.table workers results.now.recorded }
    ensures { Listens (labels results.now.recorded) }
{
    let _ = results;
    // For the proof: the plan's invariant, which a call on the plan shows.
    let _table = engine.plan().table();
    tk_run_laws::laws::listener();
}

/// Each record that is a run of the engine keeps the lifecycle, its root, and each static child of
/// what succeeds, runs or is skipped in it, and `Kept` is the one answer of `Results::lifecycle` on
/// it. Each record that `execute` answers for the engine is such a run.
pub fn lifecycle(engine: &Scripted, results: &Results)
    requires { (workers : ℕ)
        × IsRunOf engine.now.nodes engine.now.table workers results.now.recorded }
    ensures keeps { KeepsLifecycle results.now.recorded }
    ensures due { EachDueKeyRuns results.now.recorded }
    ensures kept { IsKept results.now.recorded }
{
    let _ = results;
    // For the proof: the plan's invariant, which a call on the plan shows.
    let _table = engine.plan().table();
    tk_run_laws::laws::lifecycle();
}

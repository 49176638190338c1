//! Laws of runs of plans, which hold of the definitions alone.
ghost use Rattle.tk_query_lifecycle.specs.KeepsLifecycle.{KeepsLifecycle};
ghost use Rattle.tk_query_lifecycle.specs.Lifecycle.{IsLifecycle};
ghost use Rattle.tk_query_lifecycle.specs.declared.lifecycle_rules.Lifecycle.TheVariants.{Kept};
ghost use Rattle.tk_report_text.specs.Labels.{labels};
ghost use Rattle.tk_run_laws.specs.Listening.{Listens};
ghost use Rattle.tk_run_laws.specs.Spines.{NodesArePlaced, SpineEmits, SpineKeepsLifecycle, SpineRuns};
ghost use Rattle.tk_run_laws.specs.Laws.{DueKeysRun, StampsArePositions, ScriptsArePlayable, NodesAreFound, ReportIsUnique, Listener, LifecycleIsReliedOn, RunsKeepLifecycle, RunsAreKept};

use tk_query_lifecycle::laws::{kept_by_its_events, lifecycle_is_unique};
use tk_record::Record;

/// The stamp of a step is its position in the root's script.
pub fn stamps_are_positions()
    ensures { StampsArePositions }
{}

/// In a unit's script each node has a key when its turn comes, or is registered there, below a node
/// that has one.
pub fn scripts_are_playable()
    ensures { ScriptsArePlayable }
{}

/// A worker that plays a unit's script finds each node that has a key under it, with the node's id.
pub fn nodes_are_found()
    ensures { NodesAreFound }
{}

/// The record of a run has the plan's report, however many workers there were and whoever of them
/// ran which unit.
pub fn report_is_unique()
    ensures { ReportIsUnique }
{}

/// Every run of a plan registers, starts, skips and finishes each id as a listener may rely on.
pub fn listener()
    ensures { Listener }
{}

/// Every record that keeps the lifecycle registers, starts, skips and finishes each id as a listener
/// may rely on.
pub fn lifecycle_is_relied_on()
    ensures { LifecycleIsReliedOn }
{}

/// What a listener may rely on holds of a record that keeps the lifecycle, and so of each record of
/// which [`lifecycle`](tk_query_lifecycle::lifecycle) answers `Kept`.
pub fn kept_is_relied_on(record: &Record)
    ensures keeps { KeepsLifecycle «record».now → Listens (labels «record».now) }
    ensures kept { IsLifecycle «record».now Kept → Listens (labels «record».now) }
{
    // For the proof: what holds of each record and of its table.
    record.shows_record();
    record.table().shows_different_ids();
    lifecycle_is_relied_on();
    kept_by_its_events();
}

/// Every run of a plan keeps the lifecycle, its root, and each child of what succeeds, runs or is
/// skipped, and `Kept` is the one answer of `lifecycle` on it.
pub fn lifecycle()
    ensures keeps { RunsKeepLifecycle }
    ensures due { DueKeysRun }
    ensures kept { RunsAreKept }
{
    kept_by_its_events();
    lifecycle_is_unique();
}

/// Each static node of a plan stands on the spine or in one unit. Before the units and after them
/// there are lawful events of the spine, which register nothing, and keep the lifecycle by
/// themselves; between them each node on the spine runs.
pub fn spine()
    ensures places { NodesArePlaced }
    ensures emits { SpineEmits }
    ensures runs { SpineRuns }
    ensures keeps { SpineKeepsLifecycle }
{}

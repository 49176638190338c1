//! What a unit may start or skip, by ids.
ghost use Rattle.std.specs.Prelude.{◌≡◌, ◌<◌, ◌≤◌, ◌++◌, ◌∷◌, ℕ, [], IfErr, IfOk, IfSome, IsTrue, Some, false, length, slice_get};
ghost use Rattle.tk_ids.specs.IdText.{IsId, id_text};
ghost use Rattle.tk_ids.specs.Table.{HasId as TableHasId, ids_of};
ghost use Rattle.tk_engine_execute.specs.declared.engines.UnitFault.TheVariants.{Sink as Sunk};
ghost use Rattle.tk_engine_execute.specs.declared.sinks.SinkFault.{SinkFault};
ghost use Rattle.tk_engine_unit_events.specs.Covered.{IsKeyBelow};
ghost use Rattle.tk_engine_unit_events.specs.steps.{HasInnermostParent, HasParentAmong, MayStart, IsLongCause, IsNoText, IsNotedChild, IsOwnCause};
ghost use Rattle.tk_engine_unit_events.specs.RegisteredIds.{is_registered};
ghost use Rattle.tk_engine_unit_events.specs.Running.{keys_of, with_id, with_ids};
ghost use Rattle.tk_engine_unit_events.specs.Shapes.{frame};
ghost use Rattle.tk_engine_unit_events.specs.Taken.{IsFaultOfTaken};

use crate::running_keys::{RunningKey, running_id};
use crate::shapes::Shape;
use crate::stacks::Stack;
use indexmap::IndexSet;
use std::alloc::Global;
use tk_engine_execute::{OUT_OF_ORDER, TWICE, UnitFault};
use tk_ids::{IdText, Segment, Table, UniqueId};

// Whether an id is a root's, while no key runs.
fn starts_root(running: &Stack<RunningKey>, id: &UniqueId) -> bool
    ensures root { IsTrue result → length id.now ≤ 1 }
    ensures rests { IsTrue result → running.now.elements ≡ [] }
{
    running.top().is_none() && id.segment_count() <= 1
}

// Whether the parent of a static key, which has this id, is the innermost key that runs, or no key
// runs and it runs before the units. The first key has none.
fn has_running_parent(shape: &Shape, running: &Stack<RunningKey>, key: u32, id: &UniqueId) -> bool
    requires { slice_get (ids_of shape.now.plan.table) key ≡ Some id.now }
    ensures among { IsTrue result → HasParentAmong (frame shape.now)
        (keys_of (with_ids shape.now.plan.table running.now.elements)) id.now }
    ensures innermost { IsTrue result → HasInnermostParent (frame shape.now)
        (keys_of (with_ids shape.now.plan.table running.now.elements)) id.now }
{
    if key == 0 {
        return starts_root(running, id);
    }
    let Some(parent) = shape.parent_of(key) else {
        return false;
    };
    match running.top() {
        Some(innermost) => innermost.key == parent,
        None => shape.runs_before(parent),
    }
}

/// Whether a static key may start or be skipped.
pub(crate) fn may_start(shape: &Shape, unit: u32, running: &Stack<RunningKey>, key: u32) -> bool
    ensures { IsTrue result → MayStart (frame shape.now) unit
        (keys_of (with_ids shape.now.plan.table running.now.elements)) key }
{
    let Some(descriptor) = shape.table().get(key) else {
        return false;
    };
    // For the proof: no two descriptors have one id.
    shape.shows_shape();
    shape.owner(key) == unit && has_running_parent(shape, running, key, &descriptor.id)
}

/// The id of a new child of a running key.
pub(crate) fn new_child(
    alloc: Global,
    shape: &Shape,
    registered: &IndexSet<IdText>,
    parent: &RunningKey,
    segment: &Segment,
) -> Result<UniqueId, UnitFault>
    ensures id { IfOk result (λ id.
        id ≡ (with_id shape.now.plan.table parent.now).id ++ segment.now ∷ []) }
    ensures is_id { IfOk result (λ id. IsId id) }
    ensures not_static { IfOk result (λ id. ¬ TableHasId shape.now.plan.table id) }
    ensures not_registered { IfOk result (λ id.
        is_registered registered.now.keys (id_text id) ≡ false) }
    ensures taken { IfErr result (λ why. IsNotedChild shape.now.plan.table registered.now.keys
        (with_id shape.now.plan.table parent.now).id segment.now → IsFaultOfTaken why) }
    ensures own { IfErr result (IsOwnCause (IsNotedChild shape.now.plan.table registered.now.keys
        (with_id shape.now.plan.table parent.now).id segment.now)
        (with_id shape.now.plan.table parent.now).id) }
    ensures long { IfErr result (λ why. (fault : SinkFault) → why ≡ Sunk fault
        → IsLongCause (with_id shape.now.plan.table parent.now).id segment.now fault) }
    ensures no_text { IfErr result IsNoText }
{
    let Some(above) = running_id(shape, parent) else {
        return Err(UnitFault::Own(OUT_OF_ORDER));
    };
    let id = above.append(alloc, segment)?;
    // For the proof: what every id is.
    let _above_text = above.as_text();
    let _text = id.as_text();
    if shape.table().find(&id).is_some() || registered.contains(id.as_text().as_str()) {
        return Err(UnitFault::Own(TWICE));
    }
    Ok(id)
}

/// The first key after this one whose descriptor doesn't stand below the id, or the table's end.
pub(crate) fn end_below(table: &Table, id: &UniqueId, key: u32) -> u32
    requires { key < length table.now }
    ensures more { key < result }
    ensures below { (other : ℕ) → key < other → other < result
        → IsKeyBelow table.now id.now other }
    ensures end { result < length table.now → ¬ IsKeyBelow table.now id.now result }
{
    let count = table.len() as u32;
    for other in key + 1..count {
        let Some(descriptor) = table.get(other) else {
            return other;
        };
        if !descriptor.id.is_below(id) {
            return other;
        }
    }
    count
}

//! The keys of a unit that run.
ghost use Rattle.std.specs.Prelude.{◌≡◌, [], IfNone, IfSome};
ghost use Rattle.tk_engine_unit_events.specs.Running.{with_id};

use crate::shapes::Shape;
use tk_ids::UniqueId;

/// A key that runs, and the id of a dynamic descriptor; the table has a static descriptor's id.
#[derive(Drop)]
pub(crate) struct RunningKey {
    pub(crate) key: u32,
    pub(crate) dynamic_id: Option<UniqueId>,
}

/// The id of the descriptor of a running key.
pub(crate) fn running_id<'s>(shape: &'s Shape, running: &'s RunningKey) -> Option<&'s UniqueId>
    ensures some { IfSome result (λ id. id.now ≡ (with_id shape.now.plan.table running.now).id) }
    ensures none { IfNone result ((with_id shape.now.plan.table running.now).id ≡ []) }
{
    match &running.dynamic_id {
        Some(id) => Some(id),
        None => Some(&shape.table().get(running.key)?.id),
    }
}

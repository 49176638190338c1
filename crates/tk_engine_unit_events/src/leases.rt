//! A sink that is lent to a unit.
ghost use Rattle.std.specs.Prelude.{◌≡◌, ◌++◌, ◌∷◌, ◌||◌, ℕ, List, [], Ok, IfErr, IfOk, OnOk, OnErr, bytes_eq, false, true};
ghost use Rattle.tk_ids.specs.IdText.{IsId, id_text};
ghost use Rattle.tk_ids.specs.Table.{HasId as TableHasId};
ghost use Rattle.tk_queue_session.specs.Senders.{SenderView, sends};
ghost use Rattle.tk_queue_session.specs.Registering.{IsRegisteredAs};
ghost use Rattle.tk_engine_execute.specs.Engines.{Extends};
ghost use Rattle.tk_engine_unit_events.specs.RegisteredIds.{is_registered};
ghost use Rattle.tk_engine_unit_events.specs.UnitSteps.{child_request};
ghost use Rattle.tk_engine_unit_events.specs.Running.{with_id};
ghost use Rattle.tk_engine_unit_events.specs.Shapes.{frame};
ghost use Rattle.tk_engine_unit_events.specs.Standing.{StandsAt};
ghost use Rattle.tk_engine_unit_events.specs.steps.{unit_view, IsNoText, IsNotedChild, IsOwnCause, IsRegistrationCause, IsSinkCause};
ghost use Rattle.tk_engine_unit_events.specs.Taken.{IsFaultOfTaken};
ghost use Rattle.tk_engine_unit_events.specs.Refusals.{IsEmitCause};

use crate::running_keys::RunningKey;
use crate::shapes::Shape;
use crate::unit_bodies::UnitBody;
use crate::unit_events::{BodyRun, Child, UnitEvents, UnitProgress};
use crate::unit_ids::new_child;
use crate::unit_runs::UnitRun;
use indexmap::IndexSet;
use std::alloc::Global;
use std::marker::Brand;
use std::mem;
use std::sync::Wait;
use tk_engine_execute::{Sink, UnitFault};
use tk_events::Event;
use tk_ids::{IdText, UniqueId};

/// A sink that is lent to a unit: it stays the same sink as long as the unit runs.
#[derive(Drop)]
pub struct Lease<'a, S: Sink> {
    pub sink: &'a mut S,
}

impl<'a, S: Sink> Lease<'a, S> {
    /// Emits an event.
    pub(crate) fn emit<R: Wait>(&mut self, rt: &R, event: Event) -> Result<(), UnitFault>
        ensures ok { OnOk result
            (S.view self.new.sink.now ≡ sends (S.view self.old.sink.now) event) }
        ensures err { OnErr result (S.view self.new.sink.now ≡ S.view self.old.sink.now) }
        ensures cause { IfErr result (IsEmitCause (S.view self.old.sink.now) event) }
        ensures same { self.new.sink.ghost_name ≡ self.old.sink.ghost_name }
    {
        self.sink.emit(rt, event).map_err(UnitFault::Sink)
    }

    /// Registers a child of a key, and returns its key.
    pub(crate) fn register<R: Wait>(
        &mut self,
        rt: &R,
        parent: u32,
        child: &Child<'_>,
        stamp: u64,
    ) -> Result<u32, UnitFault>
        ensures ok { IfOk result (λ key.
            IsRegisteredAs (S.view self.old.sink.now) (S.view self.new.sink.now)
            (child_request child.now parent stamp) (Ok key)) }
        ensures err { OnErr result (S.view self.new.sink.now ≡ S.view self.old.sink.now) }
        ensures cause { IfErr result (IsRegistrationCause (S.view self.old.sink.now)
            (child_request child.now parent stamp)) }
        ensures same { self.new.sink.ghost_name ≡ self.old.sink.ghost_name }
    {
        self.sink
            .register(rt, parent, child.segment, child.name, child.dtype, stamp)
            .map_err(UnitFault::Sink)
    }

    /// Registers a child of a running key, and notes its id. Returns its key and its id.
    ///
    /// What is refused isn't noted, so that a body may ask for it once more.
    pub(crate) fn register_child<R: Wait>(
        &mut self,
        rt: &R,
        alloc: Global,
        shape: &Shape,
        registered: &mut IndexSet<IdText>,
        above: &RunningKey,
        child: &Child<'_>,
        stamp: u64,
    ) -> Result<(u32, UniqueId), UnitFault>
        ensures registration { IfOk result (λ new.
            IsRegisteredAs (S.view self.old.sink.now) (S.view self.new.sink.now)
            (child_request child.now above.now.key stamp) (Ok new.0)) }
        ensures id { IfOk result (λ new. new.1
            ≡ (with_id shape.now.plan.table above.now).id ++ child.now.segment ∷ []) }
        ensures is_id { IfOk result (λ new. IsId new.1) }
        ensures not_static { IfOk result (λ new. ¬ TableHasId shape.now.plan.table new.1) }
        ensures not_registered { IfOk result (λ new.
            is_registered registered.old.keys (id_text new.1) ≡ false) }
        ensures noted { IfOk result (λ new. (text : List ℕ) → is_registered registered.new.keys text
            ≡ (bytes_eq text (id_text new.1) || is_registered registered.old.keys text)) }
        ensures err { OnErr result (S.view self.new.sink.now ≡ S.view self.old.sink.now) }
        ensures refused { OnErr result (registered.new.keys ≡ registered.old.keys) }
        ensures taken { IfErr result (λ why. IsNotedChild shape.now.plan.table registered.old.keys
            (with_id shape.now.plan.table above.now).id child.now.segment → IsFaultOfTaken why) }
        ensures own { IfErr result (IsOwnCause
            (IsNotedChild shape.now.plan.table registered.old.keys
            (with_id shape.now.plan.table above.now).id child.now.segment)
            (with_id shape.now.plan.table above.now).id) }
        ensures sink { IfErr result (IsSinkCause (S.view self.old.sink.now)
            (child_request child.now above.now.key stamp)
            (with_id shape.now.plan.table above.now).id) }
        ensures no_text { IfErr result IsNoText }
        ensures same { self.new.sink.ghost_name ≡ self.old.sink.ghost_name }
    {
        let id = new_child(alloc, shape, registered, above, child.segment)?;
        let text = id.shared_text()?;
        registered.reserve(1)?;
        let key = self.register(rt, above.key, child, stamp)?;
        // There is room for it.
        let _noted = registered.insert(text);
        Ok((key, id))
    }

    /// Runs a body, which emits into this sink. Leaves in `run` where the unit stands then, and how
    /// the body ended.
    pub(crate) fn run_body<R: Wait, K: UnitRun, B: UnitBody>(
        &mut self,
        rt: &R,
        alloc: Global,
        body: &B,
        shape: &Shape,
        run: &mut BodyRun,
    )
        requires frame { frame shape.now ≡ K.unit.frame }
        requires stands { StandsAt K.unit (S.view self.old.sink.now) run.old.progress }
        ensures same { self.new.sink.ghost_name ≡ self.old.sink.ghost_name }
        ensures stands { StandsAt K.unit (S.view self.new.sink.now) run.new.progress }
        ensures since { Extends (S.view self.old.sink.now) (S.view self.new.sink.now) }
        ensures may { IfOk run.new.outcome (λ outcome. B.may_end body.now outcome) }
        ensures ran { IfOk run.new.outcome (λ outcome. B.may_run body.now
            (unit_view K.unit.frame.table (S.view self.old.sink.now) run.old.progress)
            (unit_view K.unit.frame.table (S.view self.new.sink.now) run.new.progress) outcome) }
        ensures cause { IfErr run.new.outcome (B.may_fail body.now
            (unit_view K.unit.frame.table (S.view self.old.sink.now) run.old.progress)
            (unit_view K.unit.frame.table (S.view self.new.sink.now) run.new.progress)) }
    {
        run_into::<R, S, K, B>(rt, alloc, body, shape, self.sink, run);
    }
}

// Runs a body, which emits into this sink.
fn run_into<R: Wait, S: Sink, K: UnitRun, B: UnitBody>(
    rt: &R,
    alloc: Global,
    body: &B,
    shape: &Shape,
    sink: &mut S,
    run: &mut BodyRun,
)
    requires frame { frame shape.now ≡ K.unit.frame }
    requires stands { StandsAt K.unit (S.view sink.old) run.old.progress }
    ensures stands { StandsAt K.unit (S.view sink.new) run.new.progress }
    ensures since { Extends (S.view sink.old) (S.view sink.new) }
    ensures may { IfOk run.new.outcome (λ outcome. B.may_end body.now outcome) }
    ensures ran { IfOk run.new.outcome (λ outcome. B.may_run body.now
        (unit_view K.unit.frame.table (S.view sink.old) run.old.progress)
        (unit_view K.unit.frame.table (S.view sink.new) run.new.progress) outcome) }
    ensures cause { IfErr run.new.outcome (B.may_fail body.now
        (unit_view K.unit.frame.table (S.view sink.old) run.old.progress)
        (unit_view K.unit.frame.table (S.view sink.new) run.new.progress)) }
{
    let lease = Lease { sink };
    let _lease = run_lent::<R, S, Brand, B>(rt, alloc, body, shape, lease, run);
}

// Runs a body into a sink that is lent, and gives the sink back.
fn run_lent<'a, R: Wait, S: Sink, K: UnitRun, B: UnitBody>(
    rt: &R,
    alloc: Global,
    body: &B,
    shape: &'a Shape,
    lease: Lease<'a, S>,
    run: &mut BodyRun,
) -> Lease<'a, S>
    requires name { lease.sink.ghost_name ≡ K.name }
    requires frame { frame shape.now ≡ K.unit.frame }
    requires stands { StandsAt K.unit (S.view lease.sink.now) run.old.progress }
    requires since { K.since ≡ S.view lease.sink.now }
    ensures name { result.sink.ghost_name ≡ K.name }
    ensures stands { StandsAt K.unit (S.view result.sink.now) run.new.progress }
    ensures since { Extends K.since (S.view result.sink.now) }
    ensures may { IfOk run.new.outcome (λ outcome. B.may_end body.now outcome) }
    ensures ran { IfOk run.new.outcome (λ outcome. B.may_run body.now
        (unit_view K.unit.frame.table K.since run.old.progress)
        (unit_view K.unit.frame.table (S.view result.sink.now) run.new.progress) outcome) }
    ensures cause { IfErr run.new.outcome (B.may_fail body.now
        (unit_view K.unit.frame.table K.since run.old.progress)
        (unit_view K.unit.frame.table (S.view result.sink.now) run.new.progress)) }
{
    let begun = mem::replace(&mut run.progress, UnitProgress::nothing(alloc));
    let events: UnitEvents<'a, S, K> = UnitEvents::resume(lease, shape, begun);
    let events = body.run_with(rt, alloc, events, &mut run.outcome);
    let (lease, left) = events.suspend();
    run.progress = left;
    lease
}

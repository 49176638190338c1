//! What a unit emits.
ghost use Rattle.std.specs.Prelude.{◌≡◌, ◌<◌, ◌≤◌, ◌∷◌, [], ℕ, IfErr, IfOk, IsTrue, List, None, OnErr, OnOk, Some, false, length, true};
ghost use Rattle.tk_ids.specs.declared.descriptors.Descriptor.{Descriptor as DescriptorView};
ghost use Rattle.tk_engine_execute.specs.Engines.{Extends, IsSameSender};
ghost use Rattle.tk_engine_execute.specs.declared.engines.UnitFault.TheVariants.{Own};
ghost use Rattle.tk_events.specs.declared.kinds.Kind.TheVariants.{Finished, Skipped, Started};
ghost use Rattle.tk_events.specs.declared.payloads.Payload.TheVariants.{Nothing, Outcome as Ended};
ghost use Rattle.tk_engine_unit_events.specs.Endings.{IsStaticTest};
ghost use Rattle.tk_engine_unit_events.specs.UnitSteps.{Grew, HasFinished, HasSkipped, HasStarted, IsInnermost, KeepsOuter, Published, child_request, event, publishes, after_event, after_start, begun};
ghost use Rattle.tk_engine_unit_events.specs.Shapes.{count_units, frame, keys_in};
ghost use Rattle.tk_engine_unit_events.specs.Standing.{IsComplete, StandsAt};
ghost use Rattle.tk_engine_unit_events.specs.Refusals.{HasRefused, IsChildCause, IsInnermostCause, IsPublishCause, IsStartCause, IsTurnCause, child_start};
ghost use Rattle.tk_engine_unit_events.specs.Taken.{IsTaken, RefusesTaken};
ghost use Rattle.tk_engine_unit_events.specs.steps.{unit_view};
ghost use Rattle.tk_engine_unit_events.specs.declared.running_keys.RunningKey.{RunningKey};

use crate::leases::Lease;
use crate::running_keys::RunningKey;
use crate::shapes::Shape;
use crate::stacks::Stack;
use crate::unit_bodies::UnitBody;
use crate::unit_ids::{end_below, may_start};
use crate::unit_runs::UnitRun;
use indexmap::IndexSet;
use std::alloc::Global;
use std::marker::{Model, PhantomData};
use std::mem;
use std::sync::Wait;
use tk_engine_execute::{OUT_OF_ORDER, Sink, UnitFault};
use tk_events::{Event, Kind, Outcome, Payload};
use tk_ids::{DType, Descriptor, IdText, Segment};

/// What is registered below a running key.
#[derive(Drop)]
pub struct Child<'a> {
    pub segment: &'a Segment,
    pub name: &'a str,
    pub dtype: DType,
}

impl<'a> Model for Child<'a> {
    ghost use Rattle.tk_engine_unit_events.specs.UnitSteps.{ChildView, child};

    ghost Value = { ChildView };

    ghost view = { λ c. child c.dtype c.segment.now c.name.now };
}

/// Where a unit stands: its number, the end of its static keys, which keys run, which ids it has
/// registered, the next static key, the stamp of what a body publishes, where no clock gives it, and
/// the one that the static test that runs has set.
#[derive(Drop)]
pub(crate) struct UnitProgress {
    pub(crate) unit: u32,
    pub(crate) end: u32,
    pub(crate) running: Stack<RunningKey>,
    pub(crate) registered: IndexSet<IdText>,
    pub(crate) next: u32,
    pub(crate) stamp: Option<u64>,
    pub(crate) own_stamp: Option<u64>,
}

impl UnitProgress {
    /// A unit of which no key runs.
    pub(crate) fn nothing(alloc: Global) -> UnitProgress {
        UnitProgress {
            unit: 0,
            end: 0,
            running: Stack::new(alloc),
            registered: IndexSet::new(alloc),
            next: 0,
            stamp: None,
            own_stamp: None,
        }
    }
}

/// The run of a body: where the unit stands, and how the body ended.
#[derive(Drop)]
pub(crate) struct BodyRun {
    pub(crate) progress: UnitProgress,
    pub(crate) outcome: Result<Outcome, UnitFault>,
}

// The innermost running key.
fn innermost(running: &Stack<RunningKey>) -> Result<&RunningKey, UnitFault>
    ensures top { IfOk result (λ top. (outer : List RunningKey)
        × (running.now.elements ≡ top.now ∷ outer)) }
    ensures none { OnErr result (running.now.elements ≡ []) }
    ensures order { IfErr result (λ why. why ≡ Own OUT_OF_ORDER) }
{
    match running.top() {
        Some(top) => Ok(top),
        None => Err(UnitFault::Own(OUT_OF_ORDER)),
    }
}

/// What a unit has emitted, which keeps the lifecycle. Contracts see the sink, and which keys run.
#[derive(Drop)]
pub struct UnitEvents<'a, S: Sink, K: UnitRun> {
    lease: Lease<'a, S>,
    shape: &'a Shape,
    progress: UnitProgress,
    of: PhantomData<K>,
}

impl<'a, S: Sink, K: UnitRun> Model for UnitEvents<'a, S, K> {
    ghost use Rattle.std.specs.Prelude.{◌≡◌};
    ghost use Rattle.tk_engine_execute.specs.Engines.{Extends};
    ghost use Rattle.tk_engine_unit_events.specs.UnitSteps.{UnitView};
    ghost use Rattle.tk_engine_unit_events.specs.Running.{keys_of, with_ids};
    ghost use Rattle.tk_engine_unit_events.specs.Shapes.{frame};
    ghost use Rattle.tk_engine_unit_events.specs.Standing.{StandsAt};

    ghost Value = { UnitView };

    ghost view = { λ e. record {
      sink = S.view e.lease.sink.now;
      running = keys_of (with_ids K.unit.frame.table e.progress.running.elements);
      stamp = e.progress.stamp;
      own_stamp = e.progress.own_stamp;
    } };

    ghost invariant = { λ e. (e.lease.sink.ghost_name ≡ K.name)
        × (frame e.shape.now ≡ K.unit.frame)
        × StandsAt K.unit (S.view e.lease.sink.now) e.progress
        × Extends K.since (S.view e.lease.sink.now) };
}

impl<'a, S: Sink, K: UnitRun> UnitEvents<'a, S, K> {
    /// A unit that begins.
    pub fn begin(
        alloc: Global,
        lease: Lease<'a, S>,
        shape: &'a Shape,
        unit: u32,
    ) -> UnitEvents<'a, S, K>
        requires name { lease.sink.ghost_name ≡ K.name }
        requires start { S.view lease.sink.now ≡ K.unit.start }
        requires since { K.since ≡ K.unit.start }
        requires frame { frame shape.now ≡ K.unit.frame }
        requires keys { keys_in shape.now unit ≡ K.unit.keys }
        requires is_unit { unit < count_units shape.now }
        requires table { K.unit.start.table ≡ K.unit.frame.table }
        ensures { result ≡ begun K.unit.start }
    {
        shape.shows_shape();
        let (next, end) = shape.keys_of(unit);
        let progress = UnitProgress {
            unit,
            end,
            running: Stack::new(alloc),
            registered: IndexSet::new(alloc),
            next,
            stamp: None,
            own_stamp: None,
        };
        UnitEvents {
            lease,
            shape,
            progress,
            of: PhantomData,
        }
    }

    /// A unit that stands there already.
    pub(crate) fn resume(
        lease: Lease<'a, S>,
        shape: &'a Shape,
        progress: UnitProgress,
    ) -> UnitEvents<'a, S, K>
        requires name { lease.sink.ghost_name ≡ K.name }
        requires frame { frame shape.now ≡ K.unit.frame }
        requires stands { StandsAt K.unit (S.view lease.sink.now) progress }
        requires since { K.since ≡ S.view lease.sink.now }
        ensures { result ≡ unit_view K.unit.frame.table K.since progress }
    {
        UnitEvents {
            lease,
            shape,
            progress,
            of: PhantomData,
        }
    }

    /// Gives the sink back, and where the unit stands.
    pub(crate) fn suspend(self) -> (Lease<'a, S>, UnitProgress)
        ensures name { result.0.sink.ghost_name ≡ K.name }
        ensures stands { StandsAt K.unit (S.view result.0.sink.now) result.1 }
        ensures since { Extends K.since (S.view result.0.sink.now) }
        ensures view { self.entry
            ≡ unit_view K.unit.frame.table (S.view result.0.sink.now) result.1 }
    {
        let UnitEvents {
            lease,
            progress,
            ..
        } = self;
        (lease, progress)
    }

    /// Runs a body, which emits into the same sink.
    pub fn run_body<R: Wait, B: UnitBody>(
        &mut self,
        rt: &R,
        alloc: Global,
        body: &B,
    ) -> Result<Outcome, UnitFault>
        ensures may { IfOk result (λ outcome. B.may_end body.now outcome) }
        ensures ran { IfOk result (λ outcome. B.may_run body.now self.old self.new outcome) }
        ensures cause { IfErr result (B.may_fail body.now self.old self.new) }
        ensures more { Extends self.old.sink self.new.sink }
        ensures outer { KeepsOuter self.old self.new }
    {
        let mut run = BodyRun {
            progress: mem::replace(&mut self.progress, UnitProgress::nothing(alloc)),
            outcome: Ok(Outcome::Successful),
        };
        self.lease
            .run_body::<R, K, B>(rt, alloc, body, self.shape, &mut run);
        let BodyRun { progress, outcome } = run;
        self.progress = progress;
        outcome
    }

    /// Gives the sink back, and says whether the unit is complete: no key runs, and each static key
    /// had its turn.
    pub fn end(self) -> (Lease<'a, S>, bool)
        ensures name { result.0.sink.ghost_name ≡ K.name }
        ensures same { IsSameSender K.unit.start (S.view result.0.sink.now) }
        ensures some { Extends K.unit.start (S.view result.0.sink.now) }
        ensures run { IsTrue result.1 → IsComplete K.unit (S.view result.0.sink.now) }
        ensures sink { S.view result.0.sink.now ≡ self.entry.sink }
    {
        let rests = self.progress.running.top().is_none();
        let had_turns = self.progress.end <= self.progress.next;
        let UnitEvents { lease, .. } = self;
        (lease, rests && had_turns)
    }

    /// Shows what holds of the sink since the unit began.
    pub fn shows_sink(&self)
        ensures same { IsSameSender K.unit.start self.now.sink }
        ensures some { Extends K.unit.start self.now.sink }
    {
        let _lease = &self.lease;
    }

    /// The static descriptor that runs, the innermost of what runs.
    ///
    /// # Errors
    /// `Own(OUT_OF_ORDER)` where a dynamic descriptor runs, or nothing.
    pub fn descriptor(&self) -> Result<&Descriptor, UnitFault>
        ensures ok { IfOk result (λ d. IsInnermost K.unit.frame.table self.now.running d.now) }
        ensures err { OnErr result
            ((d : DescriptorView) → ¬ IsInnermost K.unit.frame.table self.now.running d) }
        ensures cause { IfErr result (λ why. why ≡ Own OUT_OF_ORDER) }
    {
        let Some(innermost) = self.progress.running.top() else {
            return Err(UnitFault::Own(OUT_OF_ORDER));
        };
        match self.shape.table().get(innermost.key) {
            Some(descriptor) => Ok(descriptor),
            None => Err(UnitFault::Own(OUT_OF_ORDER)),
        }
    }

    /// Whether the key is that of a static test.
    pub fn is_static_test(&self, key: u32) -> bool
        ensures test { IsTrue result → IsStaticTest K.unit.frame.table key }
        ensures other { result ≡ false → ¬ IsStaticTest K.unit.frame.table key }
    {
        match self.shape.table().get(key) {
            Some(descriptor) => descriptor.dtype.is_test(),
            None => false,
        }
    }

    /// Sets the stamp of the events that a body publishes, until it sets its own: none where a clock
    /// gives it.
    pub fn set_planned_stamp(&mut self, stamp: Option<u64>)
        ensures { self.new ≡ record self.old { stamp = stamp; own_stamp = None } }
    {
        self.progress.stamp = stamp;
        self.progress.own_stamp = None;
    }

    /// Sets the stamp of the events that bodies publish from now on, as the one of the static test
    /// that runs.
    pub fn set_stamp(&mut self, stamp: u64)
        ensures { self.new ≡ record self.old { stamp = Some stamp; own_stamp = Some stamp } }
    {
        self.progress.stamp = Some(stamp);
        self.progress.own_stamp = Some(stamp);
    }

    /// The stamp of the events that a body publishes, where no clock gives it.
    pub fn stamp(&self) -> Option<u64>
        ensures { result ≡ self.now.stamp }
    {
        self.progress.stamp
    }

    /// The stamp that the static test that runs has set.
    pub fn own_stamp(&self) -> Option<u64>
        ensures { result ≡ self.now.own_stamp }
    {
        self.progress.own_stamp
    }

    /// Starts the next static descriptor, below the innermost running key.
    pub fn start<R: Wait>(&mut self, rt: &R, key: u32, stamp: u64) -> Result<(), UnitFault>
        requires { K.unit.may_step (event Started key stamp Nothing) }
        ensures ok { OnOk result
            (self.new ≡ after_start self.old (event Started key stamp Nothing)) }
        ensures err { OnErr result (self.new ≡ self.old) }
        ensures cause { IfErr result (IsStartCause self.old (event Started key stamp Nothing)) }
    {
        let Some(next) = key.checked_add(1) else {
            return Err(UnitFault::Own(OUT_OF_ORDER));
        };
        if key != self.progress.next {
            return Err(UnitFault::Own(OUT_OF_ORDER));
        }
        if !may_start(self.shape, self.progress.unit, &self.progress.running, key) {
            return Err(UnitFault::Own(OUT_OF_ORDER));
        }
        self.progress.running.reserve()?;
        let event = Event {
            kind: Kind::Started,
            key,
            stamp,
            payload: Payload::Nothing,
        };
        self.lease.emit(rt, event)?;
        self.progress.running.push_reserved(RunningKey {
            key,
            dynamic_id: None,
        });
        self.progress.next = next;
        Ok(())
    }

    /// Skips the next static descriptor, below the innermost running key, and all below it.
    pub fn skip<R: Wait>(
        &mut self,
        rt: &R,
        key: u32,
        stamp: u64,
        reason: Payload,
    ) -> Result<(), UnitFault>
        requires { K.unit.may_step (event Skipped key stamp reason) }
        ensures ok { OnOk result
            (self.new ≡ after_event self.old (event Skipped key stamp reason)) }
        ensures err { OnErr result (self.new ≡ self.old) }
        ensures cause { IfErr result (IsTurnCause self.old (event Skipped key stamp reason)) }
    {
        if key != self.progress.next {
            return Err(UnitFault::Own(OUT_OF_ORDER));
        }
        let shape = self.shape;
        let Some(descriptor) = shape.table().get(key) else {
            return Err(UnitFault::Own(OUT_OF_ORDER));
        };
        if !may_start(shape, self.progress.unit, &self.progress.running, key) {
            return Err(UnitFault::Own(OUT_OF_ORDER));
        }
        let next = end_below(shape.table(), &descriptor.id, key);
        let event = Event {
            kind: Kind::Skipped,
            key,
            stamp,
            payload: reason,
        };
        self.lease.emit(rt, event)?;
        self.progress.next = next;
        Ok(())
    }

    /// Publishes a report entry or a file of the innermost running key.
    pub fn publish<R: Wait>(
        &mut self,
        rt: &R,
        kind: Kind,
        stamp: u64,
        payload: Payload,
    ) -> Result<(), UnitFault>
        requires { publishes kind ≡ true }
        ensures ok { OnOk result ((key : ℕ)
            × Published self.old self.new (event kind key stamp payload)) }
        ensures err { OnErr result (self.new ≡ self.old) }
        ensures cause { IfErr result
            (IsPublishCause self.old (λ key. event kind key stamp payload)) }
    {
        let innermost = innermost(&self.progress.running)?;
        let event = Event {
            kind,
            key: innermost.key,
            stamp,
            payload,
        };
        self.lease.emit(rt, event)
    }

    /// Publishes what the plan has for a key, which has to be the innermost running one.
    pub fn publish_planned<R: Wait>(
        &mut self,
        rt: &R,
        key: u32,
        kind: Kind,
        stamp: u64,
        payload: Payload,
    ) -> Result<(), UnitFault>
        requires { publishes kind ≡ true }
        ensures ok { OnOk result
            (self.new ≡ after_event self.old (event kind key stamp payload)) }
        ensures err { OnErr result (self.new ≡ self.old) }
        ensures cause { IfErr result
            (IsInnermostCause self.old (event kind key stamp payload)) }
    {
        if innermost(&self.progress.running)?.key != key {
            return Err(UnitFault::Own(OUT_OF_ORDER));
        }
        self.publish(rt, kind, stamp, payload)
    }

    /// Finishes a key with this outcome; the key has to be the innermost running one.
    pub fn finish<R: Wait>(
        &mut self,
        rt: &R,
        key: u32,
        stamp: u64,
        outcome: Outcome,
    ) -> Result<(), UnitFault>
        requires { key < length K.unit.frame.table
            → K.unit.may_step (event Finished key stamp (Ended outcome)) }
        ensures ok { OnOk result
            (HasFinished self.old self.new (event Finished key stamp (Ended outcome))) }
        ensures err { OnErr result (self.new ≡ self.old) }
        ensures cause { IfErr result
            (IsInnermostCause self.old (event Finished key stamp (Ended outcome))) }
    {
        let innermost = innermost(&self.progress.running)?;
        if innermost.key != key {
            return Err(UnitFault::Own(OUT_OF_ORDER));
        }
        let event = Event {
            kind: Kind::Finished,
            key,
            stamp,
            payload: Payload::Outcome(outcome),
        };
        self.lease.emit(rt, event)?;
        let _finished = self.progress.running.pop();
        Ok(())
    }

    /// Registers a descriptor below the innermost running key at the stamp `registered`, and starts
    /// it at `stamp`. Answers its key.
    pub fn start_child<R: Wait>(
        &mut self,
        rt: &R,
        alloc: Global,
        child: &Child<'_>,
        registered: u64,
        stamp: u64,
    ) -> Result<u32, UnitFault>
        ensures dynamic { IfOk result (λ key. length K.unit.frame.table ≤ key) }
        ensures started { IfOk result (λ key. (above : ℕ) × HasStarted self.old self.new
            (child_request child.now above registered) (event Started key stamp Nothing)) }
        ensures err { OnErr result (Grew self.old self.new) }
        ensures free { OnOk result (¬ IsTaken K.unit self.old child.now.segment) }
        ensures taken { IfErr result
            (RefusesTaken K.unit self.old self.new child.now.segment) }
        ensures cause { IfErr result (IsChildCause K.unit self.old (child_start child.now registered
            (λ key. event Started key stamp Nothing))) }
        ensures refused { IfErr result (HasRefused self.old self.new (child_start child.now
            registered (λ key. event Started key stamp Nothing))) }
    {
        self.progress.running.reserve()?;
        let innermost = innermost(&self.progress.running)?;
        let (key, id) = self.lease.register_child(
            rt,
            alloc,
            self.shape,
            &mut self.progress.registered,
            innermost,
            child,
            registered,
        )?;
        let event = Event {
            kind: Kind::Started,
            key,
            stamp,
            payload: Payload::Nothing,
        };
        self.lease.emit(rt, event)?;
        self.progress.running.push_reserved(RunningKey {
            key,
            dynamic_id: Some(id),
        });
        Ok(key)
    }

    /// Registers a descriptor below the innermost running key at the stamp `registered`, and skips
    /// it at `stamp`.
    pub fn skip_child<R: Wait>(
        &mut self,
        rt: &R,
        alloc: Global,
        child: &Child<'_>,
        registered: u64,
        stamp: u64,
        reason: Payload,
    ) -> Result<(), UnitFault>
        ensures ok { OnOk result ((above : ℕ) × (key : ℕ) × HasSkipped self.old self.new
            (child_request child.now above registered) (event Skipped key stamp reason)) }
        ensures err { OnErr result (Grew self.old self.new) }
        ensures free { OnOk result (¬ IsTaken K.unit self.old child.now.segment) }
        ensures taken { IfErr result
            (RefusesTaken K.unit self.old self.new child.now.segment) }
        ensures cause { IfErr result (IsChildCause K.unit self.old (child_start child.now registered
            (λ key. event Skipped key stamp reason))) }
        ensures refused { IfErr result (HasRefused self.old self.new (child_start child.now
            registered (λ key. event Skipped key stamp reason))) }
    {
        let innermost = innermost(&self.progress.running)?;
        let (key, _id) = self.lease.register_child(
            rt,
            alloc,
            self.shape,
            &mut self.progress.registered,
            innermost,
            child,
            registered,
        )?;
        let event = Event {
            kind: Kind::Skipped,
            key,
            stamp,
            payload: reason,
        };
        self.lease.emit(rt, event)
    }
}

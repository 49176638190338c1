//! What a test publishes while it runs.
ghost use Rattle.std.specs.Prelude.{◌≡◌, ◌≤◌, ◌∷◌, [], Err, IfErr, IfOk, None, Ok, OnErr, OnOk, Some, length};
ghost use Rattle.tk_ids.specs.declared.descriptors.Descriptor.{Descriptor as DescriptorView};
ghost use Rattle.tk_ids.specs.declared.descriptors.DType.TheVariants.{Container, Test};
ghost use Rattle.tk_events.specs.declared.kinds.Kind.TheVariants.{Finished};
ghost use Rattle.tk_events.specs.declared.payloads.Payload.TheVariants.{Outcome as Ended};
ghost use Rattle.tk_engine_execute.specs.Engines.{Extends, IsSameSender};
ghost use Rattle.tk_engine_execute.specs.declared.engines.UnitFault.{UnitFault};
ghost use Rattle.tk_engine_execute.specs.declared.engines.UnitFault.TheVariants.{Own};
ghost use Rattle.tk_engine_hierarchical.specs.Causes.{first_cause};
ghost use Rattle.tk_engine_hierarchical.specs.Reporting.{AtStamp, FailsOrDrops, HasSkippedDynamic, IsDynamicCause, IsEventCause, IsSegmentCause, IsStampOf, IsTextCause, PublishedNow, RunsDynamicChild, body_rules, entry_at, file_at, named_child, reporter, segment_view, skip_at};
ghost use Rattle.tk_engine_unit_events.specs.Refusals.{IsInnermostCause};
ghost use Rattle.tk_engine_unit_events.specs.Taken.{IsTaken, RefusesTaken};
ghost use Rattle.tk_engine_unit_events.specs.UnitSteps.{Grew, HasFinished, IsInnermost, event};

use crate::causes::{cause_of, ending};
use crate::clocks::EventClock;
use crate::contexts::{Context, InUnit};
use crate::tests::Body;
use std::alloc::Global;
use std::sync::Wait;
use tk_engine_execute::{OUT_OF_ORDER, Sink, UnitFault};
use tk_engine_unit_events::{Child, UnitBody, UnitEvents, UnitRun};
use tk_events::{Kind, Outcome, Pairs, Payload};
use tk_ids::{DType, Descriptor, Segment, Text};

/// The test or container that runs: what it publishes, and what it runs below it.
///
/// It emits each event at once, only for what runs, and finishes what it starts if no call fails.
/// Where a child that had begun left a fault, and the body drops it and answers an outcome, the unit
/// still stops, with the cause of the first such fault: what began can't be taken back.
#[derive(Drop)]
pub struct Reporter<'r, 'a, C: Context> {
    rt: &'r C::Runtime,
    alloc: Global,
    clock: Option<&'r C::Clock>,
    pub(crate) events: UnitEvents<'a, C::Sink, C::Run>,
    pub(crate) child_fault: Option<UnitFault>,
}

// Runs a body, leaves in `ended` how it ended, and gives the events back.
fn run_body<'a, C: Context, B: Body>(
    body: &B,
    mut test: Reporter<'_, 'a, C>,
    ended: &mut Result<Outcome, UnitFault>,
) -> UnitEvents<'a, C::Sink, C::Run>
    ensures end { IfOk ended.new (λ outcome. B.may_end body.now outcome) }
    ensures run { IfOk ended.new (λ outcome.
        B.may_run body.now test.entry.events result outcome) }
    ensures fail { IfErr ended.new (FailsOrDrops (B.may_run body.now) (B.may_fail body.now)
        test.entry.events result) }
{
    let answer = body.run(&mut test);
    let (events, how) = test.end(answer);
    *ended = how;
    events
}

// A body that publishes through a reporter.
#[derive(Drop)]
struct ReportingBody<'b, B, C> {
    body: &'b B,
    clock: Option<&'b C>,
}

impl<'b, B: Body, C: EventClock> UnitBody for ReportingBody<'b, B, C> {
    ghost use Rattle.tk_engine_hierarchical.specs.Reporting.{FailsOrDrops};

    ghost may_end = { λ reporting. B.may_end reporting.body.now };

    ghost may_run = { λ reporting. B.may_run reporting.body.now };

    ghost may_fail = { λ reporting. FailsOrDrops
        (B.may_run reporting.body.now) (B.may_fail reporting.body.now) };

    fn run_with<'a, R: Wait, S: Sink, K: UnitRun>(
        &self,
        rt: &R,
        alloc: Global,
        events: UnitEvents<'a, S, K>,
        ended: &mut Result<Outcome, UnitFault>,
    ) -> UnitEvents<'a, S, K> {
        let test = Reporter::new(rt, alloc, self.clock, events);
        run_body::<InUnit<R, S, K, C>, B>(self.body, test, ended)
    }
}

// The segment of this tag and this value.
fn segment_of(alloc: Global, segment: (&str, &str)) -> Result<Segment, UnitFault>
    ensures ok { IfOk result (λ s. s ≡ segment_view segment.entry) }
    ensures cause { IfErr result (IsSegmentCause (segment_view segment.entry)) }
{
    Ok(Segment::new(alloc, segment.0, segment.1)?)
}

impl<'r, 'a, C: Context> Reporter<'r, 'a, C> {
    /// Publishes into these events, at what the clock reads where they have no stamp.
    pub(crate) fn new(
        rt: &'r C::Runtime,
        alloc: Global,
        clock: Option<&'r C::Clock>,
        events: UnitEvents<'a, C::Sink, C::Run>,
    ) -> Reporter<'r, 'a, C>
        ensures events { result.events ≡ events.entry }
        ensures unbroken { result.child_fault ≡ None }
    {
        Reporter {
            rt,
            alloc,
            clock,
            events,
            child_fault: None,
        }
    }

    /// Gives the events back, and says how the body ends that answered this.
    pub(crate) fn end(
        self,
        answer: Result<Outcome, UnitFault>,
    ) -> (UnitEvents<'a, C::Sink, C::Run>, Result<Outcome, UnitFault>)
        ensures events { result.0 ≡ self.entry.events }
        ensures ok { IfOk result.1 (λ outcome. answer ≡ Ok outcome) }
        ensures unbroken { OnOk result.1 (self.entry.child_fault ≡ None) }
        ensures none { self.entry.child_fault ≡ None → result.1 ≡ answer }
        ensures fault { (why : UnitFault) → answer ≡ Err why → result.1 ≡ Err why }
        ensures dropped { (why : UnitFault)
            → OnOk answer (self.entry.child_fault ≡ Some why → result.1 ≡ Err why) }
    {
        let Reporter {
            events,
            child_fault,
            ..
        } = self;
        (events, ending(answer, child_fault))
    }

    // Keeps the cause of the first fault.
    fn keep(&mut self, fault: &UnitFault)
        ensures events { self.new.events ≡ self.old.events }
        ensures cause { self.new.child_fault ≡ first_cause self.old.child_fault fault.now }
    {
        if self.child_fault.is_none() {
            self.child_fault = Some(cause_of(fault));
        }
    }

    // Keeps the cause of the fault of a child that had begun, where there is one.
    fn note<T>(&mut self, ended: Result<T, UnitFault>) -> Result<T, UnitFault>
        ensures same { result ≡ ended }
        ensures events { self.new.events ≡ self.old.events }
        ensures ok { OnOk result (self.new.child_fault ≡ self.old.child_fault) }
        ensures err { IfErr result (λ why.
            self.new.child_fault ≡ first_cause self.old.child_fault why) }
    {
        if let Err(fault) = &ended {
            self.keep(fault);
        }
        ended
    }

    // The stamp of what happens now.
    fn stamp(&self) -> u64
        ensures { IsStampOf self.now.events result }
    {
        if let Some(stamp) = self.events.stamp() {
            return stamp;
        }
        match self.clock {
            Some(clock) => clock.stamp(),
            None => 0,
        }
    }

    /// Finishes a dynamic key with this outcome; the key has to be the innermost running one.
    pub(crate) fn finish(&mut self, key: u32, outcome: Outcome) -> Result<(), UnitFault>
        requires { length C.Run.unit.frame.table ≤ key }
        ensures ok { OnOk result (AtStamp self.old.events (λ stamp.
            HasFinished self.old.events self.new.events
            (event Finished key stamp (Ended outcome)))) }
        ensures err { OnErr result (self.new.events ≡ self.old.events) }
        ensures cause { IfErr result (λ why. AtStamp self.old.events (λ stamp.
            IsInnermostCause self.old.events
            (event Finished key stamp (Ended outcome)) why)) }
        ensures kept { self.new.child_fault ≡ self.old.child_fault }
    {
        let stamp = self.stamp();
        self.events.finish(self.rt, key, stamp, outcome)
    }

    // Registers and starts a child with a segment of this tag and this value, runs its body, and
    // finishes it.
    fn run_dynamic<B: Body>(
        &mut self,
        dtype: DType,
        segment: (&str, &str),
        name: &str,
        body: &B,
    ) -> Result<(), UnitFault>
        ensures runs { RunsDynamicChild C.Run.unit
            (body_rules (B.may_end body.now) (B.may_run body.now) (B.may_fail body.now))
            (named_child dtype segment.entry name.now)
            (reporter self.old.events self.old.child_fault)
            (reporter self.new.events self.new.child_fault) result }
    {
        let (rt, alloc) = (self.rt, self.alloc);
        let segment = segment_of(alloc, segment)?;
        let child = Child {
            segment: &segment,
            name,
            dtype,
        };
        let stamp = self.stamp();
        let key = self.events.start_child(rt, alloc, &child, stamp, stamp)?;
        let body = ReportingBody {
            body,
            clock: self.clock,
        };
        let ended = self.events.run_body(rt, alloc, &body);
        let outcome = self.note(ended)?;
        let finished = self.finish(key, outcome);
        self.note(finished)
    }

    /// The runtime, for what waits.
    pub fn rt(&self) -> &'r C::Runtime
        ensures { result ≡ self.now.rt }
    {
        self.rt
    }

    /// The allocator.
    pub fn alloc(&self) -> Global
        ensures { result ≡ self.now.alloc }
    {
        self.alloc
    }

    /// The static descriptor that runs: in [`Tests::run`](crate::Tests::run) that of the test, with
    /// its id and its name.
    ///
    /// # Errors
    /// `Own(OUT_OF_ORDER)` in the body of a dynamic test or container.
    pub fn descriptor(&self) -> Result<&Descriptor, UnitFault>
        ensures ok { IfOk result (λ d.
            IsInnermost C.Run.unit.frame.table self.now.events.running d.now) }
        ensures err { OnErr result ((d : DescriptorView)
            → ¬ IsInnermost C.Run.unit.frame.table self.now.events.running d) }
        ensures cause { IfErr result (λ why. why ≡ Own OUT_OF_ORDER) }
    {
        self.events.descriptor()
    }

    /// Sets the stamp of what happens from now on, in the bodies below too, up to the finish of the
    /// static test that runs, for instance the microseconds since the run began.
    ///
    /// Until then it has the stamp of the test's start, or of a timed engine what the clock reads.
    /// A stamp that is a position is no time: of an engine that isn't timed, the difference of two
    /// stamps is a duration only where bodies set both.
    pub fn set_stamp(&mut self, stamp: u64)
        ensures stamp { self.new.events
            ≡ record self.old.events { stamp = Some stamp; own_stamp = Some stamp } }
        ensures kept { self.new.child_fault ≡ self.old.child_fault }
    {
        self.events.set_stamp(stamp);
    }

    /// Publishes a report entry of one key and its value. JUnit: `reportingEntryPublished`.
    ///
    /// # Errors
    /// `Memory`, or the fault of the sink.
    pub fn report(&mut self, key: &str, value: &str) -> Result<(), UnitFault>
        ensures ok { OnOk result (PublishedNow self.old.events self.new.events
            (entry_at ((key.now, value.now) ∷ []))) }
        ensures err { OnErr result (self.new.events ≡ self.old.events) }
        ensures cause { IfErr result (IsTextCause self.old.events
            (entry_at ((key.now, value.now) ∷ []))) }
        ensures kept { self.new.child_fault ≡ self.old.child_fault }
    {
        let key = Text::copy(self.alloc, key)?;
        let value = Text::copy(self.alloc, value)?;
        let pairs = Pairs::shared_pair(self.alloc, key, value)?;
        self.report_pairs(pairs)
    }

    /// Publishes a report entry of some pairs, whose keys have to increase strictly.
    ///
    /// # Errors
    /// The fault of the sink, such as `Unlawful` where the keys don't.
    pub fn report_pairs(&mut self, pairs: Pairs) -> Result<(), UnitFault>
        ensures ok { OnOk result (PublishedNow self.old.events self.new.events
            (entry_at pairs)) }
        ensures err { OnErr result (self.new.events ≡ self.old.events) }
        ensures cause { IfErr result (IsEventCause self.old.events (entry_at pairs)) }
        ensures kept { self.new.child_fault ≡ self.old.child_fault }
    {
        let (stamp, pairs) = (self.stamp(), Payload::Report(pairs));
        self.events.publish(self.rt, Kind::Reporting, stamp, pairs)
    }

    /// Publishes a file, whose path isn't empty. JUnit: `fileEntryPublished`.
    ///
    /// # Errors
    /// `Memory`, or the fault of the sink, such as `Unlawful` where the path is empty.
    pub fn file(&mut self, path: &str) -> Result<(), UnitFault>
        ensures ok { OnOk result (PublishedNow self.old.events self.new.events
            (file_at path.now)) }
        ensures err { OnErr result (self.new.events ≡ self.old.events) }
        ensures cause { IfErr result (IsTextCause self.old.events (file_at path.now)) }
        ensures kept { self.new.child_fault ≡ self.old.child_fault }
    {
        let path = Payload::Path(Text::copy(self.alloc, path)?);
        let stamp = self.stamp();
        self.events.publish(self.rt, Kind::File, stamp, path)
    }

    /// Registers a dynamic test below the test or container that runs, starts it, runs its body,
    /// and finishes it with the outcome. `segment` has the tag and the value of the last segment of
    /// its id.
    ///
    /// JUnit: `dynamicTestRegistered` and what follows it.
    ///
    /// # Errors
    /// - `Own(TWICE)` where a static descriptor has the id, or one that the unit registered.
    ///   Nothing is emitted then.
    /// - `Own(OUT_OF_ORDER)` where no key runs; `Memory`; `Sink` where the tag or the value is
    ///   empty, the id is too long, or the sink refuses.
    /// - The fault of the body.
    ///
    /// Once the child has begun, a fault ends the unit, also where the caller drops it.
    pub fn dynamic_test<B: Body>(
        &mut self,
        segment: (&str, &str),
        name: &str,
        body: &B,
    ) -> Result<(), UnitFault>
        ensures runs { RunsDynamicChild C.Run.unit
            (body_rules (B.may_end body.now) (B.may_run body.now) (B.may_fail body.now))
            (named_child Test segment.entry name.now)
            (reporter self.old.events self.old.child_fault)
            (reporter self.new.events self.new.child_fault) result }
        // Whatever the body does.
        ensures same { IsSameSender C.Run.unit.start self.new.events.sink }
        ensures some { Extends C.Run.unit.start self.new.events.sink }
    {
        let ended = self.run_dynamic(DType::Test, segment, name, body);
        self.events.shows_sink();
        ended
    }

    /// Registers a dynamic container below the test or container that runs, starts it, runs its
    /// body, which runs what is below it, and finishes it with the outcome.
    ///
    /// JUnit: `dynamicTestRegistered` and what follows it.
    ///
    /// # Errors
    /// As [`Reporter::dynamic_test`].
    pub fn dynamic_container<B: Body>(
        &mut self,
        segment: (&str, &str),
        name: &str,
        body: &B,
    ) -> Result<(), UnitFault>
        ensures runs { RunsDynamicChild C.Run.unit
            (body_rules (B.may_end body.now) (B.may_run body.now) (B.may_fail body.now))
            (named_child Container segment.entry name.now)
            (reporter self.old.events self.old.child_fault)
            (reporter self.new.events self.new.child_fault) result }
        // Whatever the body does.
        ensures same { IsSameSender C.Run.unit.start self.new.events.sink }
        ensures some { Extends C.Run.unit.start self.new.events.sink }
    {
        let ended = self.run_dynamic(DType::Container, segment, name, body);
        self.events.shows_sink();
        ended
    }

    /// Registers a dynamic test below the test or container that runs, and skips it.
    ///
    /// # Errors
    /// As [`Reporter::dynamic_test`].
    pub fn skip_test(
        &mut self,
        segment: (&str, &str),
        name: &str,
        reason: &str,
    ) -> Result<(), UnitFault>
        ensures ok { OnOk result (HasSkippedDynamic self.old.events self.new.events
            (named_child Test segment.entry name.now) reason.now) }
        ensures err { OnErr result (Grew self.old.events self.new.events) }
        ensures free { OnOk result
            (¬ IsTaken C.Run.unit self.old.events (segment_view segment.entry)) }
        ensures taken { IfErr result (RefusesTaken C.Run.unit self.old.events self.new.events
            (segment_view segment.entry)) }
        ensures cause { IfErr result (IsDynamicCause C.Run.unit self.old.events
            (named_child Test segment.entry name.now) (skip_at reason.now)) }
        ensures kept { self.new.child_fault ≡ self.old.child_fault }
    {
        let reason = Payload::Reason(Text::copy(self.alloc, reason)?);
        let segment = segment_of(self.alloc, segment)?;
        let child = Child {
            segment: &segment,
            name,
            dtype: DType::Test,
        };
        let stamp = self.stamp();
        self.events
            .skip_child(self.rt, self.alloc, &child, stamp, stamp, reason)
    }
}

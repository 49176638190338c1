//! A unit that runs as its plan says.
ghost use Rattle.std.specs.Prelude.{◌≡◌, ◌<◌, ℕ, IfErr, IfNone, IfOk, IfSome, None, OnOk, is_some, length};
ghost use Rattle.tk_engine_execute.specs.Engines.{Extends};
ghost use Rattle.tk_events.specs.declared.kinds.Kind.TheVariants.{Finished, Skipped, Started};
ghost use Rattle.tk_events.specs.declared.payloads.Payload.TheVariants.{Nothing, Outcome as Ended, Reason};
ghost use Rattle.tk_engine_unit_events.specs.Endings.{IsStaticTest};
ghost use Rattle.tk_engine_unit_events.specs.UnitSteps.{event};
ghost use Rattle.tk_engine_hierarchical.specs.Reporting.{FailsOrDrops};
ghost use Rattle.tk_engine_hierarchical.specs.TreeRuns.{FinishesNext, FinishesNode, IsNextStamp, Publishes, PublishesEntries, PublishesFiles, RunsBody, SkipsNode, StartsNode, after_position, body_stamp, child_of_node};

use crate::clocks::EventClock;
use crate::contexts::{Context, InUnit};
use crate::reporters::Reporter;
use crate::tests::Tests;
use std::alloc::Global;
use std::marker::Model;
use std::sync::Wait;
use tk_engine_execute::{Sink, UnitFault};
use tk_engine_unit_events::{Child, UnitBody, UnitEvents, UnitRun};
use tk_events::{Kind, Outcome, Pairs, Payload};
use tk_ids::Text;
use tk_plan::{Node, NumberedNode};

/// The outcome of a test that ran, and the stamp that it set, where it did.
#[derive(Drop)]
pub(crate) struct TestEnd {
    pub(crate) outcome: Outcome,
    pub(crate) stamp: Option<u64>,
}

// Runs the test with this key, leaves in `ended` how it ended, and gives the events back.
fn run_test<'a, C: Context, T: Tests>(
    tests: &T,
    key: u32,
    mut test: Reporter<'_, 'a, C>,
    ended: &mut Result<Outcome, UnitFault>,
) -> UnitEvents<'a, C::Sink, C::Run>
    ensures end { IfOk ended.new (λ outcome. T.may_end tests.now key outcome) }
    ensures run { IfOk ended.new (λ outcome.
        T.may_run tests.now key test.entry.events result outcome) }
    ensures fail { IfErr ended.new (FailsOrDrops (T.may_run tests.now key)
        (T.may_fail tests.now key) test.entry.events result) }
{
    let answer = tests.run(key, &mut test);
    let (events, how) = test.end(answer);
    *ended = how;
    events
}

// A static test of this key, as a body.
#[derive(Drop)]
struct TestBody<'t, T, C> {
    tests: &'t T,
    clock: Option<&'t C>,
    key: u32,
}

impl<'t, T: Tests, C: EventClock> UnitBody for TestBody<'t, T, C> {
    ghost use Rattle.tk_engine_hierarchical.specs.Reporting.{FailsOrDrops};

    ghost may_end = { λ body. T.may_end body.tests.now body.key };

    ghost may_run = { λ body. T.may_run body.tests.now body.key };

    ghost may_fail = { λ body. FailsOrDrops
        (T.may_run body.tests.now body.key) (T.may_fail body.tests.now body.key) };

    fn run_with<'a, R: Wait, S: Sink, K: UnitRun>(
        &self,
        rt: &R,
        alloc: Global,
        events: UnitEvents<'a, S, K>,
        ended: &mut Result<Outcome, UnitFault>,
    ) -> UnitEvents<'a, S, K> {
        let test = Reporter::new(rt, alloc, self.clock, events);
        run_test::<InUnit<R, S, K, C>, T>(self.tests, self.key, test, ended)
    }
}

// What is registered for a dynamic node.
fn child_of(node: &Node) -> Child<'_>
    ensures { result ≡ child_of_node node.now }
{
    Child {
        segment: &node.segment,
        name: node.name.as_str(),
        dtype: node.dtype,
    }
}

/// A unit that runs as its plan says. Contracts see the unit, the position of its next event in the
/// root's script, and whether a clock gives the stamps.
#[derive(Drop)]
pub(crate) struct PlannedUnit<'a, S: Sink, K: UnitRun, C> {
    pub(crate) events: UnitEvents<'a, S, K>,
    pub(crate) next: u64,
    pub(crate) clock: Option<&'a C>,
}

impl<'a, S: Sink, K: UnitRun, C> Model for PlannedUnit<'a, S, K, C> {
    ghost use Rattle.std.specs.Prelude.{is_some};
    ghost use Rattle.tk_engine_hierarchical.specs.TreeRuns.{PlanState, plan_state};

    ghost Value = { PlanState };

    ghost view = { λ u. plan_state u.events u.next (is_some u.clock) };
}

impl<'a, S: Sink, K: UnitRun, C: EventClock> PlannedUnit<'a, S, K, C> {
    // Takes the stamp of the next event: its position, or what the clock reads. The greatest
    // position is taken again and again.
    fn take_stamp(&mut self) -> u64
        ensures stamp { IsNextStamp self.old result }
        ensures next { self.new ≡ after_position self.old }
    {
        let position = self.next;
        self.next = position.saturating_add(1);
        match self.clock {
            Some(clock) => clock.stamp(),
            None => position,
        }
    }

    // The stamp at which the body publishes of a test that started at this one.
    fn body_stamp(&self, stamp: u64) -> Option<u64>
        ensures { result ≡ body_stamp self.now.is_timed stamp }
    {
        match self.clock {
            Some(_) => None,
            None => Some(stamp),
        }
    }

    /// Starts a node, and answers its key. A static node's key is its number; any other node is
    /// registered first.
    pub(crate) fn start<R: Wait>(
        &mut self,
        rt: &R,
        alloc: Global,
        numbered_node: &NumberedNode,
    ) -> Result<u32, UnitFault>
        requires { (stamp : ℕ)
            → K.unit.may_step (event Started numbered_node.now.number stamp Nothing) }
        ensures number { IfOk result (λ key.
            key < length K.unit.frame.table → key ≡ numbered_node.now.number) }
        ensures start { IfOk result (λ key. StartsNode numbered_node.now.node.is_static
            numbered_node.now.node numbered_node.now.number key self.old self.new) }
    {
        if numbered_node.node.is_static {
            let key = numbered_node.number;
            let stamp = self.take_stamp();
            let published = self.body_stamp(stamp);
            self.events.set_planned_stamp(published);
            self.events.start(rt, key, stamp)?;
            return Ok(key);
        }
        let registered = self.take_stamp();
        let stamp = self.take_stamp();
        let published = self.body_stamp(stamp);
        self.events.set_planned_stamp(published);
        let child = child_of(&numbered_node.node);
        self.events
            .start_child(rt, alloc, &child, registered, stamp)
    }

    /// Skips a node.
    pub(crate) fn skip<R: Wait>(
        &mut self,
        rt: &R,
        alloc: Global,
        numbered_node: &NumberedNode,
        reason: &Text,
    ) -> Result<(), UnitFault>
        requires { (stamp : ℕ)
            → K.unit.may_step (event Skipped numbered_node.now.number stamp (Reason reason.now)) }
        ensures { OnOk result (SkipsNode numbered_node.now.node.is_static numbered_node.now.node
            numbered_node.now.number reason.now self.old self.new) }
    {
        let reason = Payload::Reason(reason.try_clone()?);
        let stamp = self.take_stamp();
        if numbered_node.node.is_static {
            let key = numbered_node.number;
            return self.events.skip(rt, key, stamp, reason);
        }
        let child = child_of(&numbered_node.node);
        let skipped = self.take_stamp();
        self.events
            .skip_child(rt, alloc, &child, stamp, skipped, reason)
    }

    // Runs the body of a test. The stamp is the one that the test set, where it did.
    fn run_test<R: Wait, T: Tests>(
        &mut self,
        rt: &R,
        alloc: Global,
        tests: &T,
        key: u32,
    ) -> Result<TestEnd, UnitFault>
        ensures may { IfOk result (λ e. T.may_end tests.now key e.outcome) }
        ensures ran { IfOk result (λ e.
            T.may_run tests.now key self.old.unit self.new.unit e.outcome) }
        ensures later { Extends self.old.unit.sink self.new.unit.sink }
        ensures stamp { IfOk result (λ e. e.stamp ≡ self.new.unit.own_stamp) }
        ensures next { self.new ≡ record self.old { unit = self.new.unit } }
    {
        let body = TestBody {
            tests,
            clock: self.clock,
            key,
        };
        let outcome = self.events.run_body(rt, alloc, &body)?;
        Ok(TestEnd {
            outcome,
            stamp: self.events.own_stamp(),
        })
    }

    /// Runs the body of a node that started with this key, where it is a static test.
    pub(crate) fn run_body<R: Wait, T: Tests>(
        &mut self,
        rt: &R,
        alloc: Global,
        tests: &T,
        key: u32,
    ) -> Result<Option<TestEnd>, UnitFault>
        ensures may { IfOk result (λ ended. IfSome ended (λ e. T.may_end tests.now key e.outcome)) }
        ensures test { IfOk result (λ ended.
            IfSome ended (λ e. IsStaticTest K.unit.frame.table key)) }
        ensures other { IfOk result (λ ended.
            IfNone ended (¬ IsStaticTest K.unit.frame.table key)) }
        ensures body { IfOk result (λ ended. RunsBody K.unit.frame.table (T.may_run tests.now) key
            self.old.unit self.new.unit ended) }
        ensures next { self.new ≡ record self.old { unit = self.new.unit } }
    {
        if !self.events.is_static_test(key) {
            return Ok(None);
        }
        let ended = self.run_test(rt, alloc, tests, key)?;
        Ok(Some(ended))
    }

    // Publishes the entries that the plan has for a node.
    fn publish_entries<R: Wait>(
        &mut self,
        rt: &R,
        alloc: Global,
        key: u32,
        entries: &[Pairs],
    ) -> Result<(), UnitFault>
        ensures { OnOk result (PublishesEntries entries.now key self.old self.new) }
    {
        for pairs in entries {
            let pairs = Payload::Report(pairs.try_clone(alloc)?);
            let stamp = self.take_stamp();
            self.events
                .publish_planned(rt, key, Kind::Reporting, stamp, pairs)?;
        }
        Ok(())
    }

    // Publishes the files that the plan has for a node.
    fn publish_files<R: Wait>(&mut self, rt: &R, key: u32, files: &[Text]) -> Result<(), UnitFault>
        ensures { OnOk result (PublishesFiles files.now key self.old self.new) }
    {
        for path in files {
            let path = Payload::Path(path.try_clone()?);
            let stamp = self.take_stamp();
            self.events
                .publish_planned(rt, key, Kind::File, stamp, path)?;
        }
        Ok(())
    }

    /// Publishes the entries and then the files that the plan has for a node.
    pub(crate) fn publish<R: Wait>(
        &mut self,
        rt: &R,
        alloc: Global,
        key: u32,
        node: &Node,
    ) -> Result<(), UnitFault>
        ensures { OnOk result (Publishes node.now key self.old self.new) }
    {
        self.publish_entries(rt, alloc, key, node.entries.as_slice())?;
        self.publish_files(rt, key, node.files.as_slice())
    }

    // Finishes a key with this outcome, at the stamp that its body set, or else at that of the next
    // event.
    fn finish_key<R: Wait>(
        &mut self,
        rt: &R,
        key: u32,
        own_stamp: Option<u64>,
        outcome: Outcome,
    ) -> Result<(), UnitFault>
        requires { key < length K.unit.frame.table
            → (stamp : ℕ) → K.unit.may_step (event Finished key stamp (Ended outcome)) }
        ensures { OnOk result (FinishesNext key own_stamp outcome self.old self.new) }
    {
        let next = self.take_stamp();
        let stamp = own_stamp.unwrap_or(next);
        self.events.finish(rt, key, stamp, outcome)
    }

    /// Finishes a node as its body ended, where it ran one, and else as the plan says.
    pub(crate) fn finish<R: Wait>(
        &mut self,
        rt: &R,
        key: u32,
        node: &Node,
        ended: Option<TestEnd>,
    ) -> Result<(), UnitFault>
        requires test { IfSome ended (λ end. key < length K.unit.frame.table → (stamp : ℕ)
            → K.unit.may_step (event Finished key stamp (Ended end.outcome))) }
        requires other { IfNone ended (key < length K.unit.frame.table → (stamp : ℕ)
            → K.unit.may_step (event Finished key stamp (Ended node.now.outcome))) }
        ensures { OnOk result (FinishesNode node.now key ended self.old self.new) }
    {
        match ended {
            Some(test) => self.finish_key(rt, key, test.stamp, test.outcome),
            None => self.finish_key(rt, key, None, node.outcome.try_clone()?),
        }
    }
}

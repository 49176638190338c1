//! The engine of a plan whose tests have bodies, as `execute` takes it.
ghost use Rattle.std.specs.Prelude.{◌≡◌, IfOk, None, Some};
ghost use Rattle.tk_plan.specs.Planned.{IsPlanned};
ghost use Rattle.tk_engine_lifecycle.specs.Units.{KeepsAround};
ghost use Rattle.tk_engine_unit_events.specs.Shapes.{frame, HavePlaces};

use crate::clocks::{EventClock, NoClock};
use crate::hierarchical::run_unit;
use crate::tests::Tests;
use std::alloc::{AllocError, Global};
use std::marker::Brand;
use std::sync::{Arc, Wait};
use tk_engine_execute::{Engine, Sink, UnitFault};
use tk_engine_unit_events::{Lease, Shape};
use tk_events::Event;
use tk_ids::Table;
use tk_locks::{BookSeat, Need};
use tk_plan::Plan;

/// The engine of a plan whose tests have bodies: it starts, runs and finishes them.
///
/// A timed engine has a clock, which gives each event its stamp. JUnit: `HierarchicalTestEngine`.
#[derive(Drop)]
pub struct Hierarchical<T, C = NoClock> {
    shape: Shape,
    tests: T,
    clock: Option<C>,
}

impl<T: Tests + Drop> Hierarchical<T> {
    /// Makes the engine of a plan and of its tests. Its table, its units, and its events before and
    /// after them are the plan's. The stamp of an event is its position in the root's script.
    pub fn new(alloc: Global, plan: Plan, tests: T) -> Result<Hierarchical<T>, AllocError>
        ensures plan { IfOk result (λ engine. engine.shape.plan ≡ plan) }
        ensures tests { IfOk result (λ engine. engine.tests ≡ tests) }
        ensures untimed { IfOk result (λ engine. engine.clock ≡ None) }
    {
        let shape = Shape::new(alloc, plan)?;
        Ok(Hierarchical {
            shape,
            tests,
            clock: None,
        })
    }
}

impl<T: Tests + Drop, C: EventClock + Drop> Hierarchical<T, C> {
    /// Makes the engine of a plan and of its tests, as [`Hierarchical::new`], whose units read the
    /// clock at each start, finish, skip and publication, until a body sets a stamp of its own.
    ///
    /// The events before and after the units are the plan's, and so are their stamps.
    pub fn timed(
        alloc: Global,
        plan: Plan,
        tests: T,
        clock: C,
    ) -> Result<Hierarchical<T, C>, AllocError>
        ensures plan { IfOk result (λ engine. engine.shape.plan ≡ plan) }
        ensures tests { IfOk result (λ engine. engine.tests ≡ tests) }
        ensures timed { IfOk result (λ engine. engine.clock ≡ Some clock) }
    {
        let shape = Shape::new(alloc, plan)?;
        Ok(Hierarchical {
            shape,
            tests,
            clock: Some(clock),
        })
    }
}

impl<T, C> Hierarchical<T, C> {
    // Shows what holds around the units.
    pub(crate) fn shows_shape(&self)
        ensures around { KeepsAround (frame self.now.shape) }
        ensures places { HavePlaces self.now.shape }
        ensures planned { IsPlanned self.now.shape.plan.nodes self.now.shape.plan.table }
    {
        self.shape.shows_shape();
    }
}

impl<T: Tests + Sync, C: EventClock + Sync> Engine for Hierarchical<T, C> {
    ghost use Rattle.std.specs.Prelude.{is_some};
    ghost use Rattle.tk_plan.specs.Masks.{need_of};
    ghost use Rattle.tk_engine_hierarchical.specs.Laws.{may_of};
    ghost use Rattle.tk_engine_hierarchical.specs.TreeRuns.{test_rules};
    ghost use Rattle.tk_engine_unit_events.specs.Shapes.{frame};

    ghost table = { λ e. (frame e.shape).table };

    ghost units = { λ e. (frame e.shape).units };

    ghost before = { λ e. (frame e.shape).before };

    ghost after = { λ e. (frame e.shape).after };

    ghost need = { λ e unit. need_of e.shape.plan.nodes unit };

    ghost may = { λ e. may_of e.shape
        (test_rules (is_some e.clock) (T.may_end e.tests) (T.may_run e.tests)) };

    fn table(&self) -> &Arc<Table> {
        self.shape.table()
    }

    fn units(&self) -> u32 {
        self.shape.count_units()
    }

    fn before(&self, alloc: Global) -> Result<Vec<Event>, AllocError> {
        self.shape.plan().before(alloc)
    }

    fn after(&self, alloc: Global) -> Result<Vec<Event>, AllocError> {
        self.shape.plan().after(alloc)
    }

    fn need(&self, unit: u32) -> Need {
        self.shape.plan().need(unit)
    }

    fn run<R: Wait, S: Sink>(
        &self,
        rt: &R,
        alloc: Global,
        unit: u32,
        _seat: &BookSeat,
        sink: &mut S,
    ) -> Result<(), UnitFault> {
        let lease = Lease { sink };
        let mut ran = Ok(());
        let _lease = run_unit::<R, S, Brand, T, C>(
            rt,
            alloc,
            &self.tests,
            self.clock.as_ref(),
            &self.shape,
            unit,
            lease,
            &mut ran,
        );
        ran
    }
}

//! The engine of a plan.
ghost use Rattle.std.specs.Prelude.{◌≡◌, ◌<◌, OnOk, OnErr, IfErr};
ghost use Rattle.tk_plan.specs.Planned.{Outline};
ghost use Rattle.tk_engine_execute.specs.Engines.{IsSameSender, Extends, ExtendsAs};
ghost use Rattle.tk_engine_scripted.specs.Plays.{IsPlayFault};

use crate::playing::play_unit;
use std::alloc::{AllocError, Global};
use std::marker::Model;
use std::sync::{Arc, Wait};
use tk_engine_execute::{Engine, Sink, UnitFault};
use tk_events::Event;
use tk_ids::Table;
use tk_locks::{BookSeat, Need};
use tk_plan::Plan;

/// The engine that emits the scripts of a plan's units. Contracts see the plan.
#[derive(Drop)]
pub struct Scripted {
    plan: Plan,
}

impl Model for Scripted {
    ghost use Rattle.tk_plan.specs.Planned.{Outline};

    ghost Value = { Outline };

    ghost view = { λ s. s.plan };
}

impl Scripted {
    /// Makes the engine of a plan.
    pub fn new(plan: Plan) -> Scripted
        ensures { result ≡ plan }
    {
        Scripted { plan }
    }

    /// Returns the plan.
    pub fn plan(&self) -> &Plan
        ensures { result.now ≡ self.now }
    {
        &self.plan
    }
}

impl Engine for Scripted {
    ghost use Rattle.std.specs.Prelude.{length};
    ghost use Rattle.tk_plan.specs.Trees.{forest};
    ghost use Rattle.tk_plan.specs.Cutting.{before_of, after_of, units_of};
    ghost use Rattle.tk_run_laws.specs.Scripts.{may as plays};
    ghost use Rattle.tk_plan.specs.Masks.{need_of};
    ghost use Rattle.tk_engine_scripted.specs.Plays.{IsPlayFault};

    ghost table = { λ s. s.table };

    ghost units = { λ s. length (units_of (forest s.nodes)) };

    ghost before = { λ s. before_of (forest s.nodes) };

    ghost after = { λ s. after_of (forest s.nodes) };

    ghost need = { λ s unit. need_of s.nodes unit };

    ghost may = { λ s. plays s.nodes s.table };

    ghost fails = { λ s unit. IsPlayFault };

    fn table(&self) -> &Arc<Table> {
        self.plan.table()
    }

    fn units(&self) -> u32 {
        self.plan.units().len() as u32
    }

    fn before(&self, alloc: Global) -> Result<Vec<Event>, AllocError> {
        self.plan.before(alloc)
    }

    fn after(&self, alloc: Global) -> Result<Vec<Event>, AllocError> {
        self.plan.after(alloc)
    }

    fn need(&self, unit: u32) -> Need {
        self.plan.need(unit)
    }

    fn run<R: Wait, S: Sink>(
        &self,
        rt: &R,
        alloc: Global,
        unit: u32,
        _seat: &BookSeat,
        sink: &mut S,
    ) -> Result<(), UnitFault>
        requires unit { unit < length (units_of (forest self.now.nodes)) }
        requires table { (S.view sink.old).table ≡ self.now.table }
        ensures same { IsSameSender (S.view sink.old) (S.view sink.new) }
        ensures ok { OnOk result (ExtendsAs (plays self.now.nodes self.now.table unit)
            (S.view sink.old) (S.view sink.new)) }
        ensures err { OnErr result (Extends (S.view sink.old) (S.view sink.new)) }
        ensures fails { IfErr result IsPlayFault }
    {
        play_unit(rt, alloc, &self.plan, unit, sink)
    }
}

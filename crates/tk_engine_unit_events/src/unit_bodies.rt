//! What runs with the events of a unit.
ghost use Rattle.std.specs.Prelude.{IfErr, IfOk};

use crate::unit_events::UnitEvents;
use crate::unit_runs::UnitRun;
use std::alloc::Global;
use std::sync::Wait;
use tk_engine_execute::{Sink, UnitFault};
use tk_events::Outcome;

/// The body of a test, to which the events of its unit are lent.
///
/// `may_end` says which outcomes it may have, `may_run` from which state of the unit to which other
/// one it may run, with which outcome, and `may_fail` from which to which it may, with which fault.
pub trait UnitBody {
    ghost use Rattle.tk_engine_unit_events.specs.UnitSteps.{BodyFails, BodyRuns};
    ghost use Rattle.tk_events.specs.declared.outcomes.Outcome.{Outcome};

    ghost may_end: { Self → Outcome → Type 0 };

    ghost may_run: { Self → BodyRuns };

    ghost may_fail: { Self → BodyFails };

    /// Runs the body, leaves in `ended` how it ended, and gives the events back.
    fn run_with<'a, R: Wait, S: Sink, K: UnitRun>(
        &self,
        rt: &R,
        alloc: Global,
        events: UnitEvents<'a, S, K>,
        ended: &mut Result<Outcome, UnitFault>,
    ) -> UnitEvents<'a, S, K>
        ensures end { IfOk ended.new (λ outcome. may_end self.now outcome) }
        ensures run { IfOk ended.new (λ outcome. may_run self.now events.entry result outcome) }
        ensures fail { IfErr ended.new (may_fail self.now events.entry result) };
}

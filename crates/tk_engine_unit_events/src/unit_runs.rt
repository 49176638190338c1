//! Which run of a unit a proof speaks of.

use std::marker::Brand;

/// Which run of a unit a proof speaks of: the unit as it began, the sink as it was when the body
/// that runs began, and the name of the reference to it. Each call of a unit or of a body picks it.
pub trait UnitRun {
    ghost use Rattle.std.specs.Prelude.{ℕ};
    ghost use Rattle.tk_queue_session.specs.Senders.{SenderView};
    ghost use Rattle.tk_engine_unit_events.specs.Standing.{BegunUnit};

    ghost unit: { BegunUnit };

    ghost since: { SenderView };

    ghost name: { ℕ };
}

impl UnitRun for Brand {
    ghost use Rattle.tk_engine_unit_events.specs.Standing.{no_sink, no_unit};

    ghost unit = { no_unit };

    ghost since = { no_sink };

    ghost name = { 0 };
}

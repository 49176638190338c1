//! The texts of the faults, and which fault becomes which.
ghost use Rattle.std.specs.Prelude.{◌≡◌, Some};
ghost use Rattle.tk_engine_execute.specs.FaultTexts.{run_fault_text, sink_fault_text, unit_fault_text};

use crate::engines::{OUT_OF_ORDER, TWICE, UnitFault};
use crate::run_faults::RunFault;
use crate::sinks::SinkFault;
use std::alloc::AllocError;
use std::error::Error;
use std::fmt;
use tk_ids::IdFault;
use tk_queue_session::RegisterFault;

impl fmt::Display for SinkFault {
    ghost output = { λ fault. Some (sink_fault_text fault) };

    fn fmt<W: fmt::Write>(&self, f: &mut fmt::Formatter<W>) -> fmt::Result {
        match self {
            SinkFault::Send(fault) => write!(f, "{fault}"),
            SinkFault::Register(fault) => write!(f, "{fault}"),
        }
    }
}

impl Error for SinkFault {}

impl fmt::Display for UnitFault {
    ghost output = { λ fault. Some (unit_fault_text fault) };

    fn fmt<W: fmt::Write>(&self, f: &mut fmt::Formatter<W>) -> fmt::Result {
        match self {
            UnitFault::Sink(fault) => write!(f, "{fault}"),
            UnitFault::Memory => f.write_str("out of memory"),
            UnitFault::Own(OUT_OF_ORDER) => f.write_str("it breaks the order of its tests"),
            UnitFault::Own(TWICE) => f.write_str("it registers a dynamic id twice"),
            UnitFault::Own(number) => write!(f, "engine fault {number}"),
            UnitFault::Text(text) => f.write_str(text),
        }
    }
}

impl Error for UnitFault {}

impl From<SinkFault> for UnitFault {
    ghost use Rattle.tk_engine_execute.specs.declared.engines.UnitFault.TheVariants.{Sink as Sunk};

    ghost from_gives = { λ fault e. e ≡ Sunk fault };

    fn from(fault: SinkFault) -> UnitFault {
        UnitFault::Sink(fault)
    }
}

impl From<AllocError> for UnitFault {
    ghost use Rattle.tk_engine_execute.specs.declared.engines.UnitFault.TheVariants.{Memory};

    ghost from_gives = { λ _ e. e ≡ Memory };

    fn from(_: AllocError) -> UnitFault {
        UnitFault::Memory
    }
}

/// A segment of a dynamic descriptor that can't be made, as where its value is empty.
impl From<IdFault> for UnitFault {
    ghost use Rattle.tk_engine_execute.specs.Engines.{fault_of_id};

    ghost from_gives = { λ fault e. e ≡ fault_of_id fault };

    fn from(fault: IdFault) -> UnitFault {
        match fault {
            IdFault::Memory => UnitFault::Memory,
            fault => UnitFault::Sink(SinkFault::Register(RegisterFault::Id(fault))),
        }
    }
}

impl fmt::Display for RunFault {
    ghost output = { λ fault. Some (run_fault_text fault) };

    fn fmt<W: fmt::Write>(&self, f: &mut fmt::Formatter<W>) -> fmt::Result {
        match self {
            RunFault::Workers => f.write_str("workers must be 1 to 15"),
            RunFault::Capacity => f.write_str("capacity must be 1 to 1024"),
            RunFault::Engine(unit, why) => write!(f, "unit {unit} failed: {why}"),
            RunFault::Memory => f.write_str("out of memory"),
            RunFault::Threads => f.write_str("no thread"),
        }
    }
}

impl Error for RunFault {}

impl From<AllocError> for RunFault {
    ghost use Rattle.tk_engine_execute.specs.declared.run_faults.RunFault.TheVariants.{Memory};

    ghost from_gives = { λ _ e. e ≡ Memory };

    fn from(_: AllocError) -> RunFault {
        RunFault::Memory
    }
}

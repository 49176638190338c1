//! Why an explanation is not written.
ghost use Rattle.std.specs.Prelude.{◌≡◌, Some};
ghost use Rattle.tk_explanations.specs.FaultTexts.{explain_fault_text};
ghost use Rattle.tk_explanations.specs.declared.faults.ExplainFault.TheVariants.{Device, Memory};

use std::alloc::AllocError;
use std::error::Error;
use std::fmt;
use tk_streams::Broken;

/// Why an explanation is not written to its end.
#[derive(Clone, Copy, Debug, PartialEq, Eq)]
pub enum ExplainFault {
    /// The target broke. A prefix of the explanation was then written.
    Device,
    /// A request for memory was refused. Nothing was then written.
    Memory,
}

impl fmt::Display for ExplainFault {
    ghost output = { λ fault. Some (explain_fault_text fault) };

    fn fmt<W: fmt::Write>(&self, f: &mut fmt::Formatter<W>) -> fmt::Result {
        match self {
            ExplainFault::Device => f.write_str("device failed"),
            ExplainFault::Memory => f.write_str("out of memory"),
        }
    }
}

impl Error for ExplainFault {}

impl From<AllocError> for ExplainFault {
    ghost from_gives = { λ _ e. e ≡ Memory };

    fn from(_error: AllocError) -> ExplainFault {
        ExplainFault::Memory
    }
}

impl From<Broken> for ExplainFault {
    ghost from_gives = { λ _ e. e ≡ Device };

    fn from(_error: Broken) -> ExplainFault {
        ExplainFault::Device
    }
}

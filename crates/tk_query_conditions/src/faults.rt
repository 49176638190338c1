//! Why a text is no condition.
ghost use Rattle.std.specs.Prelude.{Some};
ghost use Rattle.tk_query_conditions.specs.FaultTexts.{condition_fault_text};

use std::alloc::AllocError;
use std::error::Error;
use std::fmt;

/// The most brackets of `all(`, `any(` and `not(` that may be open at once.
pub const MAX_DEPTH: usize = 32;

/// Why a text is no condition.
#[derive(Debug, Clone, Copy, PartialEq, Eq, Drop)]
pub enum CondFault {
    /// After this many bytes the text goes on, or ends, as no condition's text does.
    BadAtom(usize),
    /// More than `MAX_DEPTH` brackets of `all(`, `any(` and `not(` are open at once.
    Deep,
    /// A request for memory was refused.
    Memory,
}

impl From<AllocError> for CondFault {
    ghost use Rattle.std.specs.Prelude.{◌≡◌};
    ghost use Rattle.tk_query_conditions.specs.declared.faults.CondFault.TheVariants.{Memory};

    ghost from_gives = { λ _ e. e ≡ Memory };

    fn from(_: AllocError) -> CondFault {
        CondFault::Memory
    }
}

impl fmt::Display for CondFault {
    ghost output = { λ fault. Some (condition_fault_text fault) };

    fn fmt<W: fmt::Write>(&self, f: &mut fmt::Formatter<W>) -> fmt::Result {
        match self {
            CondFault::BadAtom(at) => write!(f, "bad at {at}"),
            CondFault::Deep => f.write_str("too deep"),
            CondFault::Memory => f.write_str("out of memory"),
        }
    }
}

impl Error for CondFault {}

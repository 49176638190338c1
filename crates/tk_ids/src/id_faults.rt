//! The faults of segments and ids.
ghost use Rattle.std.specs.Prelude.{◌≡◌, Some};
ghost use Rattle.tk_ids.specs.FaultTexts.{id_fault_text};

use std::alloc::{AllocError, AllocFailed};
use std::error::Error;
use std::fmt;

/// Why a call gives no segment or no id. Positions count the bytes of the text from 0.
#[derive(Debug, Clone, Copy, PartialEq, Eq)]
pub enum IdFault {
    /// The text of an id, a tag or a value is empty.
    Empty,
    /// The byte at this position can't follow those before it in the text of any id.
    BadSegment(usize),
    /// The byte at this position can't follow those before it, which end within an escape.
    BadEscape(usize),
    /// The id's text is longer than `MAX_BYTES`, or it has more segments than `MAX_SEGMENTS`.
    TooLong,
    /// A request for memory was refused.
    Memory,
}

impl fmt::Display for IdFault {
    ghost output = { λ fault. Some (id_fault_text fault) };

    fn fmt<W: fmt::Write>(&self, f: &mut fmt::Formatter<W>) -> fmt::Result {
        match self {
            IdFault::Empty => f.write_str("text is empty"),
            IdFault::BadSegment(at) => write!(f, "bad segment at byte {at}"),
            IdFault::BadEscape(at) => write!(f, "bad escape at byte {at}"),
            IdFault::TooLong => f.write_str("id is too long"),
            IdFault::Memory => f.write_str("out of memory"),
        }
    }
}

impl Error for IdFault {}

impl<T: Drop> From<AllocFailed<T>> for IdFault {
    ghost use Rattle.tk_ids.specs.declared.id_faults.IdFault.TheVariants.{Memory};

    ghost from_gives = { λ _ e. e ≡ Memory };

    fn from(_: AllocFailed<T>) -> IdFault {
        IdFault::Memory
    }
}

impl From<AllocError> for IdFault {
    ghost use Rattle.tk_ids.specs.declared.id_faults.IdFault.TheVariants.{Memory};

    ghost from_gives = { λ _ e. e ≡ Memory };

    fn from(_: AllocError) -> IdFault {
        IdFault::Memory
    }
}

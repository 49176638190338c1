//! Why a sender refuses an event or a registration.
ghost use Rattle.std.specs.Prelude.{◌≡◌, Some};
ghost use Rattle.tk_queue_session.specs.FaultTexts.{register_fault_text, send_fault_text};

use std::alloc::{AllocError, AllocFailed};
use std::error::Error;
use std::fmt;
use tk_events::Event;
use tk_ids::IdFault;

/// Why an event was not sent. Each variant has the event.
#[derive(Debug, Drop)]
pub enum SendFault {
    /// The event's key is neither a static descriptor's nor one that this sender registered.
    UnknownNode(Event),
    /// The event isn't lawful, or it is a registration.
    Unlawful(Event),
    /// The sender has emitted `MAX_EVENTS` events.
    Limit(Event),
    /// The queue held as many items as it may. Only `try_send` answers this.
    Full(Event),
}

impl fmt::Display for SendFault {
    ghost output = { λ fault. Some (send_fault_text fault) };

    fn fmt<W: fmt::Write>(&self, f: &mut fmt::Formatter<W>) -> fmt::Result {
        match self {
            SendFault::UnknownNode(event) => write!(f, "unknown key {}", event.key),
            SendFault::Unlawful(_) => f.write_str("event is unlawful"),
            SendFault::Limit(_) => f.write_str("event is one too many"),
            SendFault::Full(_) => f.write_str("queue is full"),
        }
    }
}

impl Error for SendFault {}

/// Why a descriptor was not registered.
#[derive(Clone, Copy, Debug, PartialEq, Eq)]
pub enum RegisterFault {
    /// The parent's key is neither a static descriptor's nor one that this sender registered.
    UnknownNode,
    /// The sender has emitted `MAX_EVENTS` events, or registered `MAX_DESCRIPTORS` descriptors.
    Limit,
    /// The parent's id can't have this segment appended.
    Id(IdFault),
    /// A request for memory was refused.
    Memory,
}

impl fmt::Display for RegisterFault {
    ghost output = { λ fault. Some (register_fault_text fault) };

    fn fmt<W: fmt::Write>(&self, f: &mut fmt::Formatter<W>) -> fmt::Result {
        match self {
            RegisterFault::UnknownNode => f.write_str("parent has an unknown key"),
            RegisterFault::Limit => f.write_str("registration is one too many"),
            RegisterFault::Id(fault) => write!(f, "{fault}"),
            RegisterFault::Memory => f.write_str("out of memory"),
        }
    }
}

impl Error for RegisterFault {}

impl<T: Drop> From<AllocFailed<T>> for RegisterFault {
    ghost use Rattle.tk_queue_session.specs.declared.sender_faults.RegisterFault.TheVariants.{Memory};

    ghost from_gives = { λ _ e. e ≡ Memory };

    fn from(_: AllocFailed<T>) -> RegisterFault {
        RegisterFault::Memory
    }
}

impl From<AllocError> for RegisterFault {
    ghost use Rattle.tk_queue_session.specs.declared.sender_faults.RegisterFault.TheVariants.{Memory};

    ghost from_gives = { λ _ e. e ≡ Memory };

    fn from(_: AllocError) -> RegisterFault {
        RegisterFault::Memory
    }
}

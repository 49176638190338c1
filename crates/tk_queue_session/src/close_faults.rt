//! Why a session is not closed.
ghost use Rattle.std.specs.Prelude.{Some};
ghost use Rattle.tk_queue_session.specs.FaultTexts.{close_reason_text};

use crate::receivers::Receiver;
use crate::senders::Ended;
use std::error::Error;
use std::fmt;

/// Why a session was not closed.
#[derive(Clone, Copy, Debug, PartialEq, Eq)]
pub enum CloseReason {
    /// The worker has no token.
    Missing(u8),
    /// The worker has more than one token.
    Twice(u8),
    /// The worker's end mark was not taken.
    NotDrained(u8),
}

impl fmt::Display for CloseReason {
    ghost output = { λ why. Some (close_reason_text why) };

    fn fmt<W: fmt::Write>(&self, f: &mut fmt::Formatter<W>) -> fmt::Result {
        match self {
            CloseReason::Missing(worker) => write!(f, "worker {worker} has no token"),
            CloseReason::Twice(worker) => write!(f, "worker {worker} has more than one token"),
            CloseReason::NotDrained(worker) => {
                write!(f, "worker {worker} has an end mark that was not taken")
            }
        }
    }
}

impl Error for CloseReason {}

/// What [`Receiver::close`] answers where it closed nothing: the reason, and all that it was given.
#[derive(Drop)]
pub struct CloseFault {
    /// Why the session was not closed.
    pub why: CloseReason,
    /// The receiver, unchanged.
    pub receiver: Receiver,
    /// The tokens, unchanged.
    pub ended: Vec<Ended>,
}

/// Shows the reason alone.
impl fmt::Debug for CloseFault {
    fn fmt<W: fmt::Write>(&self, f: &mut fmt::Formatter<W>) -> fmt::Result {
        write!(f, "CloseFault({:?})", self.why)
    }
}

impl fmt::Display for CloseFault {
    ghost output = { λ fault. Some (close_reason_text fault.why) };

    fn fmt<W: fmt::Write>(&self, f: &mut fmt::Formatter<W>) -> fmt::Result {
        write!(f, "{}", self.why)
    }
}

impl Error for CloseFault {}

//! A session in which several workers send events to one receiver, through a queue under a rule.
#![tactic(auto)]

mod close_faults;
mod cores;
mod items;
pub mod laws;
mod limits;
mod pushes;
mod receivers;
mod sender_faults;
mod senders;
mod session_rules;
mod sessions;
mod tokens;

pub use close_faults::{CloseFault, CloseReason};
pub use cores::{Core, CoreFault};
pub use items::Item;
pub use limits::MAX_CAPACITY;
pub use receivers::{Closed, Receiver};
pub use sender_faults::{RegisterFault, SendFault};
pub use senders::{Ended, Sender};
pub use sessions::{OpenFault, open};

//! What an engine emits: events of descriptors, and the workers that emit them.
#![tactic(auto)]

mod events;
mod fields;
mod kinds;
pub mod laws;
mod outcomes;
mod pairs;
mod payloads;
mod registrations;
mod statuses;

pub use events::{Entry, Event};
pub use fields::fmt_field;
pub use kinds::Kind;
pub use outcomes::Outcome;
pub use pairs::Pairs;
pub use payloads::Payload;
pub use registrations::{is_worker, registered_key};
pub use statuses::Status;

//! Whether a record keeps the lifecycle that a listener of an engine may rely on.
#![tactic(auto)]

mod key_states;
pub mod laws;
mod lifecycle_check;
mod lifecycle_rules;
mod progress;
mod registered_ids;

pub use lifecycle_check::lifecycle;
pub use lifecycle_rules::{Lifecycle, LifecycleRule};

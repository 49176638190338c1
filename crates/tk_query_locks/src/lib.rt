//! Whether executions that conflict over a lock kept away from each other.
#![tactic(auto)]

mod answers;
mod conflicts;
mod descent;
mod holders;
pub mod laws;
mod lock_numbers;
mod parents;
mod questions;
mod start_lists;

pub use answers::LockAnswer;
pub use questions::locks;

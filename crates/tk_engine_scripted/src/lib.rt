//! The engine of a plan, which emits the scripts of the plan's units.
#![tactic(auto)]

mod keys;
pub mod laws;
mod playing;
mod scripted;

pub use scripted::Scripted;

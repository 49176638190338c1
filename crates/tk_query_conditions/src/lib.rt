//! Conditions on events, and the reading and writing of their texts.
#![tactic(auto)]

mod conditions;
mod faults;
pub mod laws;
mod open_groups;
mod partial_texts;
mod readers;
mod reading;
mod words;
mod writing;

pub use conditions::Condition;
pub use faults::{CondFault, MAX_DEPTH};
pub use reading::read_condition;
pub use writing::write_condition;

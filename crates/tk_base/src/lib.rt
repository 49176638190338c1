//! What all crates share: the limits of workers and events, each stated once, and lemmas on lists,
//! options and truth values that std has not.
#![tactic(auto)]

pub mod laws;
mod limits;

pub use limits::{MAX_EVENTS, MAX_WORKERS};

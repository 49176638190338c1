//! Replays of the queue's core.
#![tactic(auto)]

pub mod laws;
mod lines;
mod replays;
mod texts;
mod turns;

pub use replays::{ReplayFault, Replayed, replay};
pub use texts::replay_text;
pub use turns::Turn;

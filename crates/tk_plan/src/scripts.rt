//! What the trees of a plan do: moves, steps with their stamps, events, and how many there are.

pub mod counts;
pub mod events;
pub mod moves;
pub mod steps;

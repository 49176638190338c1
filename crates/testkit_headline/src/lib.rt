//! The headline of README.md as one theorem, and as what the calls promise.
#![tactic(auto)]

pub mod laws;

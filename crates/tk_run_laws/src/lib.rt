//! What holds of every run of a plan, whoever ran its units and in whatever order.
#![tactic(auto)]

pub mod laws;

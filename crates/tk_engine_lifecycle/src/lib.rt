//! Every run of an engine keeps the lifecycle, if each of its units keeps it in a run of its own, no
//! id belongs to two units, and what stands around the units keeps it by itself.
#![tactic(auto)]

pub mod laws;

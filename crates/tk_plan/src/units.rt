//! How a plan is cut: its spine, its units, and what each unit needs.

pub mod cuttings;
pub mod needs;
pub mod spines;
pub mod unit_trees;

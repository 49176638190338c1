//! How a plan is cut into its spine and its units, and what each of them does.
#![tactic(auto)]

pub mod laws;
mod plans;
mod scripts;
mod trees;
mod units;

pub use plans::Plan;
pub use scripts::counts::count_events;
pub use scripts::steps::{Act, Step};
pub use trees::nodes::{Entries, Files, Node, NodeLocks, NumberedNode};
pub use units::needs::MAX_KEYS;
pub use units::unit_trees::UnitTree;

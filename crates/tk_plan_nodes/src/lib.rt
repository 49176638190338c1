//! Plans in code: a tree of nodes, and the JSON value that says the same.
//!
//! - What an author writes: `plan_nodes`, with its words in `modes`, and the numbers of bodies in
//!   `bodies`. Whether each body is called: `body_calls`; what may be wrong: `bodies_faults`.
//! - Its JSON value, for `build_plan`: `node_values`; lists of members in `json_members`, the words
//!   in `words`.
//! - The id of each node, for a fault of `build_plan`: `node_ids`.
#![tactic(auto)]

mod bodies;
mod bodies_faults;
mod body_calls;
mod json_members;
mod modes;
pub mod node_ids;
pub mod node_values;
mod plan_nodes;
mod words;

pub use bodies::Bodies;
pub use bodies_faults::BodiesFault;
pub use modes::ExecutionMode;
pub use plan_nodes::{PlanLock, PlanNode};

//! The nodes of a plan, read from their JSON value, and the faults of plans.
//!
//! - All nodes in preorder: `node_reading`, which drops the value of each as soon as it was read.
//! - One node: its members found in `node_members` and read in `node_fields`, its checks in
//!   `node_checks`.
//! - Where a node stands, and the value that stands for it: `node_inputs`.
//! - What is kept while reading: `read_nodes`, the segments of one parent's children in
//!   `siblings`, lock keys in `lock_keys`.
//! - The members of a node's JSON, each by itself: `members`.
//! - Faults: `faults`. A fault with the number of its node: `node_faults`.
//! - Limits: `limits`.
#![tactic(auto)]

mod faults;
mod limits;
mod lock_keys;
pub mod members;
mod node_checks;
mod node_faults;
mod node_fields;
mod node_inputs;
mod node_members;
pub mod node_reading;
pub mod read_nodes;
mod siblings;

pub use faults::PlanFault;
pub use limits::MAX_LEVELS;
pub use node_faults::NodeFault;

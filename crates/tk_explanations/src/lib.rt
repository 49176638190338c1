//! Explanations of the answers to questions about a record, as lines.
#![tactic(auto)]

mod causes;
mod collisions;
mod event_searches;
mod exactly;
mod explanations;
mod faults;
mod in_order;
pub mod laws;
mod lifecycles;
mod listed_events;
mod listed_executions;
mod lock_collisions;
mod loosely;
mod match_rows;
mod pieces;
mod rows;
mod sentence_texts;
mod sentences;
mod statistics;

pub use collisions::explain_exclusive;
pub use exactly::explain_exactly;
pub use faults::ExplainFault;
pub use in_order::explain_in_order;
pub use lifecycles::explain_lifecycle;
pub use listed_events::explain_list;
pub use listed_executions::explain_executions;
pub use lock_collisions::explain_locks;
pub use loosely::explain_loosely;
pub use statistics::{MAX_COUNTED_ROWS, add_mismatch, explain_statistics};

//! Questions about the events of a record: selections by a condition, matchers, executions, and
//! which of them overlap.
#![tactic(auto)]

mod answers;
mod exclusion;
mod execution;
mod execution_steps;
mod judging;
pub mod laws;
mod masks;
mod matching;
mod open_starts;
mod pairing;
mod rules;

pub use answers::{Exact, Exclusive, InOrder, Loose};
pub use exclusion::{ends_of, exclusive, fitting};
pub use execution::{ENDING_NAME, Ending, Execution, Executions};
pub use judging::{holds, holds_at};
pub use masks::select;
pub use matching::{find, first_fit, match_exactly, match_in_order, match_loosely};
pub use pairing::{ExecutionIter, executions};

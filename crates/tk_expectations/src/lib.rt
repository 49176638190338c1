//! Expectations of a record, as a chain of calls that a test makes. Each asks a question of the
//! program, and one that is not met says why.
#![tactic(auto)]

mod bad_texts;
mod descriptor_events;
mod expectations;
mod failed_runs;
mod failures;
mod lists;
mod report_differences;
mod uncounted_events;

pub use expectations::Expect;
pub use failures::{Failure, Unmet};
pub use lists::MAX_SHOWN_EVENTS;

//! The command line: what its words ask for, and why they are refused.
#![tactic(auto)]

mod arguments;
mod faults;
mod jobs;
mod parsing;

pub use arguments::{arguments_fault, collect_words};
pub use faults::CommandLineFault;
pub use jobs::{Job, RunOptions, RunOutput};
pub use parsing::job_of;

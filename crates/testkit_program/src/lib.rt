//! What the program does: its jobs, its faults with their lines, and its exit.
#![tactic(auto)]

mod exits;
mod faults;
mod jobs;
mod lines;

pub use exits::exit_code;
pub use faults::Fault;
pub use jobs::{do_job, perform};
pub use lines::FaultLine;

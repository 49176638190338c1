//! The report of a record: its statistics, and the events of each id, whoever emitted them and
//! whenever.
#![tactic(auto)]

mod grouping;
pub mod laws;
mod lines;
mod writing;

pub use writing::{Report, write_report_of};

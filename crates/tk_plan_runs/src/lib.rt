//! Runs of a plan from its bytes: the report of a run, and its record.
#![tactic(auto)]

mod fault_texts;
mod faults;
pub mod laws;
mod plan_runs;
mod reporting;

pub use fault_texts::ReportFaultText;
pub use faults::ReportFault;
pub use plan_runs::{DEFAULT_CAPACITY, PlanRun, run_plan};
pub use reporting::{plan_report, write_report, write_run_record};

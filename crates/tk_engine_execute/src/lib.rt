//! Engines, the sinks into which their units emit, and the run of an engine by one worker or by
//! several.
#![tactic(auto)]

mod engines;
mod failed_runs;
pub mod laws;
mod results;
mod run_faults;
mod runs;
mod sinks;
mod traits;
mod workers;

pub use engines::{Engine, MAX_UNITS, OUT_OF_ORDER, TWICE, UnitFault};
pub use failed_runs::FailedRun;
pub use results::Results;
pub use run_faults::RunFault;
pub use runs::{execute, execute_many, execute_with_record};
pub use sinks::{Sink, SinkFault};

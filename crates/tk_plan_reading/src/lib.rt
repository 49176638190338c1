//! Plans, read from JSON or built from nodes in code.
//!
//! - From bytes: `plan_reading`.
//! - From nodes in code: `plan_building`; what may be wrong with them: `build_faults`.
//! - What holds of all plans: `laws`.
#![tactic(auto)]

mod build_faults;
pub mod laws;
mod plan_building;
mod plan_reading;

pub use build_faults::BuildFault;
pub use plan_building::build_plan;
pub use plan_reading::read_plan;

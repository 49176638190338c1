//! The engine of a plan whose tests have bodies in Rust.
#![tactic(auto)]

mod causes;
mod clocks;
mod contexts;
mod engines;
mod hierarchical;
pub mod laws;
mod planned_units;
mod reporters;
mod runs;
mod tests;

pub use clocks::{EventClock, NoClock};
pub use contexts::Context;
pub use engines::Hierarchical;
pub use reporters::Reporter;
pub use runs::run_tests;
pub use tests::{Body, Tests};

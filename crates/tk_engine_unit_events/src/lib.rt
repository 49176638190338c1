//! What a unit emits.
//!
//! For engines by hand a constructor of each kind of event, and calls that emit one into a sink. For
//! engines of tests [`UnitEvents`], a sink that takes only what keeps the lifecycle.
#![tactic(auto)]

mod calls;
mod events;
mod leases;
mod running_keys;
mod shapes;
mod stacks;
mod unit_bodies;
mod unit_events;
mod unit_ids;
mod unit_runs;

pub use calls::{emit, finish, publish_file, register, report, skip, start};
pub use events::{file_published, finished, reported, skipped, started};
pub use leases::Lease;
pub use shapes::Shape;
pub use unit_bodies::UnitBody;
pub use unit_events::{Child, UnitEvents};
pub use unit_runs::UnitRun;

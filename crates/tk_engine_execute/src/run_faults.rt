//! Why a run has no record.

use crate::engines::UnitFault;

/// Why there is no record of a run.
///
/// Where several apply, `execute` answers the first of them. The two numbers are tested before
/// anything is done.
#[derive(Debug, Drop)]
pub enum RunFault {
    /// The number of workers isn't 1 to `MAX_WORKERS`.
    Workers,
    /// The capacity isn't 1 to `MAX_CAPACITY`.
    Capacity,
    /// The unit of this number failed with this fault. Where units of several workers failed, it is
    /// the one of the lowest worker.
    Engine(u32, UnitFault),
    /// A request for memory was refused.
    Memory,
    /// The thread of a worker was not started.
    Threads,
}

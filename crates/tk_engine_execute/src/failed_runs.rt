//! Runs that failed.
ghost use Rattle.std.specs.Prelude.{◌≡◌, None};

use crate::run_faults::RunFault;
use tk_queue_session::Closed;
use tk_record::Record;

/// A run that failed: why, and what was recorded until then.
///
/// The record has the events before the units, and of each worker the first of the events that it
/// emitted, in their order and each once. There is none where one of the two numbers was refused,
/// where memory was refused before the first thread was started, or where a worker has no thread.
#[derive(Drop)]
pub struct FailedRun {
    /// Why the run failed.
    pub fault: RunFault,
    /// The record so far.
    pub recorded: Option<Record>,
    /// How many events each worker emitted, where there is a record.
    pub closed: Option<Closed>,
    /// Whether the record has all that the workers emitted. Where memory was refused for an entry,
    /// it has nothing from this entry on.
    pub is_complete: bool,
}

impl FailedRun {
    /// Makes a run of which there is no record.
    pub(crate) fn without_record(fault: RunFault) -> FailedRun
        ensures fault { result.fault ≡ fault }
        ensures recorded { result.recorded ≡ None }
        ensures closed { result.closed ≡ None }
    {
        FailedRun {
            fault,
            recorded: None,
            closed: None,
            is_complete: false,
        }
    }

    /// Returns the fault alone.
    pub(crate) fn into_fault(self) -> RunFault
        ensures { result ≡ self.fault }
    {
        let FailedRun {
            fault,
            recorded: _,
            closed: _,
            is_complete: _,
        } = self;
        fault
    }
}

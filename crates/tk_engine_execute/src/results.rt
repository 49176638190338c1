//! The results of a run.
ghost use Rattle.std.specs.Prelude.{◌≡◌, IfOk};
ghost use Rattle.tk_record.specs.declared.selections.Selection.TheVariants.{Tests, Containers};
ghost use Rattle.tk_record.specs.Selections.{all_of, filtered_by, selects};
ghost use Rattle.tk_query_lifecycle.specs.Lifecycle.{IsLifecycle};
ghost use Rattle.tk_query_locks.specs.LockAnswers.{IsLockAnswer};
ghost use Rattle.tk_engine_execute.specs.Results.{RunResults};

use std::alloc::{AllocError, Global};
use std::marker::Model;
use tk_query_lifecycle::{Lifecycle, lifecycle};
use tk_query_locks::{LockAnswer, locks};
use tk_queue_session::Closed;
use tk_record::{Events, Record, Selection};

/// The results of a run: its record, and how many events each worker emitted.
///
/// JUnit: `EngineExecutionResults`.
#[derive(Drop)]
pub struct Results {
    record: Record,
    closed: Closed,
}

impl Model for Results {
    ghost use Rattle.tk_engine_execute.specs.Results.{RunResults};

    ghost Value = { RunResults };

    ghost view = { λ r. record { recorded = r.«record»; closed = r.closed } };
}

impl Results {
    /// Puts a record and the numbers of a closed session together.
    pub(crate) fn of(complete_record: Record, closed: Closed) -> Results
        ensures { result ≡ record { recorded = complete_record; closed = closed } }
    {
        Results {
            record: complete_record,
            closed,
        }
    }

    /// Returns the record of the run.
    pub fn recorded(&self) -> &Record
        ensures { result.now ≡ self.now.recorded }
    {
        &self.record
    }

    /// Returns how many events each worker emitted, as `Receiver::close` returned it.
    pub fn closed(&self) -> &Closed
        ensures { result.now ≡ self.now.closed }
    {
        &self.closed
    }

    /// Selects all events of the run. JUnit: `allEvents`.
    ///
    /// # Errors
    /// `AllocError` where a request for memory is refused.
    pub fn all_events(&self, alloc: Global) -> Result<Events<'_>, AllocError>
        ensures { IfOk result (λ events. events ≡ all_of self.now.recorded) }
    {
        Events::all(alloc, &self.record)
    }

    /// Selects the events of tests. JUnit: `testEvents`.
    ///
    /// # Errors
    /// `AllocError` where a request for memory is refused.
    pub fn test_events(&self, alloc: Global) -> Result<Events<'_>, AllocError>
        ensures { IfOk result (λ events.
            events
            ≡ filtered_by (selects Tests self.now.recorded) (all_of self.now.recorded)) }
    {
        self.all_events(alloc)?.pick(alloc, Selection::Tests)
    }

    /// Selects the events of containers. JUnit: `containerEvents`.
    ///
    /// # Errors
    /// `AllocError` where a request for memory is refused.
    pub fn container_events(&self, alloc: Global) -> Result<Events<'_>, AllocError>
        ensures { IfOk result (λ events.
            events
            ≡ filtered_by (selects Containers self.now.recorded) (all_of self.now.recorded)) }
    {
        self.all_events(alloc)?.pick(alloc, Selection::Containers)
    }

    /// Says whether the run keeps the lifecycle that a listener may rely on, and where it first
    /// doesn't.
    ///
    /// # Errors
    /// `AllocError` where a request for memory is refused.
    pub fn lifecycle(&self, alloc: Global) -> Result<Lifecycle, AllocError>
        ensures { IfOk result (IsLifecycle self.now.recorded) }
    {
        lifecycle(alloc, &self.record)
    }

    /// Says whether executions that conflict over a lock kept away from each other, and which first
    /// didn't. The table of the engine declares the locks.
    ///
    /// # Errors
    /// `AllocError` where a request for memory is refused.
    pub fn locks(&self, alloc: Global) -> Result<LockAnswer, AllocError>
        ensures { IfOk result (IsLockAnswer (all_of self.now.recorded)) }
    {
        let events = self.all_events(alloc)?;
        locks(alloc, &events)
    }
}

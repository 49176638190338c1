//! Executions, and how they ended.
ghost use Rattle.std.specs.Prelude.{◌≡◌, ◌==◌, ◌≤◌, length, filter, slice_get, IfOk};
ghost use Rattle.std.specs.Slice.Iter.{iter_rest};
ghost use Rattle.tk_query.specs.declared.execution.Ending.TheVariants.{Skipped, Aborted, Successful, Failed};
ghost use Rattle.tk_query.specs.AnswerTexts.{ending_name};
ghost use Rattle.tk_query.specs.Executions.{has_ending, has_started};
ghost use Rattle.tk_query.specs.declared.execution.TheConstants.{ENDING_NAME};

use std::alloc::{AllocError, Global};
use std::marker::Model;
use std::slice;

/// How an execution ended. JUnit: `TerminationInfo`.
#[derive(Clone, Copy, Debug, PartialEq, Eq)]
pub enum Ending {
    /// It was skipped, and never started.
    Skipped,
    /// It finished as aborted.
    Aborted,
    /// It finished successfully.
    Successful,
    /// It finished as failed.
    Failed,
}

/// How many bytes the name of an ending has at most.
pub const ENDING_NAME: usize = 9;

impl Ending {
    /// The word of the ending, as the program shows it.
    pub fn name(self) -> &'static str
        ensures name { result.now ≡ ending_name self }
        ensures length { length result.now ≤ ENDING_NAME }
    {
        match self {
            Ending::Skipped => "skipped",
            Ending::Aborted => "aborted",
            Ending::Successful => "succeeded",
            Ending::Failed => "failed",
        }
    }
}

/// A start and a finish of one key that belong together, or a skip. JUnit: `Execution`.
#[derive(Clone, Copy, Debug, PartialEq, Eq)]
pub struct Execution {
    /// The key of the descriptor that was executed or skipped.
    pub key: u32,
    /// How it ended.
    pub ending: Ending,
    /// The position of the start in the record, or of the skip.
    pub first: usize,
    /// The position of the finish in the record, or of the skip.
    pub last: usize,
    /// The stamp at the first position.
    pub start: u64,
    /// The stamp at the last position.
    pub stop: u64,
}

impl Execution {
    fn has(&self, ending: Ending) -> bool
        ensures { result ≡ has_ending ending self.now }
    {
        self.ending == ending
    }
}

/// Executions, in the order of their ends. JUnit: `Executions`.
#[derive(Debug, Drop)]
pub struct Executions {
    items: Vec<Execution>,
}

impl Model for Executions {
    ghost use Rattle.std.specs.Prelude.{List};
    ghost use Rattle.tk_query.specs.declared.execution.Execution.{Execution};

    ghost Value = { List Execution };

    ghost view = { λ e. e.items.items };
}

impl Executions {
    /// Makes executions of their list.
    pub(crate) fn of(items: Vec<Execution>) -> Executions
        ensures { result ≡ items.items }
    {
        Executions { items }
    }

    /// How many executions there are.
    pub fn len(&self) -> usize
        ensures { result ≡ length self.now }
    {
        self.items.len()
    }

    /// Whether there is no execution.
    pub fn is_empty(&self) -> bool
        ensures { result ≡ (length self.now == 0) }
    {
        self.items.is_empty()
    }

    /// Goes over the executions in the order of their ends.
    pub fn iter(&self) -> slice::Iter<'_, Execution>
        ensures { iter_rest result ≡ self.now }
    {
        self.items.iter()
    }

    /// The execution of this number, counted from 0.
    pub fn get(&self, index: usize) -> Option<Execution>
        ensures { result ≡ slice_get self.now index }
    {
        self.items.get(index).copied()
    }

    // Keeps the executions with an ending.
    fn ended(&self, alloc: Global, ending: Ending) -> Result<Executions, AllocError>
        ensures { IfOk result (λ kept. kept ≡ filter (has_ending ending) self.now) }
    {
        let items = self
            .items
            .iter()
            .filter(|x| x.has(ending))
            .copied()
            .collect(alloc)?;
        Ok(Executions { items })
    }

    /// Keeps the executions of a skip.
    ///
    /// # Errors
    /// `AllocError` where a request for memory is refused.
    pub fn skipped(&self, alloc: Global) -> Result<Executions, AllocError>
        ensures { IfOk result (λ kept. kept ≡ filter (has_ending Skipped) self.now) }
    {
        self.ended(alloc, Ending::Skipped)
    }

    /// Keeps the executions that started: all but those of a skip.
    ///
    /// # Errors
    /// `AllocError` where a request for memory is refused.
    pub fn started(&self, alloc: Global) -> Result<Executions, AllocError>
        ensures { IfOk result (λ kept. kept ≡ filter has_started self.now) }
    {
        let items = self
            .items
            .iter()
            .filter(|x| !x.has(Ending::Skipped))
            .copied()
            .collect(alloc)?;
        Ok(Executions { items })
    }

    /// Keeps the executions that finished: all but those of a skip.
    ///
    /// # Errors
    /// `AllocError` where a request for memory is refused.
    pub fn finished(&self, alloc: Global) -> Result<Executions, AllocError>
        ensures { IfOk result (λ kept. kept ≡ filter has_started self.now) }
    {
        self.started(alloc)
    }

    /// Keeps the executions that finished as aborted.
    ///
    /// # Errors
    /// `AllocError` where a request for memory is refused.
    pub fn aborted(&self, alloc: Global) -> Result<Executions, AllocError>
        ensures { IfOk result (λ kept. kept ≡ filter (has_ending Aborted) self.now) }
    {
        self.ended(alloc, Ending::Aborted)
    }

    /// Keeps the executions that finished successfully.
    ///
    /// # Errors
    /// `AllocError` where a request for memory is refused.
    pub fn succeeded(&self, alloc: Global) -> Result<Executions, AllocError>
        ensures { IfOk result (λ kept. kept ≡ filter (has_ending Successful) self.now) }
    {
        self.ended(alloc, Ending::Successful)
    }

    /// Keeps the executions that finished as failed.
    ///
    /// # Errors
    /// `AllocError` where a request for memory is refused.
    pub fn failed(&self, alloc: Global) -> Result<Executions, AllocError>
        ensures { IfOk result (λ kept. kept ≡ filter (has_ending Failed) self.now) }
    {
        self.ended(alloc, Ending::Failed)
    }
}

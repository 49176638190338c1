//! Whether executions that conflict kept away from each other.
ghost use Rattle.std.specs.Prelude.{◌≡◌, ℕ, ◌<◌, ◌+◌, true, false, if◌then◌else◌, IfOk, MatchOption, get_or, length};
ghost use Rattle.tk_query.specs.Exclusive.{IsExclusive};
ghost use Rattle.tk_query.specs.ExecutionSteps.{step_at};
ghost use Rattle.tk_query.specs.Fitting.{TellFits};
ghost use Rattle.tk_query.specs.Ends.{AreEnds, is_start};
ghost use Rattle.tk_query.specs.steps.Holders.{AreLastEnds, HasOther, HavePair, IsAnswerOf, IsFirstMet, MeetsNone, holds_any, is_written, meet};

use crate::answers::Exclusive;
use crate::masks::mask;
use crate::pairing::Pairing;
use std::alloc::{AllocError, Global};
use tk_lanes::Flags;
use tk_query_conditions::Condition;
use tk_record::Events;

/// Under the position of each start the number of entries of the record, and 0 elsewhere.
fn never_finished(alloc: Global, events: &Events) -> Result<Vec<usize>, AllocError>
    ensures size { IfOk result (λ ends. length ends.items ≡ length events.now.recorded.entries) }
    ensures ends { IfOk result (λ ends. (p : ℕ) → get_or ends.items p 0
        ≡ (if is_start events.now p then length events.now.recorded.entries else 0)) }
{
    // For the proof: no event stands past the end of the record.
    let _flags = events.flags();
    let len = events.record().len();
    let starts = fitting(alloc, events, &Condition::Started)?;
    let mut ends = vec![in alloc; 0; len]?;
    for start in 0..len {
        if starts.is_set(start) {
            ends[start] = len;
        }
    }
    Ok(ends)
}

/// Under the position of each start the end of its execution, and 0 elsewhere. The end is the
/// position of its finish or, where it never finishes, the number of entries of the record.
///
/// # Errors
/// `AllocError` where a request for memory is refused.
pub fn ends_of(alloc: Global, events: &Events) -> Result<Vec<usize>, AllocError>
    ensures { IfOk result (λ ends. AreEnds events.now ends.items) }
{
    // For the proof: no event stands past the end of the record.
    let _flags = events.flags();
    let mut pairing = Pairing::begin(alloc, events)?;
    let mut ends = never_finished(alloc, events)?;
    'executions: while let Some(execution) = pairing.next(events) {
        if execution.first < execution.last {
            ends[execution.first] = execution.last;
        }
    }
    Ok(ends)
}

/// Tells of which of the events the condition holds, with a flag for each entry of the record.
///
/// # Errors
/// `AllocError` where a request for memory is refused.
pub fn fitting(alloc: Global, events: &Events, condition: &Condition) -> Result<Flags, AllocError>
    ensures { IfOk result (TellFits events.now condition.now) }
{
    let record = events.record();
    prove!(events.flags().len() == record.len());
    let mut flags = mask(alloc, record, condition)?;
    flags.and(events.flags());
    Ok(flags)
}

/// The last ends of the executions that started so far, or 0.
#[derive(Clone, Copy)]
struct LastEnds {
    writers: usize,
    all: usize,
}

/// The executions of writers and readers, by the positions of their starts.
#[derive(Drop)]
struct Holders {
    ends: Vec<usize>,
    writers: Flags,
    readers: Flags,
}

impl Holders {
    /// Whether an execution that starts at `first`, and ends after `second`, conflicts with one
    /// that starts at `second`.
    fn meet(&self, first: usize, second: usize) -> bool
        requires first { first < length self.now.ends.items }
        requires second { second < length self.now.ends.items }
        ensures { result ≡ meet self.now first second }
    {
        second < self.ends[first]
            && 0 < self.ends[second]
            && (self.writers.is_set(first) && self.is_holder(second)
                || self.writers.is_set(second) && self.is_holder(first))
    }

    fn is_holder(&self, start: usize) -> bool
        ensures { result ≡ holds_any self.now start }
    {
        self.writers.is_set(start) || self.readers.is_set(start)
    }

    /// The first execution that conflicts with one that starts at `second`, and ends after it.
    fn first_met(&self, second: usize) -> Option<usize>
        requires { second < length self.now.ends.items }
        ensures { MatchOption result (MeetsNone self.now second) (IsFirstMet self.now second) }
    {
        for first in 0..second {
            if self.meet(first, second) {
                return Some(first);
            }
        }
        None
    }

    /// Whether an execution that starts here conflicts with one that has not ended.
    fn is_held(&self, last: LastEnds, start: usize) -> bool
        requires within { start < length self.now.ends.items }
        requires last { AreLastEnds self.now start last }
        ensures { result ≡ false → MeetsNone self.now start }
    {
        0 < self.ends[start]
            && (self.writers.is_set(start) && start < last.all
                || self.readers.is_set(start) && start < last.writers)
    }

    /// The last ends with that of the execution that starts here, where one does.
    fn with_start(&self, last: LastEnds, start: usize) -> LastEnds
        requires within { start < length self.now.ends.items }
        requires last { AreLastEnds self.now start last }
        ensures { AreLastEnds self.now (start + 1) result }
    {
        let end = self.ends[start];
        let mut next = last;
        if self.writers.is_set(start) {
            next.writers = next.writers.max(end);
        }
        if self.is_holder(start) {
            next.all = next.all.max(end);
        }
        next
    }

    /// The first execution of a writer.
    fn first_writer(&self) -> Option<usize>
        ensures { MatchOption result ((p : ℕ) → is_written self.now p ≡ false)
            (λ p. is_written self.now p ≡ true) }
    {
        for start in 0..self.ends.len() {
            if 0 < self.ends[start] && self.writers.is_set(start) {
                return Some(start);
            }
        }
        None
    }

    /// Whether there is an execution of a writer or a reader beside the one that starts at `writer`.
    fn has_other(&self, writer: usize) -> bool
        ensures some { result ≡ true → HasOther self.now writer }
        ensures none { result ≡ false → HasOther self.now writer → ⊥ }
    {
        for other in 0..self.ends.len() {
            if other != writer && 0 < self.ends[other] && self.is_holder(other) {
                return true;
            }
        }
        false
    }

    /// Whether two executions conflict.
    fn has_pair(&self) -> bool
        ensures some { result ≡ true → HavePair self.now }
        ensures none { result ≡ false → HavePair self.now → ⊥ }
    {
        match self.first_writer() {
            Some(writer) => self.has_other(writer),
            None => false,
        }
    }

    /// Goes over the starts in their order, up to the first that conflicts with an execution that
    /// has not ended.
    fn answer(&self) -> Exclusive
        ensures { IsAnswerOf self.now result }
    {
        let mut last = LastEnds { writers: 0, all: 0 };
        for second in 0..self.ends.len() {
            if self.is_held(last, second) {
                if let Some(first) = self.first_met(second) {
                    return Exclusive::No(first, second);
                }
            }
            last = self.with_start(last, second);
        }
        if self.has_pair() {
            Exclusive::Yes
        } else {
            Exclusive::NoPair
        }
    }
}

/// Whether executions that conflict kept away from each other; `NoPair` where none conflict.
///
/// An execution is a writer's, or a reader's, where that condition holds of its start. Two of them
/// conflict where one is a writer's and the other a writer's or a reader's; they overlap where each
/// starts before the other ends. An execution that never finishes lasts to the end of the record.
/// Skips are left out.
///
/// # Errors
/// `AllocError` where a request for memory is refused.
pub fn exclusive(
    alloc: Global,
    events: &Events,
    writers: &Condition,
    readers: &Condition,
) -> Result<Exclusive, AllocError>
    ensures { IfOk result (IsExclusive events.now writers.now readers.now) }
{
    let holders = Holders {
        ends: ends_of(alloc, events)?,
        writers: fitting(alloc, events, writers)?,
        readers: fitting(alloc, events, readers)?,
    };
    Ok(holders.answer())
}

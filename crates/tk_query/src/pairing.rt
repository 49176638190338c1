//! Starts and finishes that belong together.
ghost use Rattle.std.specs.Prelude.{◌≡◌, ℕ, ◌==◌, if◌then◌else◌, IfOk, slice_get};
ghost use Rattle.std.specs.Option.{option_and_then};
ghost use Rattle.std.specs.Iterator.{YieldsFirst, item_count};
ghost use Rattle.tk_query.specs.ExecutionSteps.{step_at, step_of};
ghost use Rattle.tk_query.specs.Executions.{AreExecutions};
ghost use Rattle.tk_query.specs.Pairing.{ended_by, open_of, opened_by, rest_of, HasSlot, HaveSlots};

use crate::execution::{Ending, Execution, Executions};
use crate::execution_steps::{ExecutionStep, Transition, step_of};
use crate::open_starts::OpenStarts;
use std::alloc::{AllocError, Global};
use std::marker::Model;
use tk_record::{Events, Record};

/// The execution that a step ends, where `started` is the open start of its key.
fn ended_by(
    step: ExecutionStep,
    position: usize,
    started: Option<(usize, u64)>,
) -> Option<Execution>
    ensures { result ≡ ended_by step position started }
{
    let (first, start, ending) = match (step.transition, started) {
        (Transition::Skips, _) => (position, step.stamp, Ending::Skipped),
        (Transition::Ends(ending), Some((first, start))) => (first, start, ending),
        _ => return None,
    };
    Some(Execution {
        key: step.key,
        first,
        last: position,
        start,
        stop: step.stamp,
        ending,
    })
}

/// The start that a step leaves open, with its position and its stamp.
fn opened_by(step: ExecutionStep, position: usize) -> Option<(usize, u64)>
    ensures { result ≡ opened_by step position }
{
    match step.transition {
        Transition::Starts => Some((position, step.stamp)),
        _ => None,
    }
}

/// Takes a step at a position, and gives the execution that it ends. `starts` has the open starts.
fn take_step(starts: &mut OpenStarts, step: ExecutionStep, position: usize) -> Option<Execution>
    requires { HasSlot starts.old step.key }
    ensures ended { result ≡ ended_by step position (open_of starts.old step.key) }
    ensures starts { (q : ℕ) → open_of starts.new q
        ≡ (if step.key == q then opened_by step position else open_of starts.old q) }
    ensures slots { (q : ℕ) → HasSlot starts.old q → HasSlot starts.new q }
{
    let started = starts.replace(step.key, opened_by(step, position));
    ended_by(step, position, started)
}

/// What the entry at a position does to executions.
fn step_at(record: &Record, position: usize) -> Option<ExecutionStep>
    ensures { result ≡ option_and_then step_of (slice_get «record».now.entries position) }
{
    match record.entry(position) {
        Some(event) => step_of(&event),
        None => None,
    }
}

/// How far starts and finishes were paired: the starts that are open, and the next position.
#[derive(Drop)]
pub(crate) struct Pairing {
    starts: OpenStarts,
    next: usize,
}

impl Pairing {
    /// Begins at the first of the events.
    pub(crate) fn begin(alloc: Global, events: &Events) -> Result<Pairing, AllocError>
        ensures slots { IfOk result (λ p. HaveSlots events.now.recorded p.starts) }
        ensures all { IfOk result (λ p. AreExecutions (step_at events.now) (rest_of events.now p)) }
    {
        // For the proof: no event stands past the end of the record.
        let _flags = events.flags();
        Ok(Pairing {
            starts: OpenStarts::for_record(alloc, events.record())?,
            next: 0,
        })
    }

    /// Gives the next of the executions that the events show.
    pub(crate) fn next(&mut self, events: &Events) -> Option<Execution>
        requires { HaveSlots events.now.recorded self.old.starts }
        ensures slots { HaveSlots events.now.recorded self.new.starts }
        ensures next { YieldsFirst (rest_of events.now) self.old result self.new }
    {
        'events: while let Some(position) = events.flags().first_from(self.next) {
            self.next = position + 1;
            let Some(step) = step_at(events.record(), position) else {
                continue;
            };
            let ended = take_step(&mut self.starts, step, position);
            if ended.is_some() {
                return ended;
            }
        }
        None
    }
}

/// The executions that are still to come, in the order of their ends. A contract sees them as a
/// list.
///
/// The iterator had all its memory when it was made, so that no step is refused.
#[derive(Drop)]
pub struct ExecutionIter<'r> {
    events: Events<'r>,
    pairing: Pairing,
}

impl<'r> Model for ExecutionIter<'r> {
    ghost use Rattle.std.specs.Prelude.{List};
    ghost use Rattle.tk_query.specs.declared.execution.Execution.{Execution};
    ghost use Rattle.tk_query.specs.Pairing.{rest_of, HaveSlots};

    ghost Value = { List Execution };

    ghost view = { λ i. rest_of i.events i.pairing };

    ghost invariant = { λ i. HaveSlots i.events.recorded i.pairing.starts };
}

impl<'r> ExecutionIter<'r> {
    /// Begins with the first of the executions that the events show.
    ///
    /// # Errors
    /// `AllocError` where a request for memory is refused.
    pub fn new(alloc: Global, events: Events<'r>) -> Result<ExecutionIter<'r>, AllocError>
        ensures { IfOk result (AreExecutions (step_at events.entry)) }
    {
        let pairing = Pairing::begin(alloc, &events)?;
        Ok(ExecutionIter { events, pairing })
    }
}

impl<'r> Iterator for ExecutionIter<'r> {
    type Item = Execution;

    ghost next_gives = { YieldsFirst (λ i. i) };

    ghost remaining = { item_count (λ i. i) };

    fn next(&mut self) -> Option<Execution> {
        self.pairing.next(&self.events)
    }
}

/// The executions that the events show.
///
/// # Errors
/// `AllocError` where a request for memory is refused.
pub fn executions(alloc: Global, events: &Events) -> Result<Executions, AllocError>
    ensures { IfOk result (λ list. AreExecutions (step_at events.now) list) }
{
    let mut pairing = Pairing::begin(alloc, events)?;
    let mut items = Vec::new(alloc);
    'executions: while let Some(execution) = pairing.next(events) {
        items.push(execution)?;
    }
    Ok(Executions::of(items))
}

//! Why executions that conflict over a lock did not keep away from each other.
ghost use Rattle.std.specs.Prelude.{◌≡◌, ◌++◌, ◌∷◌, [], true, count_by, slice_get, IfOk, OnOk, IsErrOf};
ghost use Rattle.tk_query_locks.specs.LockAnswers.{IsLockAnswer};
ghost use Rattle.tk_record.specs.Entries.{desc};
ghost use Rattle.tk_explanations.specs.Explained.{IsExplained};
ghost use Rattle.tk_explanations.specs.LockCollisions.{AreLockRows, ExplainsLocks, IsLockExplanation, has_lock, holding_count, holding_row, holds_lock};
ghost use Rattle.tk_explanations.specs.steps.{AddsRows};

use crate::collisions::{add_overlap, starting_at_both};
use crate::explanations::Explanation;
use crate::faults::ExplainFault;
use crate::rows::Row;
use std::alloc::{AllocError, Global};
use tk_ids::Text;
use tk_query_locks::{LockAnswer, locks};
use tk_record::{Events, Record};
use tk_streams::Target;

// Whether a key has a descriptor that holds a lock.
fn has_lock(record: &Record, key: u32) -> bool
    ensures { result ≡ has_lock (desc «record».now key) }
{
    match record.describe(key) {
        Some(descriptor) => !descriptor.locks.is_empty(),
        None => false,
    }
}

// Whether the event at a position is of a key that holds a lock.
fn holds_lock(record: &Record, position: usize) -> bool
    ensures { result ≡ holds_lock «record».now (slice_get «record».now.entries position) }
{
    match record.entry(position) {
        Some(view) => has_lock(record, view.key),
        None => false,
    }
}

// How many of the events at these positions are of a key that holds a lock.
fn count_holding(record: &Record, starts: &[usize]) -> usize
    ensures { result ≡ count_by (λ p. holds_lock «record».now
        (slice_get «record».now.entries p)) starts.now }
{
    starts
        .iter()
        .filter(|start| holds_lock(record, **start))
        .count()
}

// How many of the executions hold a lock.
fn count_executions(alloc: Global, events: &Events<'_>) -> Result<usize, AllocError>
    ensures { IfOk result (λ number. number ≡ holding_count events.now) }
{
    let starts = events.started(alloc)?.positions(alloc)?;
    Ok(count_holding(events.record(), starts.as_slice()))
}

// Adds how many of the executions hold a lock.
fn add_holding(alloc: Global, rows: &mut Vec<Row>, events: &Events<'_>) -> Result<(), AllocError>
    ensures { OnOk result (rows.new.items ≡ rows.old.items ++ holding_row events.now ∷ []) }
{
    let number = count_executions(alloc, events)?;
    let text = format!(in alloc; "{number} executions hold a lock")?;
    rows.push(Row::Line(Text::from(text)))?;
    Ok(())
}

// Adds what is said below the answer.
fn add_below(
    alloc: Global,
    rows: &mut Vec<Row>,
    events: &Events<'_>,
    answer: &LockAnswer,
) -> Result<(), AllocError>
    requires { IsLockAnswer events.now answer.now }
    ensures { OnOk result (AddsRows (AreLockRows events.now answer.now)
        rows.old.items rows.new.items) }
{
    match answer {
        LockAnswer::Yes => Ok(()),
        LockAnswer::No(first, second, name) => {
            let (one, other) = starting_at_both(alloc, events, *first, *second)?;
            let overlap = Row::OverlapOver(one, other, name.try_clone()?);
            add_overlap(rows, events, one, other, overlap)
        }
        LockAnswer::NoPair => add_holding(alloc, rows, events),
    }
}

fn explain(alloc: Global, events: &Events<'_>) -> Result<Explanation, AllocError>
    ensures { IfOk result (λ explanation.
        IsLockExplanation events.now explanation.is_yes explanation.rows.items) }
{
    let answer = locks(alloc, events)?;
    let text = format!(in alloc; "{answer}")?;
    let mut explanation = Explanation::new(alloc, answer.is_yes(), text)?;
    add_below(alloc, &mut explanation.rows, events, &answer)?;
    Ok(explanation)
}

/// Writes whether executions that conflict over a lock kept away from each other, as [`locks`]
/// answers it. Below a no stand the two executions that overlap, the lock, and their starts and
/// finishes. Where no two conflict, it stands below how many executions hold a lock.
///
/// # Errors
/// `Memory` where a request for memory is refused, and `Device` where the target broke.
pub fn explain_locks<T: Target>(
    alloc: Global,
    events: &Events<'_>,
    target: &mut T,
) -> Result<bool, ExplainFault>
    ensures written { IsExplained (ExplainsLocks events.now)
        (T.contents target.old) (T.contents target.new) result }
    ensures unwritten { IsErrOf result ExplainFault.Memory → target.new ≡ target.old }
    ensures device { IsErrOf result ExplainFault.Device → T.broken target.new ≡ true }
{
    let explanation = explain(alloc, events)?;
    explanation.write(events.record(), target)
}

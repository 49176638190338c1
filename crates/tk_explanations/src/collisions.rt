//! Why executions that conflict did not keep away from each other.
ghost use Rattle.std.specs.Prelude.{◌≡◌, ◌++◌, true, get_or, IfOk, OnOk, IsErrOf};
ghost use Rattle.tk_query_conditions.specs.CondOf.{cond_of};
ghost use Rattle.tk_query.specs.Ends.{is_start};
ghost use Rattle.tk_query.specs.Exclusive.{IsExclusive};
ghost use Rattle.tk_explanations.specs.Explained.{IsExplained};
ghost use Rattle.tk_explanations.specs.Collisions.{AreCollisionRows, ExplainsExclusive, IsExclusiveExplanation, StartsAt, finish_rows, held_rows, holder_rows, names_some, overlap_rows, writers_said};
ghost use Rattle.tk_explanations.specs.steps.{AddsRows};

use crate::explanations::Explanation;
use crate::faults::ExplainFault;
use crate::match_rows::add_condition;
use crate::rows::{Note, Row, Span, Writers};
use std::alloc::{AllocError, Global};
use tk_query::{Exclusive, ends_of, exclusive, fitting, select};
use tk_query_conditions::Condition;
use tk_record::Events;
use tk_streams::Target;

// The execution that starts at a position, by where each ends.
fn span_at(ends: &[usize], start: usize) -> Span
    ensures { result ≡ record { start = start; end = get_or ends.now start 0 } }
{
    let end = ends.get(start).copied().unwrap_or(0);
    Span { start, end }
}

/// The executions that start at these positions.
///
/// # Errors
/// `AllocError` where a request for memory is refused.
pub(crate) fn starting_at_both(
    alloc: Global,
    events: &Events<'_>,
    first: usize,
    second: usize,
) -> Result<(Span, Span), AllocError>
    requires first { is_start events.now first ≡ true }
    requires second { is_start events.now second ≡ true }
    ensures { IfOk result (λ both.
        StartsAt events.now first both.0 × StartsAt events.now second both.1) }
{
    let ends = ends_of(alloc, events)?;
    Ok((
        span_at(ends.as_slice(), first),
        span_at(ends.as_slice(), second),
    ))
}

// Adds the row of the finish at which an execution ends, where it finishes.
fn add_finish(rows: &mut Vec<Row>, events: &Events<'_>, end: usize) -> Result<(), AllocError>
    ensures { OnOk result (rows.new.items
        ≡ rows.old.items ++ finish_rows events.now.recorded end) }
{
    if events.record().len() <= end {
        return Ok(());
    }
    rows.push(Row::Event(end, Note::Nothing))?;
    Ok(())
}

/// Adds the row that two executions overlap, and the rows of their starts and finishes.
///
/// # Errors
/// `AllocError` where a request for memory is refused.
pub(crate) fn add_overlap(
    rows: &mut Vec<Row>,
    events: &Events<'_>,
    first: Span,
    second: Span,
    overlap: Row,
) -> Result<(), AllocError>
    ensures { OnOk result (rows.new.items
        ≡ rows.old.items ++ overlap_rows events.now.recorded first second overlap) }
{
    rows.push(overlap)?;
    rows.push(Row::Event(first.start, Note::Nothing))?;
    rows.push(Row::Event(second.start, Note::Nothing))?;
    add_finish(rows, events, first.end.min(second.end))?;
    add_finish(rows, events, first.end.max(second.end))
}

// Whether a condition of readers stands: any but `any()`, which holds of no event.
fn names_some(readers: &Condition) -> bool
    ensures { result ≡ names_some (cond_of readers.now) }
{
    match readers {
        Condition::Any(members) => !members.is_empty(),
        _ => true,
    }
}

// What is said of which of the executions that start at these positions are writers'.
fn writers_said(
    alloc: Global,
    events: &Events<'_>,
    writers: &Condition,
    readers: &Condition,
    first: usize,
    second: usize,
) -> Result<Writers, AllocError>
    ensures { IfOk result (λ said.
        said ≡ writers_said events.now writers.now readers.now first second) }
{
    if !names_some(readers) {
        return Ok(Writers::Unsaid);
    }
    let flags = fitting(alloc, events, writers)?;
    match (flags.is_set(first), flags.is_set(second)) {
        (true, true) => Ok(Writers::Both),
        (true, false) => Ok(Writers::First),
        (false, _) => Ok(Writers::Second),
    }
}

// Adds the row of a condition, and of how many executions it holds at the start.
fn add_held(
    alloc: Global,
    rows: &mut Vec<Row>,
    events: &Events<'_>,
    number: usize,
    condition: &Condition,
) -> Result<(), AllocError>
    ensures { OnOk result (rows.new.items
        ≡ rows.old.items ++ held_rows events.now number condition.now) }
{
    let held = select(alloc, &events.started(alloc)?, condition)?;
    add_condition(rows, alloc, number, condition)?;
    rows.push(Row::Executions(held.count()))?;
    Ok(())
}

// Adds of how many executions each condition holds at the start.
fn add_holders(
    alloc: Global,
    rows: &mut Vec<Row>,
    events: &Events<'_>,
    writers: &Condition,
    readers: &Condition,
) -> Result<(), AllocError>
    ensures { OnOk result (rows.new.items
        ≡ rows.old.items ++ holder_rows events.now writers.now readers.now) }
{
    add_held(alloc, rows, events, 0, writers)?;
    if names_some(readers) {
        add_held(alloc, rows, events, 1, readers)?;
    }
    Ok(())
}

// Adds what is said below the answer.
fn add_below(
    alloc: Global,
    rows: &mut Vec<Row>,
    events: &Events<'_>,
    writers: &Condition,
    readers: &Condition,
    answer: Exclusive,
) -> Result<(), AllocError>
    requires { IsExclusive events.now writers.now readers.now answer }
    ensures { OnOk result (AddsRows (AreCollisionRows events.now writers.now readers.now answer)
        rows.old.items rows.new.items) }
{
    match answer {
        Exclusive::Yes => Ok(()),
        Exclusive::No(first, second) => {
            let said = writers_said(alloc, events, writers, readers, first, second)?;
            let (one, other) = starting_at_both(alloc, events, first, second)?;
            let overlap = Row::Overlap(one, other, said);
            add_overlap(rows, events, one, other, overlap)
        }
        Exclusive::NoPair => add_holders(alloc, rows, events, writers, readers),
    }
}

fn explain(
    alloc: Global,
    events: &Events<'_>,
    writers: &Condition,
    readers: &Condition,
) -> Result<Explanation, AllocError>
    ensures { IfOk result (λ explanation. IsExclusiveExplanation events.now writers.now readers.now
        explanation.is_yes explanation.rows.items) }
{
    let found = exclusive(alloc, events, writers, readers)?;
    let text = format!(in alloc; "{found}")?;
    let mut explanation = Explanation::new(alloc, found.is_yes(), text)?;
    add_below(
        alloc,
        &mut explanation.rows,
        events,
        writers,
        readers,
        found,
    )?;
    Ok(explanation)
}

/// Writes whether executions that conflict kept away from each other, as [`exclusive`] answers it.
/// Below a no stand the two executions that overlap, which of them are writers', and their starts
/// and finishes. Where no two conflict, it stands below of how many executions each condition holds
/// at the start. Of readers nothing is said where their condition is `any()`, which holds of no
/// event.
///
/// # Errors
/// `Memory` where a request for memory is refused, and `Device` where the target broke.
pub fn explain_exclusive<T: Target>(
    alloc: Global,
    events: &Events<'_>,
    writers: &Condition,
    readers: &Condition,
    target: &mut T,
) -> Result<bool, ExplainFault>
    ensures written { IsExplained (ExplainsExclusive events.now writers.now readers.now)
        (T.contents target.old) (T.contents target.new) result }
    ensures unwritten { IsErrOf result ExplainFault.Memory → target.new ≡ target.old }
    ensures device { IsErrOf result ExplainFault.Device → T.broken target.new ≡ true }
{
    let explanation = explain(alloc, events, writers, readers)?;
    explanation.write(events.record(), target)
}

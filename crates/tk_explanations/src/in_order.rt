//! Why conditions hold in turn, each at a later event than the one before it, or why not.
ghost use Rattle.std.specs.Prelude.{◌≡◌, ◌≤◌, ◌++◌, true, length, IfOk, OnOk, IsErrOf};
ghost use Rattle.std.specs.Option.{ForSome};
ghost use Rattle.tk_query_conditions.specs.declared.conditions.Condition.{Condition};
ghost use Rattle.tk_query.specs.Asked.{fits};
ghost use Rattle.tk_query.specs.InOrder.{CanHoldInTurn, IsFirstStuck, IsLeastInTurn};
ghost use Rattle.tk_query.specs.Matches.{IsInOrder};
ghost use Rattle.tk_explanations.specs.Explained.{IsExplained};
ghost use Rattle.tk_explanations.specs.steps.{AddsRows};
ghost use Rattle.tk_explanations.specs.Matches.{AreInOrderRows, AreStuckRows, ExplainsInOrder, IsInOrderExplanation, IsLastFit, after, early_rows, last_of};

use crate::explanations::Explanation;
use crate::faults::ExplainFault;
use crate::match_rows::{add_condition, add_found, add_nearest};
use crate::rows::{Note, Row};
use std::alloc::{AllocError, Global};
use tk_query::{InOrder, find, match_in_order};
use tk_query_conditions::Condition;
use tk_query_nearest::nearest;
use tk_record::Events;
use tk_streams::Target;

// The positions at which conditions hold in turn, where there are some.
fn positions_in_turn(
    alloc: Global,
    events: &Events<'_>,
    conditions: &[Condition],
) -> Result<Vec<usize>, AllocError>
    requires { CanHoldInTurn (fits events.now) conditions.now }
    ensures { IfOk result (λ found. IsLeastInTurn (fits events.now) conditions.now found.items) }
{
    let InOrder::Yes(positions) = match_in_order(alloc, events, conditions)? else {
        unreachable!()
    };
    Ok(positions)
}

// The position after one at which an event stands of which a condition holds, or 0.
fn after(events: &Events<'_>, found: Option<usize>) -> usize
    requires { ForSome found (λ p. (c : Condition) × (fits events.now c p ≡ true)) }
    ensures value { result ≡ after found }
    ensures within { result ≤ length events.now.recorded.entries }
{
    let _flags = events.flags();
    let _len = events.record().len();
    match found {
        Some(position) => position + 1,
        None => 0,
    }
}

// The position of the last event of which the condition holds.
fn last_fit(events: &Events<'_>, condition: &Condition) -> Option<usize>
    ensures { IsLastFit events.now condition.now result }
{
    let mut last = None;
    let mut low = 0;
    'fits: while let Some(position) = find(events, condition, low) {
        last = Some(position);
        low = after(events, last);
    }
    last
}

// Adds the row of an event of which a condition holds, but which is not after the last one found.
fn add_early(
    rows: &mut Vec<Row>,
    found: Option<usize>,
    early: Option<usize>,
) -> Result<(), AllocError>
    ensures { OnOk result (rows.new.items ≡ rows.old.items ++ early_rows found early) }
{
    let (Some(found), Some(early)) = (found, early) else {
        return Ok(());
    };
    rows.push(Row::Event(early, Note::NotAfter(found)))?;
    Ok(())
}

fn add_stuck(
    rows: &mut Vec<Row>,
    alloc: Global,
    events: &Events<'_>,
    conditions: &[Condition],
    number: usize,
) -> Result<(), AllocError>
    requires { IsFirstStuck (fits events.now) conditions.now number }
    ensures { OnOk result (AddsRows (AreStuckRows events.now conditions.now number)
        rows.old.items rows.new.items) }
{
    let condition = &conditions[number];
    let found = positions_in_turn(alloc, events, &conditions[..number])?;
    let last_found = found.as_slice().last().copied();
    let near = nearest(events, after(events, last_found), condition);
    add_found(rows, alloc, conditions, found.as_slice())?;
    add_condition(rows, alloc, number, condition)?;
    add_early(rows, last_found, last_fit(events, condition))?;
    add_nearest(rows, alloc, events.record(), condition, &near)
}

fn add_below(
    rows: &mut Vec<Row>,
    alloc: Global,
    events: &Events<'_>,
    conditions: &[Condition],
    answer: &InOrder,
) -> Result<(), AllocError>
    requires { IsInOrder events.now conditions.now answer.now }
    ensures { OnOk result (AddsRows (AreInOrderRows events.now conditions.now answer.now)
        rows.old.items rows.new.items) }
{
    match answer {
        InOrder::Yes(positions) => add_found(rows, alloc, conditions, positions.as_slice()),
        InOrder::No(number) => add_stuck(rows, alloc, events, conditions, *number),
    }
}

fn explain(
    alloc: Global,
    events: &Events<'_>,
    conditions: &[Condition],
) -> Result<Explanation, AllocError>
    ensures { IfOk result (λ explanation. IsInOrderExplanation events.now conditions.now
        explanation.is_yes explanation.rows.items) }
{
    let answer = match_in_order(alloc, events, conditions)?;
    let text = format!(in alloc; "{answer}")?;
    let mut explanation = Explanation::new(alloc, answer.is_yes(), text)?;
    add_below(&mut explanation.rows, alloc, events, conditions, &answer)?;
    Ok(explanation)
}

/// Writes whether conditions hold in turn, as [`match_in_order`] answers it.
///
/// Below a yes stands each condition with the event found for it. Below a no stand these up to the
/// first condition for which there is none, the last event of which that one holds, and the events
/// nearest to it.
///
/// # Errors
/// `Memory` where a request for memory is refused, and `Device` where the target broke.
pub fn explain_in_order<T: Target>(
    alloc: Global,
    events: &Events<'_>,
    conditions: &[Condition],
    target: &mut T,
) -> Result<bool, ExplainFault>
    ensures written { IsExplained (ExplainsInOrder events.now conditions.now)
        (T.contents target.old) (T.contents target.new) result }
    ensures unwritten { IsErrOf result ExplainFault.Memory → target.new ≡ target.old }
    ensures device { IsErrOf result ExplainFault.Device → T.broken target.new ≡ true }
{
    let explanation = explain(alloc, events, conditions)?;
    explanation.write(events.record(), target)
}

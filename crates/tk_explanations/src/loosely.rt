//! Why each condition holds of some event, or why not.
ghost use Rattle.std.specs.Prelude.{◌≡◌, ◌++◌, ℕ, true, List, IfOk, OnOk, IsErrOf};
ghost use Rattle.tk_query.specs.Asked.{fits};
ghost use Rattle.tk_query.specs.InOrder.{IsNextFit};
ghost use Rattle.tk_query.specs.Matches.{IsFirstNowhere, IsLoose};
ghost use Rattle.tk_query.specs.declared.answers.Loose.TheVariants.{Yes, No};
ghost use Rattle.tk_explanations.specs.Explained.{IsExplained};
ghost use Rattle.tk_explanations.specs.steps.{AddsRows};
ghost use Rattle.tk_explanations.specs.Matches.{AreFirstFits, AreLooseRows, ExplainsLoosely, IsLooseExplanation};

use crate::explanations::Explanation;
use crate::faults::ExplainFault;
use crate::match_rows::{add_condition, add_found, add_nearest};
use crate::rows::Row;
use std::alloc::{AllocError, Global};
use tk_query::{Loose, first_fit, match_loosely};
use tk_query_conditions::Condition;
use tk_query_nearest::nearest;
use tk_record::Events;
use tk_streams::Target;

// The position of the first event of which the condition holds, where there is one.
fn first_position(
    alloc: Global,
    events: &Events<'_>,
    condition: &Condition,
) -> Result<usize, AllocError>
    requires { (p : ℕ) × (fits events.now condition.now p ≡ true) }
    ensures { IfOk result (IsNextFit (fits events.now) condition.now 0) }
{
    let Some(position) = first_fit(alloc, events, condition)? else {
        unreachable!()
    };
    Ok(position)
}

// The position of the first event for each condition, where each holds of some event.
fn first_positions(
    alloc: Global,
    events: &Events<'_>,
    conditions: &[Condition],
) -> Result<Vec<usize>, AllocError>
    requires { IsLoose events.now conditions.now Yes }
    ensures { IfOk result (λ found. AreFirstFits events.now conditions.now found.items) }
{
    let mut found = Vec::new(alloc);
    for condition in conditions {
        let position = first_position(alloc, events, condition)?;
        found.push(position)?;
    }
    Ok(found)
}

fn add_found_first(
    rows: &mut Vec<Row>,
    alloc: Global,
    events: &Events<'_>,
    conditions: &[Condition],
) -> Result<(), AllocError>
    requires { IsLoose events.now conditions.now Yes }
    ensures { OnOk result (AddsRows (AreLooseRows events.now conditions.now Yes)
        rows.old.items rows.new.items) }
{
    let found = first_positions(alloc, events, conditions)?;
    add_found(rows, alloc, conditions, found.as_slice())
}

fn add_missing(
    rows: &mut Vec<Row>,
    alloc: Global,
    events: &Events<'_>,
    conditions: &[Condition],
    number: usize,
) -> Result<(), AllocError>
    requires { IsFirstNowhere events.now conditions.now number }
    ensures { OnOk result (AddsRows (AreLooseRows events.now conditions.now (No number))
        rows.old.items rows.new.items) }
{
    let condition = &conditions[number];
    add_condition(rows, alloc, number, condition)?;
    let near = nearest(events, 0, condition);
    add_nearest(rows, alloc, events.record(), condition, &near)
}

fn add_below(
    rows: &mut Vec<Row>,
    alloc: Global,
    events: &Events<'_>,
    conditions: &[Condition],
    answer: Loose,
) -> Result<(), AllocError>
    requires { IsLoose events.now conditions.now answer }
    ensures { OnOk result (AddsRows (AreLooseRows events.now conditions.now answer)
        rows.old.items rows.new.items) }
{
    match answer {
        Loose::Yes => add_found_first(rows, alloc, events, conditions),
        Loose::No(number) => add_missing(rows, alloc, events, conditions, number),
    }
}

fn explain(
    alloc: Global,
    events: &Events<'_>,
    conditions: &[Condition],
) -> Result<Explanation, AllocError>
    ensures { IfOk result (λ explanation. IsLooseExplanation events.now conditions.now
        explanation.is_yes explanation.rows.items) }
{
    let answer = match_loosely(alloc, events, conditions)?;
    let text = format!(in alloc; "{answer}")?;
    let mut explanation = Explanation::new(alloc, answer.is_yes(), text)?;
    add_below(&mut explanation.rows, alloc, events, conditions, answer)?;
    Ok(explanation)
}

/// Writes whether each condition holds of some event, as [`match_loosely`] answers it.
///
/// Below a yes stands for each condition the first event of which it holds, below a no the first
/// condition that holds of none, and the nearest events.
///
/// # Errors
/// `Memory` where a request for memory is refused, and `Device` where the target broke.
pub fn explain_loosely<T: Target>(
    alloc: Global,
    events: &Events<'_>,
    conditions: &[Condition],
    target: &mut T,
) -> Result<bool, ExplainFault>
    ensures written { IsExplained (ExplainsLoosely events.now conditions.now)
        (T.contents target.old) (T.contents target.new) result }
    ensures unwritten { IsErrOf result ExplainFault.Memory → target.new ≡ target.old }
    ensures device { IsErrOf result ExplainFault.Device → T.broken target.new ≡ true }
{
    let explanation = explain(alloc, events, conditions)?;
    explanation.write(events.record(), target)
}

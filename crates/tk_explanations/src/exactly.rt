//! Why each event has a condition that holds of it, or why not.
ghost use Rattle.std.specs.Prelude.{◌≡◌, ◌++◌, true, IfOk, OnOk, IsErrOf};
ghost use Rattle.tk_query.specs.Matches.{IsExact};
ghost use Rattle.tk_explanations.specs.Explained.{IsExplained};
ghost use Rattle.tk_explanations.specs.Matches.{ExplainsExactly, IsExactExplanation, exact_rows, unlike_rows};

use crate::explanations::Explanation;
use crate::faults::ExplainFault;
use crate::match_rows::{add_condition, add_found, add_lacking};
use crate::rows::{Note, Row};
use std::alloc::{AllocError, Global};
use tk_query::{Exact, holds_at, match_exactly};
use tk_query_conditions::Condition;
use tk_record::Events;
use tk_streams::Target;

// Adds the rows of the first condition that doesn't hold of the event in its place, or of what is
// left over where all hold.
fn add_unlike(
    rows: &mut Vec<Row>,
    alloc: Global,
    events: &Events<'_>,
    conditions: &[Condition],
) -> Result<(), AllocError>
    ensures { OnOk result (rows.new.items ≡ rows.old.items
        ++ unlike_rows events.now.recorded 0 conditions.now events.now.kept) }
{
    let record = events.record();
    let flags = events.flags();
    let mut low = 0;
    for (number, condition) in conditions.iter().enumerate() {
        let Some(position) = flags.first_from(low) else {
            add_condition(rows, alloc, number, condition)?;
            rows.push(Row::NoneLeft)?;
            return Ok(());
        };
        if !holds_at(record, condition, position) {
            add_condition(rows, alloc, number, condition)?;
            return add_lacking(rows, alloc, record, condition, position);
        }
        low = position + 1;
    }
    let Some(position) = flags.first_from(low) else {
        return Ok(());
    };
    rows.push(Row::Event(position, Note::Nothing))?;
    Ok(())
}

fn add_below(
    rows: &mut Vec<Row>,
    alloc: Global,
    events: &Events<'_>,
    conditions: &[Condition],
    answer: Exact,
) -> Result<(), AllocError>
    ensures { OnOk result (rows.new.items ≡ rows.old.items
        ++ exact_rows events.now conditions.now answer) }
{
    match answer {
        Exact::Yes => {
            let positions = events.positions(alloc)?;
            add_found(rows, alloc, conditions, positions.as_slice())
        }
        Exact::WrongCount => {
            rows.push(Row::Counts(conditions.len(), events.count()))?;
            add_unlike(rows, alloc, events, conditions)
        }
        Exact::No(_) => add_unlike(rows, alloc, events, conditions),
    }
}

fn explain(
    alloc: Global,
    events: &Events<'_>,
    conditions: &[Condition],
) -> Result<Explanation, AllocError>
    ensures { IfOk result (λ explanation. IsExactExplanation events.now conditions.now
        explanation.is_yes explanation.rows.items) }
{
    let answer = match_exactly(alloc, events, conditions)?;
    let text = format!(in alloc; "{answer}")?;
    let mut explanation = Explanation::new(alloc, answer.is_yes(), text)?;
    add_below(&mut explanation.rows, alloc, events, conditions, answer)?;
    Ok(explanation)
}

/// Writes whether each event has a condition that holds of it, as [`match_exactly`] answers it.
///
/// Below a yes stands each condition with its event; below a no the first condition that doesn't
/// hold of its event; below a wrong count both counts, and that condition or what is left over.
///
/// # Errors
/// `Memory` where a request for memory is refused, and `Device` where the target broke.
pub fn explain_exactly<T: Target>(
    alloc: Global,
    events: &Events<'_>,
    conditions: &[Condition],
    target: &mut T,
) -> Result<bool, ExplainFault>
    ensures written { IsExplained (ExplainsExactly events.now conditions.now)
        (T.contents target.old) (T.contents target.new) result }
    ensures unwritten { IsErrOf result ExplainFault.Memory → target.new ≡ target.old }
    ensures device { IsErrOf result ExplainFault.Device → T.broken target.new ≡ true }
{
    let explanation = explain(alloc, events, conditions)?;
    explanation.write(events.record(), target)
}

//! The rows of conditions, and of the events found for them or nearest to them.
ghost use Rattle.std.specs.Prelude.{◌≡◌, ◌++◌, ◌∷◌, [], slice_get, IfOk, OnOk};
ghost use Rattle.tk_explanations.specs.MatchRows.{condition_row, found_rows, lacking_row, lacks, near_rows};

use crate::rows::{Note, Row};
use std::alloc::{AllocError, Global};
use tk_query_conditions::{Condition, write_condition};
use tk_query_nearest::{Nearest, lacking_text};
use tk_record::Record;

/// Adds the row of a condition.
pub(crate) fn add_condition(
    rows: &mut Vec<Row>,
    alloc: Global,
    number: usize,
    condition: &Condition,
) -> Result<(), AllocError>
    ensures { OnOk result (rows.new.items
        ≡ rows.old.items ++ condition_row number condition.now ∷ []) }
{
    let text = write_condition(alloc, condition)?;
    rows.push(Row::Condition(number, text))?;
    Ok(())
}

/// Adds the rows of conditions, each with the row of the event found for it.
pub(crate) fn add_found(
    rows: &mut Vec<Row>,
    alloc: Global,
    conditions: &[Condition],
    found: &[usize],
) -> Result<(), AllocError>
    ensures { OnOk result (rows.new.items
        ≡ rows.old.items ++ found_rows 0 conditions.now found.now) }
{
    for (number, condition) in conditions.iter().enumerate() {
        let Some(position) = found.get(number).copied() else {
            return Ok(());
        };
        add_condition(rows, alloc, number, condition)?;
        rows.push(Row::Event(position, Note::Nothing))?;
    }
    Ok(())
}

// The members of a condition that don't hold of the event at a position.
fn lacking_at(
    alloc: Global,
    record: &Record,
    condition: &Condition,
    position: usize,
) -> Result<Note, AllocError>
    ensures { IfOk result (λ note.
        note ≡ lacks «record».now condition.now (slice_get «record».now.entries position)) }
{
    let Some(event) = record.entry(position) else {
        return Ok(Note::Nothing);
    };
    let members = lacking_text(alloc, record, condition, &event)?;
    Ok(Note::Lacks(members))
}

/// Adds the row of the event at a position, with the members of a condition that don't hold of it.
pub(crate) fn add_lacking(
    rows: &mut Vec<Row>,
    alloc: Global,
    record: &Record,
    condition: &Condition,
    position: usize,
) -> Result<(), AllocError>
    ensures { OnOk result (rows.new.items
        ≡ rows.old.items ++ lacking_row «record».now condition.now position ∷ []) }
{
    let note = lacking_at(alloc, record, condition, position)?;
    rows.push(Row::Event(position, note))?;
    Ok(())
}

/// Adds the rows of the events nearest to a condition, each with what lacks, or that there is none.
pub(crate) fn add_nearest(
    rows: &mut Vec<Row>,
    alloc: Global,
    record: &Record,
    condition: &Condition,
    near: &Nearest,
) -> Result<(), AllocError>
    ensures { OnOk result (rows.new.items
        ≡ rows.old.items ++ near_rows «record».now condition.now near.now) }
{
    if near.is_empty() {
        rows.push(Row::NoneLeft)?;
        return Ok(());
    }
    for index in 0..near.len() {
        let Some(position) = near.get(index) else {
            return Ok(());
        };
        add_lacking(rows, alloc, record, condition, position)?;
    }
    Ok(())
}

//! The members of a condition that don't hold of an event.
ghost use Rattle.std.specs.Prelude.{◌≡◌, ◌∷◌, [], not, filter, IfOk, OnOk, string_bytes};
ghost use Rattle.tk_record.specs.Record.{entry_of_view};
ghost use Rattle.tk_query.specs.Holds.{cond_holds};
ghost use Rattle.tk_query_conditions.specs.Cond.{All, Nothing};
ghost use Rattle.tk_query_conditions.specs.CondOf.{cond_of};
ghost use Rattle.tk_query_conditions.specs.steps.Reader.{conds_from};
ghost use Rattle.tk_query_nearest.specs.Members.{lacking, lacking_text};
ghost use Rattle.tk_query_nearest.specs.steps.{appended, separated};

use std::alloc::{AllocError, Global};
use tk_ids::Text;
use tk_query::holds;
use tk_query_conditions::{Condition, write_condition};
use tk_record::{EntryView, Record};

/// Writes a comma and a blank where something stands before them.
fn push_separator(out: &mut String) -> Result<(), AllocError>
    ensures { OnOk result (string_bytes out.new ≡ separated (string_bytes out.old)) }
{
    if out.is_empty() {
        return Ok(());
    }
    out.push_str(", ")
}

/// Writes the text of a member where it doesn't hold of the event.
fn push_member(
    out: &mut String,
    alloc: Global,
    record: &Record,
    member: &Condition,
    event: &EntryView,
) -> Result<(), AllocError>
    ensures { OnOk result (string_bytes out.new
        ≡ appended (string_bytes out.old)
        (filter (λ c. not (cond_holds «record».now c (entry_of_view event.now)))
        (cond_of member.now ∷ []))) }
{
    if holds(record, member, event) {
        return Ok(());
    }
    push_separator(out)?;
    let text = write_condition(alloc, member)?;
    out.push_str(text.as_str())
}

/// Writes the texts of the members that don't hold of the event.
#[cycle(writing)]
fn push_lacking(
    out: &mut String,
    alloc: Global,
    record: &Record,
    condition: &Condition,
    event: &EntryView,
) -> Result<(), AllocError>
    ensures { OnOk result (string_bytes out.new
        ≡ appended (string_bytes out.old)
        (lacking «record».now (cond_of condition.now) (entry_of_view event.now))) }
{
    match condition {
        Condition::All(members) => push_lacking_of_all(out, alloc, record, members, event),
        _ => push_member(out, alloc, record, condition, event),
    }
}

#[cycle(writing)]
fn push_lacking_of_all(
    out: &mut String,
    alloc: Global,
    record: &Record,
    members: &[Condition],
    event: &EntryView,
) -> Result<(), AllocError>
    ensures { OnOk result (string_bytes out.new
        ≡ appended (string_bytes out.old)
        (lacking «record».now (All (conds_from Nothing members.now)) (entry_of_view event.now))) }
{
    for member in members {
        push_lacking(out, alloc, record, member, event)?;
    }
    Ok(())
}

/// Writes the members of a condition that don't hold of an event of a record, as
/// [`write_condition`] writes them, with a comma and a blank between each two.
///
/// # Errors
/// `AllocError` where a request for memory is refused.
pub fn lacking_text(
    alloc: Global,
    record: &Record,
    condition: &Condition,
    event: &EntryView,
) -> Result<Text, AllocError>
    ensures { IfOk result (λ text.
        text ≡ lacking_text «record».now (cond_of condition.now) (entry_of_view event.now)) }
{
    let mut out = String::new(alloc);
    push_lacking(&mut out, alloc, record, condition, event)?;
    Ok(Text::from(out))
}

//! The events that might have been counted, where a statistic is less than expected.

ghost use Rattle.std.specs.Prelude.{IfErr};
ghost use Rattle.tk_expectations.specs.Failures.{IsFault};

use crate::failures::Failure;
use crate::lists::add_list;
use std::alloc::Global;
use tk_record::{Events, Expected, Mismatch, Selection};

// The selections of events that come near to being counted under the name of a statistic.
fn nearest_selections(selection: Selection) -> &'static [Selection] {
    match selection {
        Selection::Skipped | Selection::Finished => &[Selection::Started],
        Selection::Started => &[Selection::Skipped],
        Selection::Aborted => &[Selection::Succeeded, Selection::Failed],
        Selection::Succeeded => &[Selection::Aborted, Selection::Failed],
        Selection::Failed => &[Selection::Aborted, Selection::Succeeded],
        _ => &[],
    }
}

// Adds the events that come near to being counted, where fewer were than expected.
fn add_uncounted(
    text: &mut String,
    alloc: Global,
    events: &Events<'_>,
    mismatch: &Mismatch,
) -> Result<(), Failure>
    ensures { IfErr result IsFault }
{
    if mismatch.expected <= mismatch.actual {
        return Ok(());
    }
    let name = mismatch.selection.name();
    write!(text, "not counted as {name}:\n")?;
    for selection in nearest_selections(mismatch.selection) {
        add_list(text, alloc, &events.pick(alloc, *selection)?)?;
    }
    Ok(())
}

/// Lists for each statistic that is less than expected the events that come near to being counted.
pub(crate) fn uncounted_events(
    alloc: Global,
    events: &Events<'_>,
    expected: &Expected,
) -> Result<String, Failure>
    ensures { IfErr result IsFault }
{
    let mut text = String::new(alloc);
    for mismatch in &events.check(alloc, expected)? {
        add_uncounted(&mut text, alloc, events, mismatch)?;
    }
    Ok(text)
}

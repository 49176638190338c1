//! Lists of events that a failure shows.
ghost use Rattle.std.specs.Prelude.{◌≡◌, ◌++◌, string_bytes, IfErr, IfOk, OnOk};
ghost use Rattle.tk_expectations.specs.Failures.{IsFault};
ghost use Rattle.tk_expectations.specs.Lists.{first_lines, list_text, more_line, shown_list};

use crate::failures::Failure;
use std::alloc::{AllocError, Global};
use tk_explanations::{ExplainFault, explain_list};
use tk_record::Events;
use tk_streams::ByteTarget;

/// How many events of one list a failure shows.
pub const MAX_SHOWN_EVENTS: usize = 20;

// Writes what `ask list` says of the events.
fn written_list(alloc: Global, events: &Events<'_>) -> Result<ByteTarget, ExplainFault>
    ensures { IfOk result (λ written. written.bytes ≡ list_text events.now) }
{
    let mut target = ByteTarget::new(alloc);
    explain_list(events, &mut target)?;
    Ok(target)
}

// Adds the first lines of a text, each after four blanks.
fn add_first_lines(text: &mut String, lines: &str) -> Result<(), AllocError>
    ensures { OnOk result (string_bytes text.new ≡ string_bytes text.old ++ first_lines lines.now) }
{
    for line in lines.lines().take(MAX_SHOWN_EVENTS) {
        write!(text, "    {line}\n")?;
    }
    Ok(())
}

// Adds how many there are more, where there are more.
fn add_more(text: &mut String, more: usize) -> Result<(), AllocError>
    ensures { OnOk result (string_bytes text.new ≡ string_bytes text.old ++ more_line more) }
{
    if more > 0 {
        write!(text, "    and {more} more\n")?;
    }
    Ok(())
}

/// Adds a line for each of the first events, and how many there are more.
pub(crate) fn add_list(text: &mut String, alloc: Global, events: &Events<'_>) -> Result<(), Failure>
    ensures shown { OnOk result
        (string_bytes text.new ≡ string_bytes text.old ++ shown_list events.now) }
    ensures fault { IfErr result IsFault }
{
    let list = written_list(alloc, events)?;
    add_first_lines(text, str::from_utf8(list.bytes())?)?;
    add_more(text, events.count().saturating_sub(MAX_SHOWN_EVENTS))?;
    Ok(())
}

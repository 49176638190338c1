//! Statistics, and which events were counted where a number is not the expected one.
ghost use Rattle.std.specs.Prelude.{◌≡◌, ◌++◌, true, IfOk, IsErrOf, OnErr, OnOk, string_bytes};
ghost use Rattle.std.specs.Io.KnownBytes.{Appends};
ghost use Rattle.std.specs.List.{flat_map};
ghost use Rattle.tk_streams.specs.Stream.{AppendsPrefix};
ghost use Rattle.tk_explanations.specs.Explained.{IsExplained};
ghost use Rattle.tk_explanations.specs.Rows.{rows_text};
ghost use Rattle.tk_explanations.specs.Statistics.{ExplainsStatistics, counted_row, counted_rows, mismatch_rows, mismatch_text, more_rows};

use crate::explanations::put_rows;
use crate::faults::ExplainFault;
use crate::rows::{Note, Row};
use std::alloc::{AllocError, Global};
use tk_ids::Text;
use tk_record::{Events, Expected, Mismatch, Record};
use tk_record_text::add_statistics;
use tk_streams::{Broken, Piece, Target};

/// How many of the events that were counted under one name have a row.
pub const MAX_COUNTED_ROWS: usize = 20;

/// Adds to a text that a statistic differs from what was expected of it.
///
/// # Errors
/// `AllocError` where a request for memory is refused.
pub fn add_mismatch(text: &mut String, mismatch: &Mismatch) -> Result<(), AllocError>
    ensures { OnOk result (string_bytes text.new
        ≡ string_bytes text.old ++ mismatch_text mismatch.now) }
{
    write!(text, "mismatch {mismatch}")
}

// Adds the rows of the events at these positions.
fn add_events(rows: &mut Vec<Row>, positions: &[usize]) -> Result<(), AllocError>
    ensures { OnOk result (rows.new.items
        ≡ rows.old.items ++ flat_map counted_row positions.now) }
{
    for position in positions {
        rows.push(Row::Event(*position, Note::Nothing))?;
    }
    Ok(())
}

// Adds how many events there are more, where there are some.
fn add_more(rows: &mut Vec<Row>, more: usize) -> Result<(), AllocError>
    ensures { OnOk result (rows.new.items ≡ rows.old.items ++ more_rows more) }
{
    if more > 0 {
        rows.push(Row::More(more))?;
    }
    Ok(())
}

// Adds the rows of the first events that were counted, and how many there are more.
fn add_counted(rows: &mut Vec<Row>, positions: &[usize]) -> Result<(), AllocError>
    ensures { OnOk result (rows.new.items ≡ rows.old.items ++ counted_rows positions.now) }
{
    let (shown, more) = positions.split_at(positions.len().min(MAX_COUNTED_ROWS));
    add_events(rows, shown)?;
    add_more(rows, more.len())
}

// Adds a mismatch, and the events that were counted under its name.
fn add_mismatch_rows(
    rows: &mut Vec<Row>,
    alloc: Global,
    events: &Events<'_>,
    mismatch: &Mismatch,
) -> Result<(), AllocError>
    ensures { OnOk result (rows.new.items
        ≡ rows.old.items ++ mismatch_rows events.now mismatch.now) }
{
    let mut text = String::new(alloc);
    add_mismatch(&mut text, mismatch)?;
    rows.push(Row::Line(Text::from(text)))?;
    let counted = events.pick(alloc, mismatch.selection)?.positions(alloc)?;
    add_counted(rows, counted.as_slice())
}

fn rows_of(
    alloc: Global,
    events: &Events<'_>,
    mismatches: &[Mismatch],
) -> Result<Vec<Row>, AllocError>
    ensures { IfOk result (λ rows.
        rows.items ≡ flat_map (mismatch_rows events.now) mismatches.now) }
{
    let mut rows = Vec::new(alloc);
    'mismatches: for mismatch in mismatches {
        add_mismatch_rows(&mut rows, alloc, events, mismatch)?;
    }
    Ok(rows)
}

// Writes a text, and the rows below it.
fn write_with_rows<T: Target>(
    text: &str,
    rows: &[Row],
    record: &Record,
    target: &mut T,
) -> Result<(), Broken>
    ensures ok { OnOk result (Appends (T.contents target.old) (T.contents target.new)
        (text.now ++ rows_text «record».now rows.now)) }
    ensures err { OnErr result (AppendsPrefix (T.contents target.old) (T.contents target.new)
        (text.now ++ rows_text «record».now rows.now)) }
    ensures broken { OnErr result (T.broken target.new ≡ true) }
{
    let mut piece = Piece::new();
    piece.put(target, text.as_bytes());
    put_rows(&mut piece, target, record, rows);
    piece.finish(target)
}

/// Writes the nine statistics of the events, and which of them differ from what is expected, with
/// the first 20 of the events that were counted under that name. It is a yes where none differs.
///
/// # Errors
/// `Memory` where a request for memory is refused, and `Device` where the target broke.
pub fn explain_statistics<T: Target>(
    alloc: Global,
    events: &Events<'_>,
    expected: &Expected,
    target: &mut T,
) -> Result<bool, ExplainFault>
    ensures written { IsExplained (ExplainsStatistics events.now expected.now)
        (T.contents target.old) (T.contents target.new) result }
    ensures unwritten { IsErrOf result ExplainFault.Memory → target.new ≡ target.old }
    ensures device { IsErrOf result ExplainFault.Device → T.broken target.new ≡ true }
{
    let mismatches = events.check(alloc, expected)?;
    let rows = rows_of(alloc, events, mismatches.as_slice())?;
    let mut text = String::new(alloc);
    add_statistics(&mut text, &events.statistics())?;
    write_with_rows(text.as_str(), rows.as_slice(), events.record(), target)?;
    Ok(mismatches.is_empty())
}

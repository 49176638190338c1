//! Explanations as rows, written in pieces.
ghost use Rattle.std.specs.Prelude.{◌≡◌, ◌∷◌, [], Some, true, slice_get, string_bytes, IfOk, IsErrOf, OnErr, OnOk};
ghost use Rattle.std.specs.Io.KnownBytes.{Appends};
ghost use Rattle.tk_streams.specs.Pieces.{AddsTo};
ghost use Rattle.tk_streams.specs.Stream.{AppendsPrefix};
ghost use Rattle.tk_record.specs.Record.{entry_of_view};
ghost use Rattle.tk_explanations.specs.steps.{IsWritten};
ghost use Rattle.tk_explanations.specs.declared.rows.Row.TheVariants.{Line};
ghost use Rattle.tk_explanations.specs.Rows.{descriptor_of, end_text, event_row, note_text, overlap_text, row_text, rows_text, span_text, writers_text};

use crate::faults::ExplainFault;
use crate::pieces::{put_descriptor_of, put_event_text, put_number};
use crate::rows::{Note, Row, Span, Writers};
use crate::sentence_texts::put_sentence;
use std::alloc::{AllocError, Global};
use tk_ids::Text;
use tk_record::{EntryView, Record};
use tk_record_text::put_text;
use tk_streams::{Broken, Piece, Target};

fn put_note<T: Target>(piece: &mut Piece, target: &mut T, note: &Note)
    ensures { AddsTo T.contents T.broken target.old target.new piece.old piece.new
        (note_text note.now) }
{
    match note {
        Note::Nothing => {}
        Note::Lacks(members) => {
            piece.put(target, b"   does not hold: ");
            piece.put(target, members.as_str().as_bytes());
        }
        Note::NotAfter(position) => {
            piece.put(target, b"   holds, but is not after ");
            put_number(piece, target, *position as u64);
        }
    }
}

// Adds the row of an event.
fn put_view_row<T: Target>(
    piece: &mut Piece,
    target: &mut T,
    record: &Record,
    position: usize,
    view: &EntryView<'_>,
    note: &Note,
)
    ensures { AddsTo T.contents T.broken target.old target.new piece.old piece.new
        (event_row «record».now position (Some (entry_of_view view.now)) note.now) }
{
    piece.put(target, b"    ");
    put_number(piece, target, position as u64);
    piece.put(target, b": ");
    put_event_text(piece, target, record, view);
    put_note(piece, target, note);
}

// Adds the row of the event at a position, where the record has one there.
fn put_event_row<T: Target>(
    piece: &mut Piece,
    target: &mut T,
    record: &Record,
    position: usize,
    note: &Note,
)
    ensures { AddsTo T.contents T.broken target.old target.new piece.old piece.new
        (event_row «record».now position (slice_get «record».now.entries position) note.now) }
{
    if let Some(view) = record.entry(position) {
        put_view_row(piece, target, record, position, &view, note);
    }
}

// Adds the descriptor of the event at a position, where the record has one there.
fn put_descriptor_at<T: Target>(piece: &mut Piece, target: &mut T, record: &Record, position: usize)
    ensures { AddsTo T.contents T.broken target.old target.new piece.old piece.new
        (descriptor_of «record».now (slice_get «record».now.entries position)) }
{
    if let Some(view) = record.entry(position) {
        put_descriptor_of(piece, target, record, view.key);
    }
}

// Adds the position at which an execution ends, or that it lasts to the end of the record.
fn put_end<T: Target>(piece: &mut Piece, target: &mut T, record: &Record, end: usize)
    ensures { AddsTo T.contents T.broken target.old target.new piece.old piece.new
        (end_text «record».now end) }
{
    if end < record.len() {
        put_number(piece, target, end as u64);
    } else {
        piece.put(target, b"the end");
    }
}

// Adds the descriptor of an execution, the position of its start, and where it ends.
fn put_span<T: Target>(piece: &mut Piece, target: &mut T, record: &Record, span: Span)
    ensures { AddsTo T.contents T.broken target.old target.new piece.old piece.new
        (span_text «record».now span) }
{
    put_descriptor_at(piece, target, record, span.start);
    piece.put(target, b" (");
    put_number(piece, target, span.start as u64);
    piece.put(target, b" to ");
    put_end(piece, target, record, span.end);
    piece.put(target, b")");
}

// The words of which of two executions are writers'.
fn writers_words(said: Writers) -> &'static str
    ensures { result.now ≡ writers_text said }
{
    match said {
        Writers::Unsaid => "",
        Writers::First => ", the first as a writer",
        Writers::Second => ", the second as a writer",
        Writers::Both => ", both as writers",
    }
}

// Adds that two executions overlap.
fn put_overlap<T: Target>(
    piece: &mut Piece,
    target: &mut T,
    record: &Record,
    first: Span,
    second: Span,
)
    ensures { AddsTo T.contents T.broken target.old target.new piece.old piece.new
        (overlap_text «record».now first second) }
{
    put_span(piece, target, record, first);
    piece.put(target, b" and ");
    put_span(piece, target, record, second);
    piece.put(target, b" overlap");
}

fn put_row<T: Target>(piece: &mut Piece, target: &mut T, record: &Record, row: &Row)
    ensures { AddsTo T.contents T.broken target.old target.new piece.old piece.new
        (row_text «record».now row.now) }
{
    match row {
        Row::Line(text) => piece.put(target, text.as_str().as_bytes()),
        Row::Condition(number, text) => {
            put_number(piece, target, *number as u64);
            piece.put_byte(target, b' ');
            piece.put(target, text.as_str().as_bytes());
        }
        Row::Event(position, note) => put_event_row(piece, target, record, *position, note),
        Row::NoneLeft => piece.put(target, b"    no event is left"),
        Row::Counts(conditions, events) => {
            put_number(piece, target, *conditions as u64);
            piece.put(target, b" conditions, ");
            put_number(piece, target, *events as u64);
            piece.put(target, b" events");
        }
        Row::Overlap(first, second, said) => {
            put_overlap(piece, target, record, *first, *second);
            piece.put(target, writers_words(*said).as_bytes());
        }
        Row::OverlapOver(first, second, name) => {
            put_overlap(piece, target, record, *first, *second);
            piece.put(target, b", over ");
            put_text(piece, target, name.as_str());
        }
        Row::Executions(number) => {
            piece.put(target, b"    ");
            put_number(piece, target, *number as u64);
            piece.put(target, b" executions");
        }
        Row::More(count) => {
            piece.put(target, b"    and ");
            put_number(piece, target, *count as u64);
            piece.put(target, b" more");
        }
        Row::Sentence(sentence) => put_sentence(piece, target, record, sentence),
    }
}

/// Adds the rows, a line each.
pub(crate) fn put_rows<T: Target>(piece: &mut Piece, target: &mut T, record: &Record, rows: &[Row])
    ensures { AddsTo T.contents T.broken target.old target.new piece.old piece.new
        (rows_text «record».now rows.now) }
{
    'rows: for row in rows {
        put_row(piece, target, record, row);
        piece.put_byte(target, b'\n');
    }
}

fn write_rows<T: Target>(rows: &[Row], record: &Record, target: &mut T) -> Result<(), Broken>
    ensures ok { OnOk result (Appends (T.contents target.old) (T.contents target.new)
        (rows_text «record».now rows.now)) }
    ensures err { OnErr result (AppendsPrefix (T.contents target.old) (T.contents target.new)
        (rows_text «record».now rows.now)) }
    ensures broken { OnErr result (T.broken target.new ≡ true) }
{
    let mut piece = Piece::new();
    put_rows(&mut piece, target, record, rows);
    piece.finish(target)
}

/// The rows of an explanation, for which no more memory is needed, and whether the answer is a yes.
#[derive(Drop)]
pub(crate) struct Explanation {
    pub(crate) is_yes: bool,
    pub(crate) rows: Vec<Row>,
}

impl Explanation {
    /// Begins with the line of the answer.
    ///
    /// # Errors
    /// `AllocError` where a request for memory is refused.
    pub(crate) fn new(
        alloc: Global,
        is_yes: bool,
        answer: String,
    ) -> Result<Explanation, AllocError>
        ensures yes { IfOk result (λ explanation. explanation.is_yes ≡ is_yes) }
        ensures line { IfOk result (λ explanation.
            explanation.rows.items ≡ Line (string_bytes answer) ∷ []) }
    {
        let mut rows = Vec::new(alloc);
        rows.push(Row::Line(Text::from(answer)))?;
        Ok(Explanation { is_yes, rows })
    }

    /// Writes the rows, a line each, and gives whether the answer is a yes.
    ///
    /// # Errors
    /// `Device` where the target broke. A prefix of the lines was then written.
    pub(crate) fn write<T: Target>(
        self,
        record: &Record,
        target: &mut T,
    ) -> Result<bool, ExplainFault>
        ensures written { IsWritten self.is_yes (rows_text «record».now self.rows.items)
            (T.contents target.old) (T.contents target.new) result }
        ensures device { IsErrOf result ExplainFault.Device → T.broken target.new ≡ true }
    {
        write_rows(self.rows.as_slice(), record, target)?;
        Ok(self.is_yes)
    }
}

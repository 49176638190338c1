//! The parts of rows, written in pieces.
ghost use Rattle.std.specs.Fmt.{decimal};
ghost use Rattle.std.specs.Prelude.{◌≡◌, Some};
ghost use Rattle.tk_streams.specs.Pieces.{AddsTo};
ghost use Rattle.tk_record.specs.Entries.{desc};
ghost use Rattle.tk_record.specs.Record.{entry_of_view};
ghost use Rattle.tk_explanations.specs.DescriptorTexts.{quoted_name};
ghost use Rattle.tk_explanations.specs.Rows.{descriptor_text, event_text, id_field};

use tk_ids::Descriptor;
use tk_record::{EntryView, Record};
use tk_record_text::{put_event, put_text};
use tk_streams::{Piece, ShortLine, Target};

/// Adds a number.
pub(crate) fn put_number<T: Target>(piece: &mut Piece, target: &mut T, number: u64)
    ensures { AddsTo T.contents T.broken target.old target.new piece.old piece.new
        (decimal number) }
{
    let mut digits = ShortLine::new();
    digits.push_front_number(number);
    piece.put(target, digits.as_bytes());
}

/// Adds the id of a key's descriptor.
pub(crate) fn put_id<T: Target>(piece: &mut Piece, target: &mut T, record: &Record, key: u32)
    ensures { AddsTo T.contents T.broken target.old target.new piece.old piece.new
        (id_field (desc «record».now key)) }
{
    if let Some(descriptor) = record.describe(key) {
        put_text(piece, target, descriptor.id.as_text().as_str());
    }
}

fn put_descriptor<T: Target>(piece: &mut Piece, target: &mut T, descriptor: &Descriptor)
    ensures { AddsTo T.contents T.broken target.old target.new piece.old piece.new
        (descriptor_text (Some descriptor.now)) }
{
    put_text(piece, target, descriptor.id.as_text().as_str());
    piece.put_byte(target, b' ');
    put_quoted(piece, target, descriptor);
}

/// Adds the id and the display name of a key's descriptor.
pub(crate) fn put_descriptor_of<T: Target>(
    piece: &mut Piece,
    target: &mut T,
    record: &Record,
    key: u32,
)
    ensures { AddsTo T.contents T.broken target.old target.new piece.old piece.new
        (descriptor_text (desc «record».now key)) }
{
    if let Some(descriptor) = record.describe(key) {
        put_descriptor(piece, target, descriptor);
    }
}

fn put_quoted<T: Target>(piece: &mut Piece, target: &mut T, descriptor: &Descriptor)
    ensures { AddsTo T.contents T.broken target.old target.new piece.old piece.new
        (quoted_name (Some descriptor.now)) }
{
    piece.put_byte(target, b'"');
    put_text(piece, target, descriptor.name.as_str());
    piece.put_byte(target, b'"');
}

/// Adds the display name of a key's descriptor in double quotes.
pub(crate) fn put_name<T: Target>(piece: &mut Piece, target: &mut T, record: &Record, key: u32)
    ensures { AddsTo T.contents T.broken target.old target.new piece.old piece.new
        (quoted_name (desc «record».now key)) }
{
    if let Some(descriptor) = record.describe(key) {
        put_quoted(piece, target, descriptor);
    }
}

/// Adds the line of an event, three blanks and its descriptor.
pub(crate) fn put_event_text<T: Target>(
    piece: &mut Piece,
    target: &mut T,
    record: &Record,
    view: &EntryView<'_>,
)
    ensures { AddsTo T.contents T.broken target.old target.new piece.old piece.new
        (event_text «record».now (entry_of_view view.now)) }
{
    put_event(piece, target, view);
    piece.put(target, b"   ");
    put_descriptor_of(piece, target, record, view.key);
}

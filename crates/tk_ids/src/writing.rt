//! Writing the text of an id.
ghost use Rattle.std.specs.Prelude.{◌≡◌, ◌++◌, OnOk, IsTrue};
ghost use Rattle.tk_ids.specs.IdText.{escaped, segment_text, IsSegment};

use crate::escapes::digits_of_byte;
use crate::segments::Segment;
use std::alloc::AllocError;

/// Whether no byte of a tag or a value is escaped, as in most of them.
fn is_plain(text: &str) -> bool
    ensures { IsTrue result → escaped text.now ≡ text.now }
{
    for byte in text.as_bytes() {
        if digits_of_byte(*byte).is_some() {
            return false;
        }
    }
    true
}

/// Writes a tag or a value with its escapes.
fn push_escaped(out: &mut Vec<u8>, text: &str) -> Result<(), AllocError>
    ensures { OnOk result (out.new.items ≡ out.old.items ++ escaped text.now) }
{
    if is_plain(text) {
        out.extend_from_slice(text.as_bytes())?;
        return Ok(());
    }
    for byte in text.as_bytes() {
        match digits_of_byte(*byte) {
            None => out.push(*byte)?,
            Some((first, second)) => out.extend_from_slice(&[b'%', first, second])?,
        }
    }
    Ok(())
}

/// Writes `[tag:value]`.
pub(crate) fn push_segment(out: &mut Vec<u8>, segment: &Segment) -> Result<(), AllocError>
    ensures ok { OnOk result (out.new.items ≡ out.old.items ++ segment_text segment.now) }
    // What every segment is.
    ensures segment { IsSegment segment.now }
{
    let (tag, value) = (segment.tag(), segment.value());
    out.push(b'[')?;
    push_escaped(out, tag)?;
    out.push(b':')?;
    push_escaped(out, value)?;
    out.push(b']')?;
    Ok(())
}

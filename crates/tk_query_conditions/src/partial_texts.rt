//! A text in brackets, as far as it is read.
ghost use Rattle.std.specs.Prelude.{◌≡◌, ◌==◌, length, [], IfOk, if◌then◌else◌, Some, None, IsUtf8};
ghost use Rattle.tk_query_conditions.specs.steps.Reading.{special_of, text_step, ends_at};

use std::alloc::{AllocError, Global};
use std::marker::Model;
use tk_ids::Text;

/// What was read of an escape: nothing, its `%`, or its `%2`.
#[derive(Clone, Copy)]
pub(crate) enum Escape {
    Outside,
    Percent,
    Digit,
}

/// A text, as far as it is read.
#[derive(Drop)]
pub(crate) struct PartialText {
    bytes: Vec<u8>,
    escape: Escape,
}

impl Model for PartialText {
    ghost use Rattle.std.specs.Prelude.{ℕ, List};
    ghost use Rattle.tk_query_conditions.specs.declared.partial_texts.Escape.{Escape};

    ghost Value = { List ℕ × Escape };

    ghost view = { λ p. (p.bytes.items, p.escape) };
}

/// The byte whose escape ends so.
fn special_byte(last: u8) -> Option<u8>
    ensures { result ≡ special_of last }
{
    match last {
        b'5' => Some(b'%'),
        b'8' => Some(b'('),
        b'9' => Some(b')'),
        b'C' => Some(b','),
        _ => None,
    }
}

impl PartialText {
    /// Makes a text of no byte, outside an escape.
    pub(crate) fn new(alloc: Global) -> PartialText
        ensures { result ≡ ([], Escape.Outside) }
    {
        PartialText {
            bytes: Vec::new(alloc),
            escape: Escape::Outside,
        }
    }

    /// Whether the text is whole, and this byte ends it.
    pub(crate) fn ends(&self, stop: u8, byte: u8) -> bool
        ensures { result ≡ ends_at stop self.now byte }
    {
        matches!(self.escape, Escape::Outside) && byte == stop
    }

    /// Takes one more byte, and answers whether it may stand there.
    pub(crate) fn feed(&mut self, byte: u8) -> Result<bool, AllocError>
        ensures { IfOk result
            (λ accepted. text_step self.old byte ≡ (if accepted then Some self.new else None)) }
    {
        match self.escape {
            Escape::Outside => match byte {
                b'%' => self.escape = Escape::Percent,
                b'(' | b')' | b',' => return Ok(false),
                _ => self.bytes.push(byte)?,
            },
            Escape::Percent => {
                if byte != b'2' {
                    return Ok(false);
                }
                self.escape = Escape::Digit;
            }
            Escape::Digit => {
                let Some(escaped) = special_byte(byte) else {
                    return Ok(false);
                };
                self.bytes.push(escaped)?;
                self.escape = Escape::Outside;
            }
        }
        Ok(true)
    }

    /// Whether the text has no byte yet.
    pub(crate) fn is_empty(&self) -> bool
        ensures { result ≡ (length self.now.0 == 0) }
    {
        self.bytes.is_empty()
    }

    /// The text of a whole part.
    pub(crate) fn into_text(self) -> Text
        requires { IsUtf8 self.0 }
        ensures { result ≡ self.0 }
    {
        let PartialText { bytes, escape: _ } = self;
        Text::from_utf8(bytes)
    }
}

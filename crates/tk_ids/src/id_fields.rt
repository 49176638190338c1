//! What an id keeps.
ghost use Rattle.std.specs.Prelude.{◌≡◌, IfOk};
ghost use Rattle.tk_ids.specs.IdText.{IsIdText};
ghost use Rattle.tk_ids.specs.IdSegments.{segments_of, IsTextOfId};
ghost use Rattle.tk_ids.specs.PlainText.{plain_text};
ghost use Rattle.tk_ids.specs.KeptTexts.{kept_text, kept_plain_text, kept_count, AreKept};

use crate::escapes::{Escape, byte_of_digits};
use crate::texts::Text;
use std::alloc::{AllocError, Global};

/// What an id keeps: its text, and how many segments it has.
#[derive(Drop)]
pub(crate) enum IdFields {
    /// The text has no escape.
    Plain(u32, Text),
    /// The text has escapes, and a copy without them is kept.
    Escaped(Box<EscapedFields>),
}

/// What an id keeps whose text has escapes.
#[derive(Drop)]
pub(crate) struct EscapedFields {
    segment_count: u32,
    text: Text,
    plain: Text,
}

// Copies the text of an id without its escapes.
fn without_escapes(alloc: Global, text: &str) -> Result<Text, AllocError>
    requires { IsIdText text.now }
    ensures { IfOk result (λ plain. plain ≡ plain_text (segments_of text.now)) }
{
    let mut plain = Vec::with_capacity(alloc, text.len())?;
    let mut escape = Escape::Plain;
    for byte in text.as_bytes() {
        match escape {
            Escape::Plain => {
                if *byte == b'%' {
                    escape = Escape::Percent;
                } else {
                    plain.push(*byte)?;
                }
            }
            Escape::Percent => escape = Escape::Digit(*byte),
            Escape::Digit(first) => {
                if let Some(escaped) = byte_of_digits(first, *byte) {
                    plain.push(escaped)?;
                }
                escape = Escape::Plain;
            }
        }
    }
    Ok(Text::from_utf8(plain))
}

impl IdFields {
    /// Keeps the text of an id, which has `segment_count` segments.
    pub(crate) fn new(
        alloc: Global,
        text: Text,
        segment_count: usize,
    ) -> Result<IdFields, AllocError>
        requires { IsTextOfId text segment_count }
        ensures kept { IfOk result AreKept }
        ensures text { IfOk result (λ fields. kept_text fields ≡ text) }
    {
        let segment_count = segment_count as u32;
        if !text.as_str().as_bytes().contains(&b'%') {
            return Ok(IdFields::Plain(segment_count, text));
        }
        let plain = without_escapes(alloc, text.as_str())?;
        let fields = EscapedFields {
            segment_count,
            text,
            plain,
        };
        Ok(IdFields::Escaped(Box::new(alloc, fields)?))
    }

    /// Lends the id's text.
    pub(crate) fn text(&self) -> &Text
        ensures { result.now ≡ kept_text self.now }
    {
        match self {
            IdFields::Plain(_, text) => text,
            IdFields::Escaped(fields) => &fields.text,
        }
    }

    /// Lends the id's text without its escapes.
    pub(crate) fn plain_text(&self) -> &Text
        ensures { result.now ≡ kept_plain_text self.now }
    {
        match self {
            IdFields::Plain(_, text) => text,
            IdFields::Escaped(fields) => &fields.plain,
        }
    }

    /// Counts the segments.
    pub(crate) fn segment_count(&self) -> usize
        ensures { result ≡ kept_count self.now }
    {
        match self {
            IdFields::Plain(segment_count, _) => *segment_count as usize,
            IdFields::Escaped(fields) => fields.segment_count as usize,
        }
    }
}

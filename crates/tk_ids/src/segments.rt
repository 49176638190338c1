//! Segments of ids.
ghost use Rattle.std.specs.Prelude.{◌≡◌, IfOk};

use crate::id_faults::IdFault;
use crate::texts::Text;
use std::alloc::{AllocError, Global};
use std::fmt;
use std::marker::Model;

/// One step of an id: a tag and a value, neither of them empty. JUnit: `UniqueId.Segment`.
#[derive(Drop)]
pub struct Segment {
    // The tag, and then the value.
    text: Text,
    tag_len: usize,
}

impl Model for Segment {
    ghost use Rattle.std.specs.Prelude.{take, drop};
    ghost use Rattle.tk_ids.specs.IdText.{SegmentView, IsNonEmptyText};

    ghost Value = { SegmentView };

    ghost view = { λ s. record { tag = take s.tag_len s.text; value = drop s.tag_len s.text } };

    ghost invariant = { λ s. IsNonEmptyText (take s.tag_len s.text)
        × IsNonEmptyText (drop s.tag_len s.text) };
}

impl fmt::Debug for Segment {
    fn fmt<W: fmt::Write>(&self, f: &mut fmt::Formatter<W>) -> fmt::Result {
        write!(f, "Segment({:?}, {:?})", self.tag(), self.value())
    }
}

impl Segment {
    ghost use Rattle.tk_ids.specs.IdText.{IsNonEmptyText};
    ghost use Rattle.tk_ids.specs.Answer.{IsSegmentOf};

    // Makes a segment of copies of `tag` and `value`, which have no escapes and aren't empty.
    fn of_texts(alloc: Global, tag: &str, value: &str) -> Result<Segment, AllocError>
        requires tag { IsNonEmptyText tag.now }
        requires value { IsNonEmptyText value.now }
        ensures { IfOk result (λ s. s ≡ record { tag = tag.now; value = value.now }) }
    {
        Ok(Segment {
            text: Text::join(alloc, tag, value)?,
            tag_len: tag.len(),
        })
    }

    /// Makes a segment of copies of `tag` and `value`, which stand without escapes.
    ///
    /// # Errors
    /// `Empty` where one of them is empty, or `Memory`.
    pub fn new(alloc: Global, tag: &str, value: &str) -> Result<Segment, IdFault>
        ensures { IsSegmentOf tag.now value.now result }
    {
        if tag.is_empty() || value.is_empty() {
            return Err(IdFault::Empty);
        }
        Ok(Segment::of_texts(alloc, tag, value)?)
    }

    /// Makes another segment with copies of the tag and the value.
    ///
    /// # Errors
    /// `AllocError` where a request for memory is refused.
    pub fn try_clone(&self) -> Result<Segment, AllocError>
        ensures { IfOk result (λ s. s ≡ self.now) }
    {
        Ok(Segment {
            text: self.text.try_clone()?,
            tag_len: self.tag_len,
        })
    }

    /// The tag, without escapes.
    pub fn tag(&self) -> &str
        ensures value { result.now ≡ self.now.tag }
        ensures partial { IsNonEmptyText result.now }
    {
        &self.text.as_str()[..self.tag_len]
    }

    /// The value, without escapes.
    pub fn value(&self) -> &str
        ensures value { result.now ≡ self.now.value }
        ensures partial { IsNonEmptyText result.now }
    {
        &self.text.as_str()[self.tag_len..]
    }
}

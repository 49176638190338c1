//! Unique ids.
ghost use Rattle.std.specs.Prelude.{◌≡◌, ℕ, List, MatchOption, IfOk, IfErr, IsOk, OnOk, length, [], ◌∷◌, ◌++◌, ◌<◌, ◌≤◌, ◌⊎◌, IsTrue, ◌↔◌};
ghost use Rattle.tk_ids.specs.IdText.{EndsInEscape};
ghost use Rattle.tk_ids.specs.steps.IdSegments.{IsLastSlash, IsCheckedAs, IsFaultAfter};

use crate::id_faults::IdFault;
use crate::id_fields::IdFields;
use crate::id_texts::IdText;
use crate::scanning::count_segments;
use crate::segment_lists::Segments;
use crate::segments::Segment;
use crate::texts::Text;
use crate::writing::push_segment;
use std::alloc::{AllocError, Global};
use std::fmt;
use std::marker::Model;
use std::sync::Arc;

/// The most bytes that the text of an id may have.
pub const MAX_BYTES: usize = 4096;

/// The most segments that an id may have.
pub const MAX_SEGMENTS: usize = 64;

/// A descriptor's path from its root, one segment or more. Clones share it. JUnit: `UniqueId`.
#[derive(Drop)]
pub struct UniqueId {
    path: Arc<IdFields>,
}

impl Model for UniqueId {
    ghost use Rattle.std.specs.Prelude.{List};
    ghost use Rattle.std.specs.Arc.{arc_value};
    ghost use Rattle.tk_ids.specs.IdText.{SegmentView};
    ghost use Rattle.tk_ids.specs.IdSegments.{segments_of};
    ghost use Rattle.tk_ids.specs.KeptTexts.{kept_text, AreKept};

    ghost Value = { List SegmentView };

    ghost view = { λ u. segments_of (kept_text (arc_value u.path)) };

    ghost invariant = { λ u. AreKept (arc_value u.path) };
}

/// Shows the id's text, in quotes.
impl fmt::Debug for UniqueId {
    fn fmt<W: fmt::Write>(&self, f: &mut fmt::Formatter<W>) -> fmt::Result {
        fmt::Debug::fmt(self.path.text(), f)
    }
}

// Whether a text ends within an escape.
fn ends_in_escape(prefix: &[u8]) -> bool
    ensures { IsTrue result ↔ EndsInEscape prefix.now }
{
    let n = prefix.len();
    (n >= 1 && prefix[n - 1] == b'%') || (n >= 2 && prefix[n - 2] == b'%')
}

// The fault of a text that goes wrong after this prefix.
fn fault_after(prefix: &[u8]) -> IdFault
    ensures { IsFaultAfter prefix.now result }
{
    if ends_in_escape(prefix) {
        IdFault::BadEscape(prefix.len())
    } else {
        IdFault::BadSegment(prefix.len())
    }
}

// Finds the last `/` of a text.
fn last_slash(bytes: &[u8]) -> Option<usize>
    ensures { IsLastSlash bytes.now result }
{
    let mut at = bytes.len();
    'slashes: while at > 0 {
        at -= 1;
        if bytes[at] == b'/' {
            return Some(at);
        }
    }
    None
}

// Counts the segments of the id within the limits that has this text.
fn count_segments_of_id(text: &str) -> Result<usize, IdFault>
    ensures { IsCheckedAs text.now result }
{
    if text.is_empty() {
        return Err(IdFault::Empty);
    }
    let segment_count = match count_segments(text) {
        Ok(segment_count) => segment_count,
        Err(at) => return Err(fault_after(&text.as_bytes()[..at])),
    };
    if text.len() > MAX_BYTES || segment_count > MAX_SEGMENTS {
        return Err(IdFault::TooLong);
    }
    Ok(segment_count)
}

impl UniqueId {
    ghost use Rattle.tk_ids.specs.IdText.{IsId, id_text, IsEngine, IsBelow, FitsLimits, parent_of};
    ghost use Rattle.tk_ids.specs.Answer.{IsReadAs, IsMadeOf};
    ghost use Rattle.tk_ids.specs.IdSegments.{segments_of, IsTextOfId};

    // Makes the id that has this text.
    fn with_text(alloc: Global, text: Text, segment_count: usize) -> Result<UniqueId, AllocError>
        requires { IsTextOfId text segment_count }
        ensures { IfOk result (λ id. id ≡ segments_of text) }
    {
        Ok(UniqueId {
            path: Arc::new(alloc, IdFields::new(alloc, text, segment_count)?)?,
        })
    }

    /// Reads an id from its text: `[tag:value]` for each segment, joined by `/`, where `%`, `+`,
    /// `[`, `]`, `:` and `/` in a tag or a value stand as `%25`, `%2B`, `%5B`, `%5D`, `%3A` and
    /// `%2F`. No other spelling is read.
    ///
    /// # Errors
    /// `Empty` where the text is empty. `BadSegment(n)` or `BadEscape(n)` where it is no id's
    /// text: n is the length of its longest prefix with which some id's text begins. `TooLong`, or
    /// `Memory`.
    pub fn read(alloc: Global, text: &str) -> Result<UniqueId, IdFault>
        ensures { IsReadAs text.now result }
    {
        let segment_count = count_segments_of_id(text)?;
        let text = Text::copy(alloc, text)?;
        Ok(UniqueId::with_text(alloc, text, segment_count)?)
    }

    /// Makes the id that has this text, which it keeps: as [`UniqueId::read`], without a copy.
    ///
    /// # Errors
    /// Those of [`UniqueId::read`]. The text is then dropped.
    pub fn from_text(alloc: Global, text: Text) -> Result<UniqueId, IdFault>
        ensures { IsReadAs text result }
    {
        let segment_count = count_segments_of_id(text.as_str())?;
        Ok(UniqueId::with_text(alloc, text, segment_count)?)
    }

    /// Copies the id's text.
    ///
    /// # Errors
    /// `AllocError` where a request for memory is refused.
    pub fn write(&self) -> Result<Text, AllocError>
        ensures text { IfOk result (λ t. t ≡ id_text self.now) }
        // What every id is.
        ensures id { IsId self.now }
        ensures fits { FitsLimits self.now }
    {
        self.path.text().try_clone()
    }

    /// Lends the id's text.
    pub fn as_text(&self) -> &Text
        ensures text { result.now ≡ id_text self.now }
        // What every id is.
        ensures id { IsId self.now }
        ensures fits { FitsLimits self.now }
    {
        self.path.text()
    }

    // Lends the bytes of the id's text.
    fn as_bytes(&self) -> &[u8]
        ensures text { result.now ≡ id_text self.now }
        ensures id { IsId self.now }
    {
        self.as_text().as_str().as_bytes()
    }

    /// Makes a key of maps of the id's text, which it shares.
    ///
    /// # Errors
    /// `AllocError` where the text has as many owners as can be counted.
    pub fn shared_text(&self) -> Result<IdText, AllocError>
        ensures text { IfOk result (λ t. t ≡ id_text self.now) }
        // What every id is.
        ensures id { IsId self.now }
        ensures fits { FitsLimits self.now }
    {
        Ok(IdText::of(Arc::try_clone(&self.path)?))
    }

    /// Counts the segments.
    pub fn segment_count(&self) -> usize
        ensures { result ≡ length self.now }
    {
        self.path.segment_count()
    }

    /// Lends the segments, beginning with the root's.
    pub fn segments(&self) -> Segments<'_>
        ensures { result ≡ self.now }
    {
        Segments::new(
            self.path.text().as_str(),
            self.path.plain_text().as_str(),
            self.segment_count(),
        )
    }

    /// Whether the id is one segment with the tag `engine`.
    pub fn is_engine(&self) -> bool
        ensures { IsTrue result ↔ IsEngine self.now }
    {
        self.segment_count() == 1 && self.as_bytes().starts_with(b"[engine:")
    }

    /// Whether the id has the segments of `above`, and more after them.
    pub fn is_below(&self, above: &UniqueId) -> bool
        ensures { IsTrue result ↔ IsBelow above.now self.now }
    {
        let (outer, inner) = (above.as_bytes(), self.as_bytes());
        inner.len() > outer.len() && inner[outer.len()] == b'/' && inner.starts_with(outer)
    }

    /// Makes another id with the same segments, which shares its text.
    ///
    /// # Errors
    /// `AllocError` where the text has as many owners as can be counted.
    pub fn try_clone(&self) -> Result<UniqueId, AllocError>
        ensures { IfOk result (λ id. id ≡ self.now) }
    {
        Ok(UniqueId {
            path: Arc::try_clone(&self.path)?,
        })
    }

    /// Lends the text of the id without its last segment, where it has more than one.
    pub(crate) fn parent_text(&self) -> Option<&str>
        ensures { MatchOption result (length self.now ≡ 1)
            (λ text. (1 < length self.now) × IsId (parent_of self.now)
            × FitsLimits (parent_of self.now) × (text.now ≡ id_text (parent_of self.now))) }
    {
        let text = self.as_text().as_str();
        let at = last_slash(text.as_bytes())?;
        Some(&text[..at])
    }

    /// Makes the id without its last segment, or `None` where it has only one.
    ///
    /// # Errors
    /// `AllocError` where a request for memory is refused.
    pub fn parent(&self, alloc: Global) -> Result<Option<UniqueId>, AllocError>
        ensures { IfOk result (λ parent. MatchOption parent (length self.now ≡ 1)
            (λ id. (1 < length self.now) × (id ≡ parent_of self.now))) }
    {
        let Some(text) = self.parent_text() else {
            return Ok(None);
        };
        let text = Text::copy(alloc, text)?;
        Ok(Some(UniqueId::with_text(alloc, text, self.segment_count() - 1)?))
    }

    /// Makes the id of a root: one segment.
    ///
    /// # Errors
    /// `TooLong`, or `Memory`.
    pub fn of(alloc: Global, segment: &Segment) -> Result<UniqueId, IdFault>
        ensures { IsMadeOf (segment.now ∷ []) result }
    {
        let mut bytes = Vec::new(alloc);
        push_segment(&mut bytes, segment)?;
        if bytes.len() > MAX_BYTES {
            return Err(IdFault::TooLong);
        }
        Ok(UniqueId::with_text(alloc, Text::from_utf8(bytes), 1)?)
    }

    // Makes the text of the id with one segment more.
    fn text_with(&self, alloc: Global, segment: &Segment) -> Result<Text, AllocError>
        ensures text { IfOk result (λ t. t ≡ id_text (self.now ++ segment.now ∷ [])) }
        ensures id { OnOk result (IsId (self.now ++ segment.now ∷ [])) }
    {
        let text = self.as_bytes();
        // Room for all of it where nothing in the segment is escaped; a longer text grows.
        let names = segment.tag().len().saturating_add(segment.value().len());
        let signs = b"/[:]".len();
        let capacity = text.len().saturating_add(names).saturating_add(signs);
        let mut bytes = Vec::with_capacity(alloc, capacity)?;
        bytes.extend_from_slice(text)?;
        bytes.push(b'/')?;
        push_segment(&mut bytes, segment)?;
        Ok(Text::from_utf8(bytes))
    }

    /// Makes the id of a child: the segments of this id, and `segment` after them.
    ///
    /// # Errors
    /// `TooLong`, or `Memory`.
    pub fn append(&self, alloc: Global, segment: &Segment) -> Result<UniqueId, IdFault>
        ensures { IsMadeOf (self.now ++ segment.now ∷ []) result }
    {
        let segment_count = self.segment_count();
        let text = self.text_with(alloc, segment)?;
        if text.len() > MAX_BYTES || segment_count >= MAX_SEGMENTS {
            return Err(IdFault::TooLong);
        }
        Ok(UniqueId::with_text(alloc, text, segment_count + 1)?)
    }
}

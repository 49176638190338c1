//! The segments of an id, lent out of it.
ghost use Rattle.std.specs.Prelude.{◌≡◌, ◌↔◌, [], ◌∷◌, length, IsTrue, MatchOption, slice_get, ◌⊎◌};
ghost use Rattle.std.specs.Iterator.{YieldsFirst, item_count};
ghost use Rattle.tk_ids.specs.Characters.{colon, close_bracket};
ghost use Rattle.tk_ids.specs.steps.IdSegments.{AreLengths};

use std::marker::Model;

/// A segment that is lent out of an id.
#[derive(Drop)]
pub struct SegmentRef<'a> {
    tag: &'a str,
    value: &'a str,
}

impl<'a> Model for SegmentRef<'a> {
    ghost use Rattle.tk_ids.specs.IdText.{SegmentView};

    ghost Value = { SegmentView };

    ghost view = { λ s. record { tag = s.tag.now; value = s.value.now } };
}

impl<'a> SegmentRef<'a> {
    /// The tag, without escapes.
    pub fn tag(&self) -> &'a str
        ensures { result.now ≡ self.now.tag }
    {
        self.tag
    }

    /// The value, without escapes.
    pub fn value(&self) -> &'a str
        ensures { result.now ≡ self.now.value }
    {
        self.value
    }
}

/// The segments of an id, beginning with the root's, lent out of it. Contracts see them as a list.
#[derive(Drop)]
pub struct Segments<'a> {
    text: &'a [u8],
    // The text without escapes.
    plain: &'a str,
    len: usize,
}

impl<'a> Model for Segments<'a> {
    ghost use Rattle.std.specs.Prelude.{List};
    ghost use Rattle.tk_ids.specs.IdText.{SegmentView};
    ghost use Rattle.tk_ids.specs.IdSegments.{segments_of};
    ghost use Rattle.tk_ids.specs.LentSegments.{AreTextsOf};

    ghost Value = { List SegmentView };

    ghost view = { λ s. segments_of s.text.now };

    ghost invariant = { λ s. AreTextsOf s.text.now s.plain.now s.len };
}

/// How many bytes a tag or a value has with its escapes, and without.
#[derive(Clone, Copy)]
pub(crate) struct PartLengths {
    escaped: usize,
    plain: usize,
}

// Measures the tag or the value with which a text begins, and which `stop` ends.
fn part_lengths(text: &[u8], stop: u8) -> PartLengths
    requires { stop ≡ colon ⊎ stop ≡ close_bracket }
    ensures { AreLengths text.now stop result }
{
    let mut escaped = 0;
    let mut plain = 0;
    'bytes: while escaped < text.len() && text[escaped] != stop {
        escaped += if text[escaped] == b'%' { 3 } else { 1 };
        plain += 1;
    }
    PartLengths { escaped, plain }
}

impl<'a> Segments<'a> {
    ghost use Rattle.tk_ids.specs.LentSegments.{AreTextsOf};
    ghost use Rattle.tk_ids.specs.IdSegments.{segments_of};

    /// Lends the segments of these texts, the one with escapes and the other without.
    pub(crate) fn new(text: &'a str, plain: &'a str, len: usize) -> Segments<'a>
        requires { AreTextsOf text.now plain.now len }
        ensures { result ≡ segments_of text.now }
    {
        Segments {
            text: text.as_bytes(),
            plain,
            len,
        }
    }

    /// Counts the segments.
    pub fn len(&self) -> usize
        ensures { result ≡ length self.now }
    {
        self.len
    }

    /// Whether there is no segment: never in those of an id.
    pub fn is_empty(&self) -> bool
        ensures { IsTrue result ↔ (self.now ≡ []) }
    {
        self.len == 0
    }

    // Lends the first segment, and those after it.
    fn split_first(&self) -> Option<(SegmentRef<'a>, Segments<'a>)>
        ensures { MatchOption result (self.now ≡ []) (λ split. self.now ≡ split.0 ∷ split.1) }
    {
        if self.len == 0 {
            return None;
        }
        // `[tag:value]`, and then nothing, or `/` and the next segments.
        let from_tag = &self.text[1..];
        let tag = part_lengths(from_tag, b':');
        let from_value = &from_tag[tag.escaped + 1..];
        let value = part_lengths(from_value, b']');
        let next = (value.escaped + 2).min(from_value.len());
        let tag_end = tag.plain + 1;
        let value_start = tag_end + 1;
        let value_end = value_start + value.plain;
        let next_plain = (value_end + 2).min(self.plain.len());
        let first = SegmentRef {
            tag: &self.plain[1..tag_end],
            value: &self.plain[value_start..value_end],
        };
        let rest = Segments {
            text: &from_value[next..],
            plain: &self.plain[next_plain..],
            len: self.len - 1,
        };
        Some((first, rest))
    }

    /// Lends the segment at this position, or `None` where there are fewer segments.
    pub fn get(&self, index: usize) -> Option<SegmentRef<'a>>
        ensures { result ≡ slice_get self.now index }
    {
        self.iter().nth(index)
    }

    /// Goes over the segments, beginning with the root's.
    pub fn iter(&self) -> SegmentIter<'a>
        ensures { result ≡ self.now }
    {
        SegmentIter {
            rest: Segments {
                text: self.text,
                plain: self.plain,
                len: self.len,
            },
        }
    }
}

/// The segments of an id that are still to come. Contracts see them as a list.
#[derive(Drop)]
pub struct SegmentIter<'a> {
    rest: Segments<'a>,
}

impl<'a> Model for SegmentIter<'a> {
    ghost use Rattle.std.specs.Prelude.{List};
    ghost use Rattle.tk_ids.specs.IdText.{SegmentView};

    ghost Value = { List SegmentView };

    ghost view = { λ i. i.rest };
}

impl<'a> Iterator for SegmentIter<'a> {
    type Item = SegmentRef<'a>;

    ghost next_gives = { YieldsFirst (λ i. i) };

    ghost remaining = { item_count (λ i. i) };

    fn next(&mut self) -> Option<SegmentRef<'a>> {
        let (first, rest) = self.rest.split_first()?;
        self.rest = rest;
        Some(first)
    }
}

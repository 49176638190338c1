//! Finding out whether a text is an id's, without memory.
ghost use Rattle.std.specs.Prelude.{◌≡◌, ◌<◌, ◌≤◌, length, MatchResult, IsTrue, ◌↔◌};
ghost use Rattle.tk_ids.specs.declared.scanning.ScanState.TheVariants.{End};
ghost use Rattle.tk_ids.specs.Answer.{IsBadAt};
ghost use Rattle.tk_ids.specs.steps.Scanning.{part, part_after, is_ended, state_after, ended_segments, KeepsPlainBytes, ArePlain, HasSegments};

use crate::escapes::{Escape, byte_of_digits, digits_of_byte};

/// What is known of a tag or a value as far as it is read.
#[derive(Clone, Copy)]
pub(crate) struct Part {
    has_bytes: bool,
    escape: Escape,
}

/// Where in a segment a text was read to.
#[derive(Clone, Copy)]
pub(crate) enum ScanState {
    /// Before its `[`.
    Start,
    Tag(Part),
    Value(Part),
    /// After its `]`.
    End,
}

impl Part {
    const EMPTY: Part = Part {
        has_bytes: false,
        escape: Escape::Plain,
    };

    const WHOLE: Part = Part {
        has_bytes: true,
        escape: Escape::Plain,
    };
}

// The tag or the value with one byte more, where it may stand there.
#[inline(always)]
fn next_part(part: Part, byte: u8) -> Option<Part>
    ensures { result ≡ part_after part.has_bytes part.escape byte }
{
    let has_bytes = part.has_bytes;
    match part.escape {
        Escape::Plain => {
            if byte == b'%' {
                return Some(Part {
                    has_bytes,
                    escape: Escape::Percent,
                });
            }
            match digits_of_byte(byte) {
                None => Some(Part::WHOLE),
                Some(_) => None,
            }
        }
        Escape::Percent => {
            if !matches!(byte, b'2' | b'3' | b'5') {
                return None;
            }
            Some(Part {
                has_bytes,
                escape: Escape::Digit(byte),
            })
        }
        Escape::Digit(first) => byte_of_digits(first, byte).map(|_| Part::WHOLE),
    }
}

// Whether the tag or the value is whole, and this byte ends it.
#[inline(always)]
fn ends(part: Part, stop: u8, byte: u8) -> bool
    ensures { result ≡ is_ended stop part.has_bytes part.escape byte }
{
    matches!(part.escape, Escape::Plain) && byte == stop && part.has_bytes
}

// The state after one byte more, where it may stand there.
#[inline(always)]
fn next_state(state: ScanState, byte: u8) -> Option<ScanState>
    ensures { result ≡ state_after state byte }
{
    match state {
        ScanState::Start => (byte == b'[').then_some(ScanState::Tag(Part::EMPTY)),
        ScanState::Tag(tag) => {
            if ends(tag, b':', byte) {
                return Some(ScanState::Value(Part::EMPTY));
            }
            Some(ScanState::Tag(next_part(tag, byte)?))
        }
        ScanState::Value(value) => {
            if ends(value, b']', byte) {
                return Some(ScanState::End);
            }
            Some(ScanState::Value(next_part(value, byte)?))
        }
        ScanState::End => (byte == b'/').then_some(ScanState::Start),
    }
}

impl ScanState {
    // Whether a segment ends here.
    fn is_end(self) -> bool
        ensures { IsTrue result ↔ (self ≡ End) }
    {
        matches!(self, ScanState::End)
    }

    // Counts the segments that end here: one or none.
    fn ended_segments(self) -> usize
        ensures { result ≡ ended_segments self }
    {
        match self {
            ScanState::End => 1,
            ScanState::Start | ScanState::Tag(_) | ScanState::Value(_) => 0,
        }
    }

    // Whether bytes that need no escape leave the state as it is.
    fn keeps_plain_bytes(self) -> bool
        ensures { IsTrue result → KeepsPlainBytes self }
    {
        match self {
            ScanState::Tag(part) | ScanState::Value(part) => {
                part.has_bytes && matches!(part.escape, Escape::Plain)
            }
            ScanState::Start | ScanState::End => false,
        }
    }
}

// Finds where the bytes from `from` on end that need no escape.
fn end_of_plain_bytes(bytes: &[u8], from: usize) -> usize
    requires { from ≤ length bytes.now }
    ensures { ArePlain bytes.now from result }
{
    let mut end = from;
    'plain: while end < bytes.len() {
        if digits_of_byte(bytes[end]).is_some() {
            return end;
        }
        end += 1;
    }
    end
}

/// Counts the segments of the id that has this text, which isn't empty.
///
/// # Errors
/// The length of the longest prefix with which some id's text begins, where the text is no id's.
pub(crate) fn count_segments(text: &str) -> Result<usize, usize>
    requires { 0 < length text.now }
    ensures { MatchResult result (HasSegments text.now) (IsBadAt text.now) }
{
    let bytes = text.as_bytes();
    let mut state = ScanState::Start;
    let mut count = 0;
    let mut at = 0;
    'bytes: while at < bytes.len() {
        let Some(next) = next_state(state, bytes[at]) else {
            return Err(at);
        };
        count += next.ended_segments();
        state = next;
        at += 1;
        if state.keeps_plain_bytes() {
            at = end_of_plain_bytes(bytes, at);
        }
    }
    if state.is_end() {
        Ok(count)
    } else {
        Err(bytes.len())
    }
}

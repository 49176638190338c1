//! Reading a condition byte by byte.
ghost use Rattle.std.specs.Prelude.{◌≡◌, [], ◌∷◌, IfOk, option_map, Some, length, MatchOption};
ghost use Rattle.tk_query_conditions.specs.Cond.{Cond, NoPairs, Plain};
ghost use Rattle.tk_query_conditions.specs.CondOf.{cond_of, pairs_from};
ghost use Rattle.tk_query_conditions.specs.steps.Reader.{group_of, groups_of, text_atom_of, opener_of, in_pairs, state_of, depth_of, ContinuesAsText, CanContinue};
ghost use Rattle.tk_query_conditions.specs.steps.Reading.{Word, InText, InKind, InTag, InValue, InPairs, After, start, step, close, close_empty, after_word, opened, next_text, last_text, ended, look};

use crate::conditions::Condition;
use crate::open_groups::OpenGroup;
use crate::partial_texts::PartialText;
use crate::words::{
    Opener, TextAtom, bare_named, begins_kind, begins_word, kind_named, opener_named,
};
use std::alloc::{AllocError, Global};
use tk_events::Pairs;
use tk_ids::Text;

/// The pairs of an entry, as far as they are read.
#[derive(Drop)]
pub(crate) struct PartialPairs {
    /// The pairs that are whole.
    whole: Pairs,
    /// The key of the next pair, where it is read.
    key: Option<Text>,
    /// What is read of the key or the value that comes next.
    partial: PartialText,
}

/// Where a text is in a condition.
#[derive(Drop)]
pub(crate) enum Position {
    /// In a word.
    Word(Vec<u8>),
    /// In the text of an atom.
    Text(TextAtom, PartialText),
    /// In the name of a kind.
    Kind(Vec<u8>),
    /// In the tag of a segment.
    Tag(PartialText),
    /// In the value of a segment, after its tag.
    Value(Text, PartialText),
    /// In the pairs of an entry.
    Pairs(PartialPairs),
    /// After a condition.
    After(Condition),
}

/// A condition, as far as its text is read: the open brackets, the last one at the end, and what is
/// read in it.
#[derive(Drop)]
pub(crate) struct Reader {
    stack: Vec<OpenGroup>,
    position: Position,
}

type NextReader = Result<Option<Reader>, AllocError>;

/// Makes the reader after a condition.
fn after(stack: Vec<OpenGroup>, condition: Condition) -> Reader
    ensures { state_of result ≡ After (groups_of stack.items) (cond_of condition) }
{
    Reader {
        stack,
        position: Position::After(condition),
    }
}

/// Makes the reader before a condition that stands in one more bracket, the innermost.
fn within(alloc: Global, mut stack: Vec<OpenGroup>, group: OpenGroup) -> NextReader
    ensures { IfOk result (λ next.
        Some (Word (group_of group ∷ groups_of stack.items) []) ≡ option_map state_of next) }
{
    stack.push(group)?;
    Ok(Some(Reader {
        stack,
        position: Position::Word(Vec::new(alloc)),
    }))
}

/// Reads the byte after a condition: `)` closes the innermost bracket, `,` begins its next member.
fn close(alloc: Global, mut stack: Vec<OpenGroup>, condition: Condition, byte: u8) -> NextReader
    ensures { IfOk result (λ next.
        close (groups_of stack.items) (cond_of condition) byte ≡ option_map state_of next) }
{
    let Some(mut group) = stack.pop() else {
        drop(condition);
        return Ok(None);
    };
    match byte {
        b')' => Ok(Some(after(stack, group.close(alloc, condition)?))),
        b',' => {
            if group.join(condition)? {
                within(alloc, stack, group)
            } else {
                Ok(None)
            }
        }
        _ => {
            drop(condition);
            Ok(None)
        }
    }
}

/// Reads the byte after a bracket that has no member yet: only `)` may stand there.
fn close_empty(mut stack: Vec<OpenGroup>, byte: u8) -> Option<Reader>
    ensures { close_empty (groups_of stack.items) byte ≡ option_map state_of result }
{
    let group = stack.pop()?;
    if byte != b')' {
        return None;
    }
    let condition = group.close_empty()?;
    Some(after(stack, condition))
}

/// Reads `)` or `,` after a word, which is a condition by itself, or after no word, where `)`
/// closes a bracket without a member.
fn after_word(alloc: Global, stack: Vec<OpenGroup>, word: &[u8], byte: u8) -> NextReader
    ensures { IfOk result (λ next.
        after_word (groups_of stack.items) word.now byte ≡ option_map state_of next) }
{
    if word.is_empty() {
        return Ok(close_empty(stack, byte));
    }
    match bare_named(word) {
        Some(condition) => close(alloc, stack, condition, byte),
        None => Ok(None),
    }
}

/// Reads `(` after the word of this opener.
fn after_opener(alloc: Global, stack: Vec<OpenGroup>, opener: Opener) -> NextReader
    ensures { IfOk result (λ next.
        Some (opened (groups_of stack.items) (opener_of opener)) ≡ option_map state_of next) }
{
    match opener {
        Opener::Text(text_atom) => Ok(Some(Reader {
            stack,
            position: Position::Text(text_atom, PartialText::new(alloc)),
        })),
        Opener::Kind => Ok(Some(Reader {
            stack,
            position: Position::Kind(Vec::new(alloc)),
        })),
        Opener::Segment => Ok(Some(Reader {
            stack,
            position: Position::Tag(PartialText::new(alloc)),
        })),
        Opener::Entry => Ok(Some(Reader {
            stack,
            position: Position::Pairs(PartialPairs {
                whole: Pairs::new(alloc),
                key: None,
                partial: PartialText::new(alloc),
            }),
        })),
        Opener::All => within(alloc, stack, OpenGroup::All(Vec::new(alloc))),
        Opener::Any => within(alloc, stack, OpenGroup::Any(Vec::new(alloc))),
        Opener::Not => within(alloc, stack, OpenGroup::Not),
    }
}

/// Reads a byte in a word, or where a condition may begin.
fn feed_word(alloc: Global, stack: Vec<OpenGroup>, mut word: Vec<u8>, byte: u8) -> NextReader
    ensures { IfOk result (λ next.
        step (Word (groups_of stack.items) word.items) byte ≡ option_map state_of next) }
{
    match byte {
        b')' | b',' => after_word(alloc, stack, &word, byte),
        b'(' => match opener_named(&word) {
            Some(opener) => after_opener(alloc, stack, opener),
            None => Ok(None),
        },
        _ => {
            word.push(byte)?;
            if begins_word(&word) {
                Ok(Some(Reader {
                    stack,
                    position: Position::Word(word),
                }))
            } else {
                Ok(None)
            }
        }
    }
}

/// Reads a byte in the text of an atom.
fn feed_text(
    stack: Vec<OpenGroup>,
    text_atom: TextAtom,
    mut partial: PartialText,
    byte: u8,
) -> NextReader
    requires text { ContinuesAsText partial byte }
    ensures { IfOk result (λ next.
        step (InText (groups_of stack.items) (text_atom_of text_atom) partial) byte
        ≡ option_map state_of next) }
{
    if partial.ends(b')', byte) {
        Ok(Some(after(stack, text_atom.condition(partial.into_text()))))
    } else if partial.feed(byte)? {
        Ok(Some(Reader {
            stack,
            position: Position::Text(text_atom, partial),
        }))
    } else {
        Ok(None)
    }
}

/// Reads a byte in the name of a kind.
fn feed_kind(stack: Vec<OpenGroup>, mut word: Vec<u8>, byte: u8) -> NextReader
    ensures { IfOk result (λ next.
        step (InKind (groups_of stack.items) word.items) byte ≡ option_map state_of next) }
{
    if byte == b')' {
        return match kind_named(&word) {
            Some(kind) => Ok(Some(after(stack, Condition::Kind(kind)))),
            None => Ok(None),
        };
    }
    word.push(byte)?;
    if begins_kind(&word) {
        Ok(Some(Reader {
            stack,
            position: Position::Kind(word),
        }))
    } else {
        Ok(None)
    }
}

/// Reads a byte in the tag of a segment.
fn feed_tag(alloc: Global, stack: Vec<OpenGroup>, mut partial: PartialText, byte: u8) -> NextReader
    requires text { ContinuesAsText partial byte }
    ensures { IfOk result (λ next.
        step (InTag (groups_of stack.items) partial) byte ≡ option_map state_of next) }
{
    if partial.ends(b',', byte) {
        Ok(Some(Reader {
            stack,
            position: Position::Value(partial.into_text(), PartialText::new(alloc)),
        }))
    } else if partial.feed(byte)? {
        Ok(Some(Reader {
            stack,
            position: Position::Tag(partial),
        }))
    } else {
        Ok(None)
    }
}

/// Reads a byte in the value of a segment.
fn feed_value(stack: Vec<OpenGroup>, tag: Text, mut partial: PartialText, byte: u8) -> NextReader
    requires text { ContinuesAsText partial byte }
    ensures { IfOk result (λ next.
        step (InValue (groups_of stack.items) tag partial) byte ≡ option_map state_of next) }
{
    if partial.ends(b')', byte) {
        Ok(Some(after(stack, Condition::Segment(tag, partial.into_text()))))
    } else if partial.feed(byte)? {
        Ok(Some(Reader {
            stack,
            position: Position::Value(tag, partial),
        }))
    } else {
        Ok(None)
    }
}

/// Reads the comma after a text in pairs: the text is a key, or the value of the key before it.
fn next_text(
    alloc: Global,
    stack: Vec<OpenGroup>,
    mut pairs: Pairs,
    key: Option<Text>,
    text: Text,
) -> NextReader
    ensures { IfOk result (λ next.
        Some (next_text (groups_of stack.items) (pairs_from NoPairs pairs) key text)
        ≡ option_map state_of next) }
{
    match key {
        None => Ok(Some(Reader {
            stack,
            position: Position::Pairs(PartialPairs {
                whole: pairs,
                key: Some(text),
                partial: PartialText::new(alloc),
            }),
        })),
        Some(key) => {
            pairs.push(key, text)?;
            Ok(Some(Reader {
                stack,
                position: Position::Pairs(PartialPairs {
                    whole: pairs,
                    key: None,
                    partial: PartialText::new(alloc),
                }),
            }))
        }
    }
}

/// Reads the bracket that ends pairs: the text before it is the last value, or empty where there is
/// no pair.
fn last_text(stack: Vec<OpenGroup>, mut pairs: Pairs, key: Option<Text>, text: Text) -> NextReader
    ensures { IfOk result (λ next.
        last_text (groups_of stack.items) (pairs_from NoPairs pairs) key text
        ≡ option_map state_of next) }
{
    match key {
        Some(key) => {
            pairs.push(key, text)?;
            Ok(Some(after(stack, Condition::Entry(pairs))))
        }
        None => {
            if text.is_empty() && pairs.as_slice().is_empty() {
                Ok(Some(after(stack, Condition::Entry(pairs))))
            } else {
                Ok(None)
            }
        }
    }
}

/// Reads a byte in the pairs of an entry.
fn feed_pairs(alloc: Global, stack: Vec<OpenGroup>, pairs: PartialPairs, byte: u8) -> NextReader
    requires text { ContinuesAsText pairs.partial byte }
    ensures { IfOk result (λ next.
        step (in_pairs (groups_of stack.items) pairs) byte ≡ option_map state_of next) }
{
    let PartialPairs {
        whole,
        key,
        mut partial,
    } = pairs;
    if partial.ends(b',', byte) {
        next_text(alloc, stack, whole, key, partial.into_text())
    } else if partial.ends(b')', byte) {
        last_text(stack, whole, key, partial.into_text())
    } else if partial.feed(byte)? {
        Ok(Some(Reader {
            stack,
            position: Position::Pairs(PartialPairs {
                whole,
                key,
                partial,
            }),
        }))
    } else {
        Ok(None)
    }
}

impl Reader {
    /// Makes the reader before the first byte.
    pub(crate) fn new(alloc: Global) -> Reader
        ensures { state_of result ≡ start }
    {
        Reader {
            stack: Vec::new(alloc),
            position: Position::Word(Vec::new(alloc)),
        }
    }

    /// The reader after one more byte, or nothing where the byte may not stand there.
    pub(crate) fn feed(self, alloc: Global, byte: u8) -> NextReader
        requires text { CanContinue (state_of self) byte }
        ensures { IfOk result (λ next. step (state_of self) byte ≡ option_map state_of next) }
    {
        let Reader { stack, position } = self;
        match position {
            Position::Word(word) => feed_word(alloc, stack, word, byte),
            Position::Text(text_atom, partial) => feed_text(stack, text_atom, partial, byte),
            Position::Kind(word) => feed_kind(stack, word, byte),
            Position::Tag(partial) => feed_tag(alloc, stack, partial, byte),
            Position::Value(tag, partial) => feed_value(stack, tag, partial, byte),
            Position::Pairs(pairs) => feed_pairs(alloc, stack, pairs, byte),
            Position::After(condition) => close(alloc, stack, condition, byte),
        }
    }

    /// How many brackets of `all(`, `any(` and `not(` are open.
    pub(crate) fn depth(&self) -> usize
        ensures { result ≡ depth_of (state_of self.now) }
    {
        self.stack.len()
    }

    /// The condition that is read, where one is whole and no bracket is open.
    pub(crate) fn end(self) -> Option<Condition>
        ensures { MatchOption result ((c : Cond) → ended (state_of self) ≡ Some ([], c) → ⊥)
            (λ condition. ended (state_of self) ≡ Some ([], cond_of condition)) }
    {
        let Reader { stack, position } = self;
        if !stack.is_empty() {
            drop(position);
            return None;
        }
        match position {
            Position::Word(word) => bare_named(&word),
            Position::After(condition) => Some(condition),
            other => {
                drop(other);
                None
            }
        }
    }
}

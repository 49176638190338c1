//! The words of conditions.
ghost use Rattle.std.specs.Prelude.{◌≡◌, ◌||◌, option_map, bytes_eq};
ghost use Rattle.tk_query_conditions.specs.Cond.{Plain, With};
ghost use Rattle.tk_query_conditions.specs.CondOf.{cond_of};
ghost use Rattle.tk_query_conditions.specs.steps.Reader.{opener_of, text_atom_of};
ghost use Rattle.tk_query_conditions.specs.Reading.{begins_with};
ghost use Rattle.tk_query_conditions.specs.steps.Reading.{bares, openers, kinds, look, is_prefix};

use crate::conditions::Condition;
use tk_events::Kind;
use tk_ids::Text;

/// An atom with a text.
#[derive(Clone, Copy)]
pub(crate) enum TextAtom {
    Id,
    Name,
    Skipped,
    Failed,
    Aborted,
    Message,
    File,
}

impl TextAtom {
    /// The atom with this text.
    pub(crate) fn condition(self, text: Text) -> Condition
        ensures { cond_of result ≡ With (text_atom_of self) text }
    {
        match self {
            TextAtom::Id => Condition::Id(text),
            TextAtom::Name => Condition::Name(text),
            TextAtom::Skipped => Condition::Skipped(text),
            TextAtom::Failed => Condition::Failed(Some(text)),
            TextAtom::Aborted => Condition::Aborted(Some(text)),
            TextAtom::Message => Condition::Message(text),
            TextAtom::File => Condition::File(text),
        }
    }
}

/// What a word with a bracket opens.
#[derive(Clone, Copy)]
pub(crate) enum Opener {
    Text(TextAtom),
    Kind,
    Segment,
    Entry,
    All,
    Any,
    Not,
}

/// Every kind, in the order of the kinds' codes.
const KINDS: [Kind; 6] = [
    Kind::Dynamic,
    Kind::Skipped,
    Kind::Started,
    Kind::Finished,
    Kind::Reporting,
    Kind::File,
];

/// The kind of this name.
pub(crate) fn kind_named(word: &[u8]) -> Option<Kind>
    ensures { result ≡ look kinds word.now }
{
    for kind in &KINDS {
        if is_name(word, kind.word()) {
            return Some(*kind);
        }
    }
    None
}

/// Whether a word is this name.
fn is_name(word: &[u8], name: &str) -> bool
    ensures { result ≡ bytes_eq word.now name.now }
{
    word == name.as_bytes()
}

/// The atom of one word.
pub(crate) fn bare_named(word: &[u8]) -> Option<Condition>
    ensures { option_map cond_of result ≡ option_map Plain (look bares word.now) }
{
    if is_name(word, "test") {
        Some(Condition::Test)
    } else if is_name(word, "container") {
        Some(Condition::Container)
    } else if is_name(word, "engine") {
        Some(Condition::Engine)
    } else if is_name(word, "started") {
        Some(Condition::Started)
    } else if is_name(word, "succeeded") {
        Some(Condition::Succeeded)
    } else if is_name(word, "failed") {
        Some(Condition::Failed(None))
    } else if is_name(word, "aborted") {
        Some(Condition::Aborted(None))
    } else {
        None
    }
}

/// What this word opens.
pub(crate) fn opener_named(word: &[u8]) -> Option<Opener>
    ensures { option_map opener_of result ≡ look openers word.now }
{
    if is_name(word, "id") {
        Some(Opener::Text(TextAtom::Id))
    } else if is_name(word, "name") {
        Some(Opener::Text(TextAtom::Name))
    } else if is_name(word, "skipped") {
        Some(Opener::Text(TextAtom::Skipped))
    } else if is_name(word, "failed") {
        Some(Opener::Text(TextAtom::Failed))
    } else if is_name(word, "aborted") {
        Some(Opener::Text(TextAtom::Aborted))
    } else if is_name(word, "message") {
        Some(Opener::Text(TextAtom::Message))
    } else if is_name(word, "file") {
        Some(Opener::Text(TextAtom::File))
    } else if is_name(word, "kind") {
        Some(Opener::Kind)
    } else if is_name(word, "segment") {
        Some(Opener::Segment)
    } else if is_name(word, "entry") {
        Some(Opener::Entry)
    } else if is_name(word, "all") {
        Some(Opener::All)
    } else if is_name(word, "any") {
        Some(Opener::Any)
    } else if is_name(word, "not") {
        Some(Opener::Not)
    } else {
        None
    }
}

/// Whether a name begins with this word.
fn is_prefix_of(word: &[u8], name: &str) -> bool
    ensures { result ≡ begins_with word.now name.now }
{
    name.as_bytes().starts_with(word)
}

/// Whether the name of a kind begins so.
pub(crate) fn begins_kind(word: &[u8]) -> bool
    ensures { result ≡ is_prefix kinds word.now }
{
    for kind in &KINDS {
        if is_prefix_of(word, kind.word()) {
            return true;
        }
    }
    false
}

fn begins_bare(word: &[u8]) -> bool
    ensures { result ≡ is_prefix bares word.now }
{
    is_prefix_of(word, "test")
        || is_prefix_of(word, "container")
        || is_prefix_of(word, "engine")
        || is_prefix_of(word, "started")
        || is_prefix_of(word, "succeeded")
        || is_prefix_of(word, "failed")
        || is_prefix_of(word, "aborted")
}

fn begins_opener(word: &[u8]) -> bool
    ensures { result ≡ is_prefix openers word.now }
{
    is_prefix_of(word, "id")
        || is_prefix_of(word, "name")
        || is_prefix_of(word, "skipped")
        || is_prefix_of(word, "failed")
        || is_prefix_of(word, "aborted")
        || is_prefix_of(word, "message")
        || is_prefix_of(word, "file")
        || is_prefix_of(word, "kind")
        || is_prefix_of(word, "segment")
        || is_prefix_of(word, "entry")
        || is_prefix_of(word, "all")
        || is_prefix_of(word, "any")
        || is_prefix_of(word, "not")
}

/// Whether a word of conditions begins so.
pub(crate) fn begins_word(word: &[u8]) -> bool
    ensures { result ≡ (is_prefix bares word.now || is_prefix openers word.now) }
{
    begins_bare(word) || begins_opener(word)
}

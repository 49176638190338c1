//! Texts that contracts see as their bytes.
ghost use Rattle.std.specs.Prelude.{◌≡◌, ◌==◌, ◌++◌, ℕ, List, length, IfOk, IfSome, string_bytes, IsTrue, IsUtf8};
ghost use Rattle.std.specs.Prelude.{nat_eq, Some, refl};
ghost use Rattle.std.specs.Ordering.{nat_cmp};
ghost use Rattle.std.specs.Cmp;
ghost use Rattle.std.specs.Cmp.Lexicographic.{pointwise, slice_cmp, bytes_decides, nat_list_eq_equiv, nat_list_cmp_total, texts_ties, texts_po};
ghost use Rattle.std.specs.Hash as fed;
ghost use Rattle.std.proofs.Common.{ap};

use arrayvec::ArrayString;
use std::alloc::{AllocError, Global};
use std::cmp::Ordering;
use std::fmt;
use std::hash::{Hash, Hasher};
use std::marker::Model;

/// How many bytes a text may have to stand in the value itself.
const INLINE_BYTES: usize = 16;

// Where the bytes of a text are kept.
#[derive(Drop)]
enum Storage {
    // In the value itself, which then has no memory of its own.
    Inline(ArrayString<INLINE_BYTES>),
    Heap(String),
}

// Joins two texts in a value, where they fit into it.
fn join_inline(first: &str, second: &str) -> Option<ArrayString<INLINE_BYTES>>
    ensures { IfSome result (λ string. string.bytes ≡ first.now ++ second.now) }
{
    if INLINE_BYTES < first.len().saturating_add(second.len()) {
        return None;
    }
    let mut string = ArrayString::new();
    string.push_str(first);
    string.push_str(second);
    Some(string)
}

// Joins two texts in memory of their own.
fn join_on_heap(alloc: Global, first: &str, second: &str) -> Result<String, AllocError>
    ensures { IfOk result (λ string. string_bytes string ≡ first.now ++ second.now) }
{
    let mut string = String::with_capacity(alloc, first.len().saturating_add(second.len()))?;
    string.push_str(first)?;
    string.push_str(second)?;
    Ok(string)
}

/// A text in UTF-8. Contracts see it as the list of its bytes.
#[derive(Drop)]
pub struct Text {
    storage: Storage,
}

impl Model for Text {
    ghost use Rattle.std.specs.Prelude.{ℕ, List};
    ghost use Rattle.tk_ids.specs.Texts.{stored_bytes};

    ghost Value = { List ℕ };

    ghost view = { λ t. stored_bytes t.storage };
}

impl Text {
    /// Copies a text. One of at most 16 bytes needs no memory.
    ///
    /// # Errors
    /// `AllocError` where a request for memory is refused.
    pub fn copy(alloc: Global, text: &str) -> Result<Text, AllocError>
        ensures { IfOk result (λ t. t ≡ text.now) }
    {
        let storage = match ArrayString::from(text) {
            Ok(string) => Storage::Inline(string),
            Err(_) => Storage::Heap(String::from_str(alloc, text)?),
        };
        Ok(Text { storage })
    }

    /// Copies two texts, one after the other.
    pub(crate) fn join(alloc: Global, first: &str, second: &str) -> Result<Text, AllocError>
        ensures { IfOk result (λ t. t ≡ first.now ++ second.now) }
    {
        let storage = match join_inline(first, second) {
            Some(string) => Storage::Inline(string),
            None => Storage::Heap(join_on_heap(alloc, first, second)?),
        };
        Ok(Text { storage })
    }

    /// Makes a text of bytes that are UTF-8, which it keeps.
    pub fn from_utf8(bytes: Vec<u8>) -> Text
        requires { IsUtf8 bytes.items }
        ensures { result ≡ bytes.items }
    {
        match String::from_utf8(bytes) {
            Ok(string) => Text::from(string),
            Err(_) => unreachable!(),
        }
    }

    /// The text as a `str`.
    pub fn as_str(&self) -> &str
        ensures { result.now ≡ self.now }
    {
        match &self.storage {
            Storage::Inline(string) => string.as_str(),
            Storage::Heap(string) => string.as_str(),
        }
    }

    /// How many bytes the text has.
    pub fn len(&self) -> usize
        ensures { result ≡ length self.now }
    {
        self.as_str().len()
    }

    /// Whether the text has no byte.
    pub fn is_empty(&self) -> bool
        ensures { result ≡ (length self.now == 0) }
    {
        self.as_str().is_empty()
    }

    /// Another text with the same bytes.
    ///
    /// # Errors
    /// `AllocError` where a request for memory is refused.
    pub fn try_clone(&self) -> Result<Text, AllocError>
        ensures { IfOk result (λ t. t ≡ self.now) }
    {
        let storage = match &self.storage {
            Storage::Inline(string) => Storage::Inline(*string),
            Storage::Heap(string) => Storage::Heap(string.clone()?),
        };
        Ok(Text { storage })
    }
}

/// Shows the text as a `str` is shown: in quotes, with escapes.
impl fmt::Debug for Text {
    fn fmt<W: fmt::Write>(&self, f: &mut fmt::Formatter<W>) -> fmt::Result {
        fmt::Debug::fmt(self.as_str(), f)
    }
}

impl From<String> for Text {
    ghost from_gives = { λ s t. t ≡ string_bytes s };

    fn from(string: String) -> Text {
        Text {
            storage: Storage::Heap(string),
        }
    }
}

impl PartialEq for Text {
    ghost eq = { pointwise nat_eq };

    ghost laws = { Cmp.partial_equiv_from_equiv nat_list_eq_equiv };

    fn eq(&self, other: &Text) -> bool {
        self.as_str() == other.as_str()
    }
}

impl Eq for Text {
    ghost laws = { nat_list_eq_equiv };
}

impl PartialOrd for Text {
    ghost partial_cmp = { λ x y. Some (slice_cmp nat_cmp x y) };

    ghost laws = { texts_po };

    fn partial_cmp(&self, other: &Text) -> Option<Ordering> {
        Some(self.cmp(other))
    }
}

/// Texts are in the order of their bytes.
impl Ord for Text {
    ghost cmp = { slice_cmp nat_cmp };

    ghost total = { nat_list_cmp_total };

    ghost matches_partial_cmp = { λ x y. refl };

    ghost matches_eq = { texts_ties };

    fn cmp(&self, other: &Text) -> Ordering {
        self.as_str().cmp(other.as_str())
    }
}

impl Hash for Text {
    ghost hash_input = { fed.str };

    ghost respects_eq = { λ x y same. ap fed.str ((bytes_decides x y).0 same) };

    fn hash<H: Hasher>(&self, state: &mut H) {
        self.as_str().hash(state);
    }
}

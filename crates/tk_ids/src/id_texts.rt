//! Texts of ids, as keys of maps.
ghost use Rattle.std.specs.Prelude.{◌≡◌, nat_eq};
ghost use Rattle.std.specs.Arc.{arc_value};
ghost use Rattle.std.specs.Cmp;
ghost use Rattle.std.specs.Cmp.Lexicographic.{pointwise, bytes_decides, nat_list_eq_equiv};
ghost use Rattle.std.specs.Hash as fed;
ghost use Rattle.tk_ids.specs.KeptTexts.{kept_text};
ghost use Rattle.std.proofs.Common.{ap};

use crate::id_fields::IdFields;
use crate::texts::Text;
use indexmap::Equivalent;
use std::hash::{Hash, Hasher};
use std::marker::Model;
use std::sync::Arc;

/// The text of an id, which it shares with the id. Contracts see it as the list of its bytes.
#[derive(Drop)]
pub struct IdText {
    path: Arc<IdFields>,
}

impl Model for IdText {
    ghost use Rattle.std.specs.Prelude.{ℕ, List};
    ghost use Rattle.std.specs.Arc.{arc_value};
    ghost use Rattle.tk_ids.specs.KeptTexts.{kept_text};

    ghost Value = { List ℕ };

    ghost view = { λ t. kept_text (arc_value t.path) };
}

impl IdText {
    /// Makes the key of the id that keeps `path`. Its text is not copied.
    pub(crate) fn of(path: Arc<IdFields>) -> IdText
        ensures { result ≡ kept_text (arc_value path) }
    {
        IdText { path }
    }

    /// Lends the text.
    pub fn as_text(&self) -> &Text
        ensures { result.now ≡ self.now }
    {
        self.path.text()
    }
}

impl PartialEq for IdText {
    ghost eq = { pointwise nat_eq };

    ghost laws = { Cmp.partial_equiv_from_equiv nat_list_eq_equiv };

    fn eq(&self, other: &IdText) -> bool {
        self.as_text() == other.as_text()
    }
}

impl Eq for IdText {
    ghost laws = { nat_list_eq_equiv };
}

impl Hash for IdText {
    ghost hash_input = { fed.str };

    ghost respects_eq = { λ x y same. ap fed.str ((bytes_decides x y).0 same) };

    fn hash<H: Hasher>(&self, state: &mut H) {
        self.as_text().hash(state);
    }
}

/// A text finds the id that has it.
impl Equivalent<IdText> for &str {
    ghost equivalent = { λ q k. pointwise nat_eq q.now k };

    ghost respects_hash = { λ q k same. ap fed.str ((bytes_decides q.now k).0 same) };

    ghost respects_eq = { λ q x y. nat_list_eq_equiv.congr q.now x y };

    fn equivalent(&self, key: &IdText) -> bool {
        **self == *key.as_text().as_str()
    }
}

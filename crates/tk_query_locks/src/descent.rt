//! Which ids are apart by descent.
ghost use Rattle.std.specs.Prelude.{◌↔◌, IsTrue};
ghost use Rattle.tk_query_locks.specs.Conflicts.{AreApart};

use tk_ids::UniqueId;

/// Whether neither id begins with the segments of the other.
pub(crate) fn are_apart(a: &UniqueId, b: &UniqueId) -> bool
    ensures { IsTrue result ↔ AreApart a.now b.now }
{
    if a.as_text() == b.as_text() {
        return false;
    }
    if a.is_below(b) {
        return false;
    }
    !b.is_below(a)
}

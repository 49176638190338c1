//! Laws of a book's word, and of what a seat learns of it.
ghost use Rattle.std.specs.Prelude.{◌≡◌, ◌↔◌, ◌⊎◌, ◌+◌, ◌<◌, ◌≤◌, ◌++◌, [], ◌∷◌, ℕ, List, Option, Some, length};
ghost use Rattle.tk_base.specs.declared.limits.TheConstants.{MAX_WORKERS};
ghost use Rattle.tk_lanes.specs.Lanes.{Admits, lane_at};
ghost use Rattle.tk_locks.specs.NeedView.{NeedView};
ghost use Rattle.tk_locks.specs.Needs.{access, word_of, writes};
ghost use Rattle.tk_locks.specs.Holdings.{AreCompatible, Grants, Releases, WereHeld, WritersAreAlone};
ghost use Rattle.tk_locks.specs.Tries.{HasCause, TookLast, WasBusy, WasFree, WasFreeAtLast, WereBusy};
ghost use Rattle.tk_locks.specs.declared.books.Busy.{Busy};
ghost use Rattle.tk_locks.specs.declared.books.Busy.TheVariants.{Held, Moved};
ghost use Rattle.tk_locks.specs.Steps.{IsSumOfHoldings, ExchangeIsGrant, FailureIsNone, LoadIsNone, SubtractionIsRelease, SplitIsNone, JoinIsNone};

use crate::needs::Need;
use crate::rules::{AcquireStep, LoadStep, LockRule, ReleaseStep, SeatNote};
use atomic_table::{Join, Play, Split, TableRule};

/// Between any two steps a book's word is the sum of what its seats hold, and each step is a grant,
/// a release, or nothing. A split of a seat and a join of two change nothing of what is held.
pub fn each_step_is_a_holdings_step()
    ensures state { IsSumOfHoldings ⟦<LockRule as TableRule<Need, SeatNote, usize>>⟧.holds }
    ensures grant { ExchangeIsGrant ⟦<LockRule as TableRule<Need, SeatNote, usize>>⟧.holds
        ⟦<AcquireStep as Play<Need, SeatNote>>⟧.then }
    ensures failure { FailureIsNone ⟦<LockRule as TableRule<Need, SeatNote, usize>>⟧.holds
        ⟦<AcquireStep as Play<Need, SeatNote>>⟧.then }
    ensures load { LoadIsNone ⟦<LockRule as TableRule<Need, SeatNote, usize>>⟧.holds
        ⟦<LoadStep as Play<Need, SeatNote>>⟧.then }
    ensures release { SubtractionIsRelease ⟦<LockRule as TableRule<Need, SeatNote, usize>>⟧.holds
        ⟦<ReleaseStep as Play<Need, SeatNote>>⟧.then }
    ensures split { SplitIsNone ⟦<LockRule as Split<SeatNote>>⟧.left
        ⟦<LockRule as Split<SeatNote>>⟧.right }
    ensures join { JoinIsNone ⟦<LockRule as Join<SeatNote>>⟧.both
        ⟦<LockRule as Join<SeatNote>>⟧.spent }
{}

/// No two seats' needs conflict exactly where each that writes a resource is alone there.
pub fn writers_are_alone()
    ensures { (held : List (Option NeedView)) → AreCompatible held ↔ WritersAreAlone held }
{}

/// A word that the needs of `seats` seats make has in each lane at most a reader for each seat, or
/// one writer. So neither two writers of a resource nor more readers than seats make a word that a
/// seat can read.
pub fn lanes_of_held_words()
    ensures readers { (seats word r : ℕ) (own : Option NeedView) → seats ≤ MAX_WORKERS → r < 16
        → WereHeld seats own word → (lane_at word r ≤ seats) ⊎ (lane_at word r ≡ 15) }
    ensures writer { (seats word r : ℕ) (own : NeedView) → seats ≤ MAX_WORKERS → r < 16
        → WereHeld seats (Some own) word → access own r ≡ writes → lane_at word r ≡ 15 }
    ensures last { (seats seen : ℕ) (earlier : List ℕ) (own : NeedView)
        → TookLast seats (earlier ++ seen ∷ []) own
        → WereHeld seats (Some own) (seen + word_of own) }
{}

/// A grant lets no needs conflict, and a release of the seat after it undoes it.
pub fn release_undoes_grant()
    ensures compatible { (old new : List (Option NeedView)) (seat : ℕ) (need : NeedView)
        → AreCompatible old → Grants old seat need new → AreCompatible new }
    ensures undone { (old mid new : List (Option NeedView)) (seat : ℕ) (need back : NeedView)
        → Grants old seat need mid → Releases mid seat back new → (back ≡ need) × (new ≡ old) }
{}

/// The words that a try read decide whether it was refused, and for which cause.
pub fn refusal_has_one_cause()
    ensures free { (old new : List ℕ) (need : ℕ) (busy : Busy)
        → WasFree old new need → WasBusy old new need busy → ⊥ }
    ensures one_cause { (need word found : ℕ)
        → HasCause need (Held word) → HasCause need (Moved word found) → ⊥ }
    ensures moved { (need word : ℕ) → HasCause need (Moved word word) → ⊥ }
    ensures one_word { (old : List ℕ) (need word : ℕ)
        → WereBusy old (old ++ word ∷ []) need → Admits word need → ⊥ }
    ensures last { (old new : List ℕ) (need : ℕ)
        → WasFreeAtLast old new need → length old < length new }
{}

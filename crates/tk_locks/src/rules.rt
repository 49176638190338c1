//! The rule that the lock word obeys.
use crate::needs::Need;
use atomic_table::{Join, Play, Split, TableRule};
use std::collections::LinkedList;

/// What a seat knows: how many seats its book has, what it holds, and the words that it read.
///
/// A seat that took in others has what each of them held. Only proofs name it: no value is made.
#[derive(Drop)]
pub(crate) struct SeatNote {
    seats: usize,
    held: LinkedList<Option<Need>>,
    seen: LinkedList<u64>,
}

/// The word is the sum of what the seats hold.
pub(crate) struct LockRule;

impl TableRule<Need, SeatNote, usize> for LockRule {
    ghost use Rattle.std.specs.Prelude.{None, [], replicate};
    ghost use Rattle.tk_locks.specs.LockWord.{HoldingsFitWord, seat_note};

    ghost holds = { HoldingsFitWord };

    ghost first = { λ seats. seat_note seats (replicate seats None) [] };
}

/// A load of the word.
pub(crate) struct LoadStep;

impl Play<Need, SeatNote> for LoadStep {
    ghost use Rattle.tk_locks.specs.LockWord.{WordWasLoaded};

    ghost then = { WordWasLoaded };
}

/// A compare-exchange, by which a seat takes a need.
pub(crate) struct AcquireStep;

impl Play<Need, SeatNote> for AcquireStep {
    ghost use Rattle.tk_locks.specs.LockWord.{WasExchanged};

    ghost then = { WasExchanged };
}

/// A subtraction, by which a seat gives its need back.
pub(crate) struct ReleaseStep;

impl Play<Need, SeatNote> for ReleaseStep {
    ghost use Rattle.tk_locks.specs.LockWord.{WasReleased};

    ghost then = { WasReleased };
}

impl Split<SeatNote> for LockRule {
    ghost use Rattle.std.specs.Prelude.{None, [], ◌∷◌, ◌-◌, length, replicate};
    ghost use Rattle.tk_locks.specs.LockWord.{seat_note};

    ghost left = { λ v. seat_note v.seats (replicate (length v.held - 1) None) [] };

    ghost right = { λ v. seat_note v.seats (None ∷ []) [] };
}

impl Join<SeatNote> for LockRule {
    ghost use Rattle.std.specs.Prelude.{[], ◌++◌};
    ghost use Rattle.tk_locks.specs.LockWord.{seat_note};

    ghost both = { λ v w. seat_note v.seats (w.held ++ v.held) [] };

    ghost spent = { seat_note 0 [] [] };
}

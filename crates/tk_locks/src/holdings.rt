//! What each seat holds, with no limit on their number.
ghost use Rattle.std.specs.Prelude.{◌≡◌, ◌↔◌, IsTrue, IsFalse, IfOk, None, Some, replicate, slice_set};
ghost use Rattle.std.specs.Prelude.{ℕ, ◌≤◌, All, is_some, count_by, sum_by};
ghost use Rattle.tk_locks.specs.NeedView.{NeedView};
ghost use Rattle.tk_lanes.specs.Lanes.{Admits};
ghost use Rattle.tk_locks.specs.Needs.{word_of};
ghost use Rattle.tk_locks.specs.Holdings.{IsCompatible, AreCompatible, MayTake, held_word};

use crate::needs::Need;
use std::alloc::{AllocError, Global};
use std::marker::Model;

/// What each seat holds, one need or none, of which no two conflict: a lock book as a plain list.
#[derive(Drop)]
pub struct Holdings {
    seats: Vec<Option<Need>>,
}

impl Model for Holdings {
    ghost use Rattle.std.specs.Prelude.{List, Option};
    ghost use Rattle.tk_locks.specs.NeedView.{NeedView};

    ghost Value = { List (Option NeedView) };

    ghost use Rattle.tk_locks.specs.Holdings.{AreCompatible};

    ghost view = { λ h. h.seats.items };

    ghost invariant = { λ h. AreCompatible h.seats.items };
}

impl Holdings {
    /// Makes this many seats, none of which holds anything.
    ///
    /// # Errors
    /// `AllocError` where a request for memory is refused.
    pub fn new(alloc: Global, seats: usize) -> Result<Holdings, AllocError>
        ensures { IfOk result (λ h. h ≡ replicate seats None) }
    {
        Ok(Holdings {
            seats: Vec::from_elem(alloc, None, seats)?,
        })
    }

    /// Gives `need` to the seat, and returns whether it did.
    ///
    /// It refuses where there is no such seat, where the seat holds a need, and where another seat
    /// holds a need that conflicts with this one.
    pub fn grant(&mut self, seat: usize, need: Need) -> bool
        ensures exactly { IsTrue result ↔ MayTake self.old seat need }
        ensures granted { IsTrue result → self.new ≡ slice_set self.old seat (Some need) }
        ensures refused { IsFalse result → self.new ≡ self.old }
        ensures compatible { AreCompatible self.new }
    {
        if seat >= self.seats.len() || self.seats[seat].is_some() {
            return false;
        }
        for held in &self.seats {
            if let Some(other) = held {
                if !need.is_compatible(*other) {
                    return false;
                }
            }
        }
        self.seats[seat] = Some(need);
        true
    }

    /// Takes back what the seat holds. Nothing changes where there is no such seat.
    pub fn release(&mut self, seat: usize)
        ensures empty { self.new ≡ slice_set self.old seat None }
        ensures compatible { AreCompatible self.new }
    {
        if seat < self.seats.len() {
            self.seats[seat] = None;
        }
    }

    /// Adds up the words of what is held, where at most fourteen seats hold something.
    ///
    /// It admits a need exactly where no seat's need conflicts with it; 15 reads look like a write.
    pub fn word(&self) -> u64
        requires few { count_by is_some self.now ≤ 14 }
        ensures value { result ≡ sum_by held_word self.now }
        ensures exactly { (n : NeedView) →
            Admits result (word_of n) ↔ All (IsCompatible (Some n)) self.now }
    {
        let mut word = 0;
        for held in &self.seats {
            if let Some(need) = held {
                word += need.word();
            }
        }
        word
    }
}

//! Numbers below a limit, each drawn once by one of the seats.
ghost use Rattle.std.specs.Prelude.{◌≡◌, ◌<◌, ◌≤◌, ◌⊎◌, ◌↔◌, [], ◌∷◌, ◌++◌, true, false, length, map, All, IfOk, IfErr, IfSome, IfNone, Some};
ghost use Rattle.tk_claims.specs.Claims.{Claims, fresh};
ghost use Rattle.tk_claims.specs.ClaimViews.{claim_view};
ghost use Rattle.tk_claims.specs.ClaimWord.{drawn};
ghost use Rattle.tk_claims.specs.FaultTexts.{claim_fault_text};
ghost use Rattle.tk_claims.specs.declared.claims.ClaimFault.TheVariants.{Seats};

use crate::claim_rules::{ClaimLimits, ClaimRule, DrawStep, Drawn};
use atomic_table::{Seat, Table};
use std::alloc::{AllocError, Global};
use std::error::Error;
use std::fmt;
use std::marker::Model;
use tk_base::MAX_WORKERS;

/// The numbers below a limit, which several threads draw from one word, each number once.
///
/// Each thread is lent one of the claim's seats.
#[derive(Drop)]
pub struct Claim {
    table: Table<(), Drawn, ClaimLimits, ClaimRule, Global>,
    limit: u32,
}

impl Model for Claim {
    ghost use Rattle.tk_claims.specs.Claims.{ClaimView};

    ghost Value = { ClaimView };

    ghost use Rattle.tk_claims.specs.ClaimViews.{view_of, IsClaim};

    ghost view = { view_of };

    ghost invariant = { IsClaim };
}

/// One of the seats of a claim, with the numbers that it drew.
#[derive(Drop)]
pub struct ClaimSeat {
    seat: Seat<(), Drawn>,
    spent: bool,
}

impl Model for ClaimSeat {
    ghost use Rattle.tk_claims.specs.Claims.{ClaimSeatView};

    ghost Value = { ClaimSeatView };

    ghost use Rattle.tk_claims.specs.ClaimViews.{seat_view_of, IsClaimant};

    ghost view = { seat_view_of };

    ghost invariant = { IsClaimant };
}

/// Why a claim was not opened.
#[derive(Clone, Copy, Debug, PartialEq, Eq)]
pub enum ClaimFault {
    /// The number of seats isn't 1 to `MAX_WORKERS`.
    Seats,
    /// A request for memory was refused.
    Memory,
}

impl fmt::Display for ClaimFault {
    ghost output = { λ fault. Some (claim_fault_text fault) };

    fn fmt<W: fmt::Write>(&self, f: &mut fmt::Formatter<W>) -> fmt::Result {
        match self {
            ClaimFault::Seats => f.write_str("seats must be 1 to 15"),
            ClaimFault::Memory => f.write_str("out of memory"),
        }
    }
}

impl Error for ClaimFault {}

impl From<AllocError> for ClaimFault {
    ghost use Rattle.tk_claims.specs.declared.claims.ClaimFault.TheVariants.{Memory};

    ghost from_gives = { λ _ e. e ≡ Memory };

    fn from(_: AllocError) -> ClaimFault {
        ClaimFault::Memory
    }
}

// Cuts the first seat into `count` seats.
fn split_seats(
    alloc: Global,
    table: &Table<(), Drawn, ClaimLimits, ClaimRule, Global>,
    mut first: Seat<(), Drawn>,
    count: usize,
) -> Result<Vec<ClaimSeat>, AllocError>
    requires count { 0 < count }
    requires table { 0 < table.now.shared.table_id.words }
    requires of_this { first.table_id ≡ table.now.shared.table_id }
    requires whole { first.me ≡ (drawn table.now.shared.key count 0 [], []) }
    ensures { IfOk result (λ all. (length all.items ≡ count)
        × All (λ s. s ≡ fresh (claim_view table.now.shared.table_id table.now.shared.key))
        all.items) }
{
    let mut all = Vec::with_capacity(alloc, count)?;
    for _ in 1..count {
        let seat = table.shared.split_seat::<ClaimRule>(&mut first);
        all.push(ClaimSeat { seat, spent: false })?;
    }
    all.push(ClaimSeat {
        seat: first,
        spent: false,
    })?;
    Ok(all)
}

impl Claim {
    /// Opens a claim on the numbers below `n`, of which none is drawn, with this many seats.
    ///
    /// # Errors
    /// `Seats` where there is none or more than `MAX_WORKERS`, or `Memory`.
    pub fn open(alloc: Global, n: u32, seats: usize) -> Result<(Claim, Vec<ClaimSeat>), ClaimFault>
        ensures limit { IfOk result (λ r. r.0.limit ≡ n) }
        ensures claim { IfOk result (λ r. r.0.seats ≡ seats) }
        ensures all { IfOk result (λ r. length r.1.items ≡ seats) }
        ensures seats { IfOk result (λ r. All (λ s. s ≡ fresh r.0) r.1.items) }
        ensures in_range { IfOk result (λ _. (0 < seats) × (seats ≤ MAX_WORKERS)) }
        ensures fault { IfErr result (λ f. (f ≡ Seats) ↔ ((seats ≡ 0) ⊎ (MAX_WORKERS < seats))) }
    {
        if seats == 0 || seats > MAX_WORKERS as usize {
            return Err(ClaimFault::Seats);
        }
        let claim_limits = ClaimLimits { limit: n, seats };
        let (table, first) = Table::of_words(alloc, &[0], &claim_limits)?;
        let all = split_seats(alloc, &table, first, seats)?;
        Ok((Claim { table, limit: n }, all))
    }

    /// Draws a number that no seat drew before, or returns `None` where no number is left.
    ///
    /// `seat` must be a seat of this claim. A seat that got `None` gets it again without a step.
    pub fn draw(&self, seat: &mut ClaimSeat) -> Option<u32>
        requires { seat.old.claim ≡ self.now }
        ensures claim { seat.new.claim ≡ seat.old.claim }
        ensures below { IfSome result (λ x. x < self.now.limit) }
        ensures drawn { IfSome result (λ x. seat.new.numbers ≡ seat.old.numbers ++ x ∷ []) }
        ensures before { IfSome result (λ _. seat.old.spent ≡ false) }
        ensures more { IfSome result (λ _. seat.new.spent ≡ false) }
        ensures none { IfNone result (seat.new.numbers ≡ seat.old.numbers) }
        ensures spent { IfNone result (seat.new.spent ≡ true) }
    {
        if seat.spent {
            return None;
        }
        let found = self
            .table
            .shared
            .fetch_add::<DrawStep>(&mut seat.seat, 0, 1);
        if found < u64::from(self.limit) {
            Some(found as u32)
        } else {
            seat.spent = true;
            None
        }
    }

    /// Closes the claim, and returns how many numbers were drawn: all below it, each once.
    ///
    /// `seats` must be all seats of this claim.
    pub fn close(self, mut seats: Vec<ClaimSeat>) -> u32
        requires all { length seats.items ≡ self.seats }
        requires of_this { All (λ s. s.claim ≡ self) seats.items }
        ensures claims { Claims (map (λ s. s.numbers) seats.items) result }
        ensures spent { All (λ s. s.spent ≡ true → result ≡ self.limit) seats.items }
    {
        let Claim { table, limit } = self;
        let Some(last) = seats.pop() else {
            unreachable!()
        };
        let ClaimSeat { mut seat, spent: _ } = last;
        while let Some(next) = seats.pop() {
            let ClaimSeat {
                seat: other,
                spent: _,
            } = next;
            table.shared.join_seat::<ClaimRule>(&mut seat, other);
        }
        let closed = table.close_with(seat);
        let next = closed.word(0);
        closed.free();
        next.min(u64::from(limit)) as u32
    }
}

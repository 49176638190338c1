//! Claims on one thread.
ghost use Rattle.std.specs.Prelude.{◌≡◌};

use std::alloc::Global;
use tk_claims::{Claim, ClaimFault, ClaimSeat};

// Whether this is drawn next.
fn draws(claim: &Claim, seat: &mut ClaimSeat, number: Option<u32>) -> bool
    requires { seat.old.claim ≡ claim.now }
    ensures { seat.new.claim ≡ seat.old.claim }
{
    claim.draw(seat) == number
}

// Whether two seats draw 0, 1 and 2, and nothing after that.
fn are_drawn(claim: &Claim, first: &mut ClaimSeat, second: &mut ClaimSeat) -> bool
    requires first { first.old.claim ≡ claim.now }
    requires second { second.old.claim ≡ claim.now }
    ensures first { first.new.claim ≡ first.old.claim }
    ensures second { second.new.claim ≡ second.old.claim }
{
    draws(claim, first, Some(0))
        && draws(claim, first, Some(1))
        && draws(claim, second, Some(2))
        && draws(claim, second, None)
}

/// How many numbers of three were drawn where two seats drew all of them.
pub fn drawn_by_two(alloc: Global) -> Option<u32> {
    let (claim, mut seats) = Claim::open(alloc, 3, 2).ok()?;
    let mut second = seats.pop()?;
    let mut first = seats.pop()?;
    let are_drawn = are_drawn(&claim, &mut first, &mut second);
    let drawn = claim.close(vec![in alloc; first, second].ok()?);
    if are_drawn { Some(drawn) } else { None }
}

// How many of `limit` numbers were drawn where one seat drew this first.
fn drawn_by_one(alloc: Global, limit: u32, first: Option<u32>) -> Option<u32> {
    let (claim, mut seats) = Claim::open(alloc, limit, 1).ok()?;
    let mut seat = seats.pop()?;
    let is_drawn = draws(&claim, &mut seat, first);
    let drawn = claim.close(vec![in alloc; seat].ok()?);
    if is_drawn { Some(drawn) } else { None }
}

#[test]
fn claims_on_none_and_on_many(rt: HostRuntime) {
    assert!(rt; drawn_by_one(rt.alloc(), 0, None) == Some(0));
    assert!(rt; drawn_by_one(rt.alloc(), 65_537, Some(0)) == Some(1));
    assert!(rt; drawn_by_one(rt.alloc(), u32::MAX, Some(0)) == Some(1));
}

fn refuses_seats(alloc: Global, seats: usize) -> bool {
    matches!(Claim::open(alloc, 3, seats), Err(ClaimFault::Seats))
}

#[test]
fn one_to_fifteen_seats(rt: HostRuntime) {
    assert!(rt; refuses_seats(rt.alloc(), 0) && refuses_seats(rt.alloc(), 16));
}

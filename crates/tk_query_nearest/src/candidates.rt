//! The candidates for the nearest events.
ghost use Rattle.std.specs.Prelude.{◌≡◌, ◌≤◌, ◌==◌, length, nat_lt, slice_get, take};
ghost use Rattle.tk_query_nearest.specs.Candidates.{listed, positions_of};
ghost use Rattle.tk_query_nearest.specs.steps.{counted_to, inserted};

use crate::parts::MAX_DISTANCE;
use std::marker::Model;

/// How many events are found at most.
pub const MAX_NEAREST: usize = 3;

/// An event by its position, and how many parts of the condition don't hold of it.
#[derive(Clone, Copy)]
pub(crate) struct Candidate {
    pub(crate) distance: usize,
    pub(crate) position: usize,
}

/// Whether an event comes nearer than one at a lower position: less is missing.
fn is_nearer(later: Candidate, earlier: Candidate) -> bool
    ensures { result ≡ nat_lt later.distance earlier.distance }
{
    later.distance < earlier.distance
}

/// The nearest candidates so far, the nearest first.
#[derive(Clone, Copy)]
pub(crate) enum Candidates {
    Empty,
    One(Candidate),
    Two(Candidate, Candidate),
    Three(Candidate, Candidate, Candidate),
}

impl Candidates {
    /// The nearest ones of these candidates and one at a higher position.
    pub(crate) fn with(self, a: Candidate) -> Candidates
        ensures { listed result ≡ take MAX_NEAREST (inserted a (listed self)) }
    {
        match self {
            Candidates::Empty => Candidates::One(a),
            Candidates::One(b) if is_nearer(a, b) => Candidates::Two(a, b),
            Candidates::One(b) => Candidates::Two(b, a),
            Candidates::Two(b, c) if is_nearer(a, b) => Candidates::Three(a, b, c),
            Candidates::Two(b, c) if is_nearer(a, c) => Candidates::Three(b, a, c),
            Candidates::Two(b, c) => Candidates::Three(b, c, a),
            Candidates::Three(b, c, _) if is_nearer(a, b) => Candidates::Three(a, b, c),
            Candidates::Three(b, c, _) if is_nearer(a, c) => Candidates::Three(b, a, c),
            Candidates::Three(b, c, d) if is_nearer(a, d) => Candidates::Three(b, c, a),
            Candidates::Three(_, _, _) => self,
        }
    }

    /// How many missing parts of an event after these candidates are counted: where there are
    /// three, no more than the last of them lacks.
    pub(crate) fn counted_to(self) -> usize
        ensures { result ≡ counted_to (listed self) }
    {
        match self {
            Candidates::Three(_, _, last) => last.distance,
            _ => MAX_DISTANCE,
        }
    }
}

/// The positions of the events that come nearest to a condition, the nearest first. A contract sees
/// them as a list.
#[derive(Drop)]
pub struct Nearest {
    pub(crate) candidates: Candidates,
}

impl Model for Nearest {
    ghost use Rattle.std.specs.Prelude.{List, ℕ};
    ghost use Rattle.tk_query_nearest.specs.Candidates.{positions_of};

    ghost Value = { List ℕ };

    ghost view = { λ n. positions_of n.candidates };
}

impl Nearest {
    /// Counts the positions.
    pub fn len(&self) -> usize
        ensures value { result ≡ length self.now }
        ensures bound { result ≤ MAX_NEAREST }
    {
        match self.candidates {
            Candidates::Empty => 0,
            Candidates::One(_) => 1,
            Candidates::Two(_, _) => 2,
            Candidates::Three(_, _, _) => 3,
        }
    }

    /// Says whether there is no position.
    pub fn is_empty(&self) -> bool
        ensures { result ≡ (length self.now == 0) }
    {
        self.len() == 0
    }

    /// Gives the position of the event that comes nearest but for `index` others.
    pub fn get(&self, index: usize) -> Option<usize>
        ensures { result ≡ slice_get self.now index }
    {
        match (self.candidates, index) {
            (Candidates::One(a), 0)
            | (Candidates::Two(a, _), 0)
            | (Candidates::Three(a, _, _), 0)
            | (Candidates::Two(_, a), 1)
            | (Candidates::Three(_, a, _), 1)
            | (Candidates::Three(_, _, a), 2) => Some(a.position),
            _ => None,
        }
    }
}

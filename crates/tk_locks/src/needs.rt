//! What a unit of work needs of sixteen resources.
ghost use Rattle.std.specs.Prelude.{◌≡◌, ℕ, ◌<◌, ◌≤◌, ◌↔◌, IsTrue, IfSome, IsSome, bit_and};
ghost use Rattle.std.specs.Int.{bit_at};
ghost use Rattle.tk_locks.specs.Needs.{access, access_of, access_with, weight, Conflict, word_of};
ghost use Rattle.tk_locks.specs.Needs as Needs;

use std::marker::Model;

/// What a unit needs of each of sixteen resources: nothing, a read, or a write.
///
/// Two needs conflict where one writes a resource that the other reads or writes.
#[derive(Clone, Copy)]
pub struct Need {
    reads: u16,
    writes: u16,
}

impl Model for Need {
    ghost use Rattle.std.specs.Prelude.{◌≡◌, bit_and};
    ghost use Rattle.tk_locks.specs.NeedView.{NeedView};

    ghost Value = { NeedView };

    ghost view = { λ n. record { reads = n.reads; writes = n.writes } };

    ghost invariant = { λ n. bit_and n.reads n.writes ≡ 0 };

    ghost inverse = { λ v. record { reads = v.reads; writes = v.writes } };
}

// The four bits of one resource.
fn lane_of(reads: u16, writes: u16, resource: u32) -> u64
    requires { resource < 16 }
    ensures value { result ≡ weight (access_of (bit_at reads resource) (bit_at writes resource)) }
    ensures small { result ≤ 15 }
{
    if (writes >> resource) & 1 == 1 {
        15
    } else if (reads >> resource) & 1 == 1 {
        1
    } else {
        0
    }
}

impl Need {
    /// Makes a need of two masks, in which bit i is resource i. What is in both is a write.
    pub fn of(reads: u16, writes: u16) -> Need
        ensures { (r : ℕ) → r < 16
            → access result r ≡ access_of (bit_at reads r) (bit_at writes r) }
    {
        Need {
            reads: reads & !writes,
            writes,
        }
    }

    /// Makes a need of no resource.
    pub fn none() -> Need
        ensures { (r : ℕ) → r < 16 → access result r ≡ Needs.nothing }
    {
        Need::of(0, 0)
    }

    /// Adds a read of a resource, by its number. A resource that is written stays so.
    ///
    /// The answer is `None` where there is no such resource: the number is 16 or more.
    pub fn reading(self, resource: u32) -> Option<Need>
        ensures known { IsSome result ↔ (resource < 16) }
        ensures added { IfSome result (λ need. (r : ℕ) → r < 16
            → access need r ≡ access_with self resource Needs.reads r) }
    {
        if resource >= 16 {
            return None;
        }
        Some(Need::of(self.reads | 1 << resource, self.writes))
    }

    /// Adds a write of a resource, by its number.
    ///
    /// The answer is `None` where there is no such resource: the number is 16 or more.
    pub fn writing(self, resource: u32) -> Option<Need>
        ensures known { IsSome result ↔ (resource < 16) }
        ensures added { IfSome result (λ need. (r : ℕ) → r < 16
            → access need r ≡ access_with self resource Needs.writes r) }
    {
        if resource >= 16 {
            return None;
        }
        Some(Need::of(self.reads, self.writes | 1 << resource))
    }

    /// Returns the mask of the resources that are read and not written.
    pub fn reads(self) -> u16
        ensures value { result ≡ self.reads }
        ensures disjoint { bit_and result self.writes ≡ 0 }
    {
        self.reads
    }

    /// Returns the mask of the resources that are written.
    pub fn writes(self) -> u16
        ensures value { result ≡ self.writes }
        ensures disjoint { bit_and self.reads result ≡ 0 }
    {
        // For the proof: the need's invariant, which speaks of both masks.
        let _reads = self.reads;
        self.writes
    }

    /// Makes a word of four bits for each resource: 15 for a write, 1 for a read, else 0.
    pub fn word(self) -> u64
        ensures { result ≡ word_of self }
    {
        let mut word = 0;
        for done in 0..16u32 {
            word = word * 16 + lane_of(self.reads, self.writes, 15 - done);
        }
        word
    }

    /// Tells whether neither need writes what the other reads or writes.
    pub fn is_compatible(self, other: Need) -> bool
        ensures { IsTrue result ↔ (Conflict self other → ⊥) }
    {
        self.writes & (other.reads | other.writes) == 0 && self.reads & other.writes == 0
    }
}

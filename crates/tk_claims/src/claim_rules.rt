//! The rule that the claim word obeys.
use atomic_table::{Join, Play, Split, TableRule};
use std::collections::LinkedList;

/// What is set once, when a claim is made: the limit and the number of seats.
#[derive(Drop)]
pub(crate) struct ClaimLimits {
    pub limit: u32,
    pub seats: usize,
}

/// What a seat knows: the limits, how many seats it stands for, how many of them found that no
/// number is left, and the numbers that it drew. Only proofs name it: no value is made.
#[derive(Drop)]
pub(crate) struct Drawn {
    claim_limits: ClaimLimits,
    parts: usize,
    spent: u64,
    numbers: LinkedList<u32>,
}

/// The word is how many draws there were.
pub(crate) struct ClaimRule;

impl TableRule<(), Drawn, ClaimLimits> for ClaimRule {
    ghost use Rattle.std.specs.Prelude.{[]};
    ghost use Rattle.tk_claims.specs.ClaimWord.{DrawsFitWord, drawn};

    ghost holds = { DrawsFitWord };

    ghost first = { λ claim_limits. drawn claim_limits claim_limits.seats 0 [] };
}

/// A draw.
pub(crate) struct DrawStep;

impl Play<(), Drawn> for DrawStep {
    ghost use Rattle.tk_claims.specs.ClaimWord.{Drew};

    ghost then = { Drew };
}

impl Split<Drawn> for ClaimRule {
    ghost use Rattle.std.specs.Prelude.{◌-◌, []};
    ghost use Rattle.tk_claims.specs.ClaimWord.{drawn};

    ghost left = { λ v. drawn v.claim_limits (v.parts - 1) 0 [] };

    ghost right = { λ v. drawn v.claim_limits 1 0 [] };
}

impl Join<Drawn> for ClaimRule {
    ghost use Rattle.std.specs.Prelude.{◌+◌, ◌++◌, []};
    ghost use Rattle.tk_claims.specs.ClaimWord.{drawn, no_limits};

    ghost both = { λ v w.
        drawn v.claim_limits (v.parts + w.parts) (v.spent + w.spent) (v.numbers ++ w.numbers) };

    ghost spent = { drawn no_limits 0 0 [] };
}

//! Whether a word of sixteen lanes of four bits has room for another.
ghost use Rattle.std.specs.Prelude.{◌≡◌, ◌↔◌, ℕ, ◌+◌, ◌*◌, ◌<◌, ◌≤◌, IsTrue, slice_index};
ghost use Rattle.tk_lanes.specs.Lanes.{lane_at, Admits};

use std::simd::prelude::*;

/// Tells whether each of the sixteen lanes of the two words has a sum of at most 15.
pub fn admits(word: u64, need: u64) -> bool
    ensures { IsTrue result ↔ Admits word need }
{
    fit_together(even_lanes(word), even_lanes(need))
        && fit_together(odd_lanes(word), odd_lanes(need))
}

// Lanes 0, 2, .. 14, each in a byte.
#[inline(always)]
fn even_lanes(word: u64) -> u8x8
    ensures { (k : ℕ) → k < 8 → slice_index result k ≡ lane_at word (2 * k) }
{
    u64x1::splat(word).to_le_bytes() & u8x8::splat(15)
}

// Lanes 1, 3, .. 15, each in a byte.
#[inline(always)]
fn odd_lanes(word: u64) -> u8x8
    ensures { (k : ℕ) → k < 8 → slice_index result k ≡ lane_at word (2 * k + 1) }
{
    u64x1::splat(word).to_le_bytes() >> u8x8::splat(4)
}

// Whether each sum of two lanes is at most 15.
#[inline(always)]
fn fit_together(held: u8x8, asked: u8x8) -> bool
    requires held_small { (k : ℕ) → k < 8 → slice_index held k < 16 }
    requires asked_small { (k : ℕ) → k < 8 → slice_index asked k < 16 }
    ensures { IsTrue result ↔ ((k : ℕ) → k < 8 → slice_index held k + slice_index asked k ≤ 15) }
{
    (held + asked).simd_gt(u8x8::splat(15)).to_bitmask() == 0
}

//! A set of positions of a column, which a contract sees as one flag for each position.
//!
//! The flags are the bits of a mask, 64 in a word, whose bits at and above the length are 0.
ghost use Rattle.std.specs.Prelude.{◌≡◌, ◌≤◌, ◌<◌, ◌^◌, ◌*◌, ◌==◌, ◌&&◌, ◌||◌, ℕ, not, true, false, length, map, replicate, take, drop, count_by, get_or, slice_index, IfOk, IfSome, MatchOption};
ghost use Rattle.std.specs.Simd.Lanes.{zip2};
ghost use Rattle.std.specs.List.{items_where_true};
ghost use Rattle.tk_lanes.specs.Bits.{shares_bit};
ghost use Rattle.tk_lanes.specs.Lists.{positions};
ghost use Rattle.tk_lanes.specs.steps.{block_of};
ghost use Rattle.tk_lanes.specs.Flags.{IsNextSet, IsNoneSet};

use crate::mask_words::equal_in_word;
use std::alloc::{AllocError, Global};
use std::marker::Model;

/// A flag for each position of a column.
#[derive(Drop)]
pub struct Flags {
    words: Vec<u64>,
    len: usize,
}

impl Model for Flags {
    ghost use Rattle.std.specs.Prelude.{Bool, List, ◌≤◌, ◌^◌};
    ghost use Rattle.tk_lanes.specs.Bits.{first_bits, HoldsFlags};

    ghost Value = { List Bool };

    ghost view = { λ f. first_bits f.len f.words.items };

    ghost invariant = { λ f. (HoldsFlags (first_bits f.len f.words.items) f.words.items)
        × (f.len ≤ 2 ^ 32) };
}

impl Flags {
    /// Makes the flags of a column of bytes: set where the byte equals the value.
    ///
    /// # Errors
    /// `AllocError` where a request for memory is refused.
    pub fn of_byte(alloc: Global, column: &[u8], value: u8) -> Result<Flags, AllocError>
        requires { length column.now ≤ 2 ^ 32 }
        ensures { IfOk result (λ flags. flags ≡ map (λ x. x == value) column.now) }
    {
        let len = column.len();
        let mut words = Vec::from_elem(alloc, 0u64, len.div_ceil(64))?;
        crate::mask_byte(column, value, &mut words);
        Ok(Flags { words, len })
    }

    /// Makes the flags of a column of bytes: set where the byte shares a one bit with the value.
    ///
    /// # Errors
    /// `AllocError` where a request for memory is refused.
    pub fn of_flag(alloc: Global, column: &[u8], value: u8) -> Result<Flags, AllocError>
        requires { length column.now ≤ 2 ^ 32 }
        ensures { IfOk result (λ flags. flags ≡ map (λ x. shares_bit x value) column.now) }
    {
        let len = column.len();
        let mut words = Vec::from_elem(alloc, 0u64, len.div_ceil(64))?;
        crate::mask_flag(column, value, &mut words);
        Ok(Flags { words, len })
    }

    /// Makes the flags of a column of numbers: set where the number equals the value.
    ///
    /// # Errors
    /// `AllocError` where a request for memory is refused.
    pub fn of_number(alloc: Global, column: &[u32], value: u32) -> Result<Flags, AllocError>
        requires { length column.now ≤ 2 ^ 32 }
        ensures { IfOk result (λ flags. flags ≡ map (λ x. x == value) column.now) }
    {
        let len = column.len();
        let mut words = Vec::from_elem(alloc, 0u64, len.div_ceil(64))?;
        crate::mask_u32(column, value, &mut words);
        Ok(Flags { words, len })
    }

    /// Makes `len` set flags.
    ///
    /// # Errors
    /// `AllocError` where a request for memory is refused.
    pub fn all(alloc: Global, len: usize) -> Result<Flags, AllocError>
        requires { len ≤ 2 ^ 32 }
        ensures { IfOk result (λ flags. flags ≡ replicate len true) }
    {
        let mut words = Vec::from_elem(alloc, 0u64, len.div_ceil(64))?;
        crate::not_into(&mut words, len);
        Ok(Flags { words, len })
    }

    /// Makes `len` clear flags.
    ///
    /// # Errors
    /// `AllocError` where a request for memory is refused.
    pub fn none(alloc: Global, len: usize) -> Result<Flags, AllocError>
        requires { len ≤ 2 ^ 32 }
        ensures { IfOk result (λ flags. flags ≡ replicate len false) }
    {
        let words = Vec::from_elem(alloc, 0u64, len.div_ceil(64))?;
        Ok(Flags { words, len })
    }

    /// Copies the flags.
    ///
    /// # Errors
    /// `AllocError` where a request for memory is refused.
    pub fn try_clone(&self) -> Result<Flags, AllocError>
        ensures { IfOk result (λ flags. flags ≡ self.now) }
    {
        Ok(Flags {
            words: self.words.clone()?,
            len: self.len,
        })
    }

    /// Counts the positions.
    pub fn len(&self) -> usize
        ensures value { result ≡ length self.now }
        ensures bound { result ≤ 2 ^ 32 }
    {
        self.len
    }

    /// Tells whether the flag of a position is set. Past the last position none is.
    pub fn is_set(&self, at: usize) -> bool
        ensures { result ≡ get_or self.now at false }
    {
        at < self.len && self.words[at / 64] >> (at % 64) & 1 == 1
    }

    /// Counts the set flags.
    pub fn count(&self) -> usize
        ensures { result ≡ count_by (λ flag. flag) self.now }
    {
        crate::ones(&self.words)
    }

    /// Keeps the flags that are set in both.
    pub fn and(&mut self, other: &Flags)
        requires { length self.old ≡ length other.now }
        ensures { self.new ≡ zip2 ◌&&◌ self.old other.now }
    {
        crate::and_into(&mut self.words, &other.words);
    }

    /// Sets the flags that are set in the other.
    pub fn or(&mut self, other: &Flags)
        requires { length self.old ≡ length other.now }
        ensures { self.new ≡ zip2 ◌||◌ self.old other.now }
    {
        crate::or_into(&mut self.words, &other.words);
    }

    /// Turns each flag over.
    pub fn invert(&mut self)
        ensures { self.new ≡ map not self.old }
    {
        crate::not_into(&mut self.words, self.len);
    }

    /// Finds the first position from the given one on whose flag is set.
    pub fn first_from(&self, from: usize) -> Option<usize>
        ensures value { MatchOption result (IsNoneSet from self.now) (IsNextSet from self.now) }
        ensures bound { IfSome result (λ at. (at < length self.now) × (at < 2 ^ 32)) }
    {
        crate::first_from(&self.words, from)
    }

    /// Writes the bytes of a column at the set flags of one block of 64 to the start of a buffer,
    /// in order, and returns how many. The rest of the buffer stays.
    pub fn gather(&self, column: &[u8], block: usize, buffer: &mut [u8; 64]) -> usize
        requires size { length column.now ≡ length self.now }
        requires within { 64 * block < length self.now }
        ensures count { result ≤ 64 }
        ensures rest { drop result buffer.new ≡ drop result buffer.old }
        ensures picked { take result buffer.new ≡ items_where_true
            (take 64 (drop (64 * block) self.now)) (take 64 (drop (64 * block) column.now)) }
    {
        let start = 64 * block;
        let end = (start + 64).min(self.len);
        crate::gather(&column[start..end], &self.words[block..block + 1], buffer)
    }

    /// Lists the positions whose flags are set, in increasing order.
    ///
    /// # Errors
    /// `AllocError` where a request for memory is refused.
    pub fn positions(&self, alloc: Global) -> Result<Vec<usize>, AllocError>
        ensures { IfOk result (λ list. list.items ≡ positions (λ flag. flag) self.now) }
    {
        let mut list = Vec::new(alloc);
        let mut from = 0;
        'positions: while let Some(position) = self.first_from(from) {
            list.push(position)?;
            from = position + 1;
        }
        Ok(list)
    }

    /// Counts the bytes of a column at set flags that equal the value. It takes no memory.
    pub fn count_byte(&self, column: &[u8], value: u8) -> usize
        requires { length column.now ≡ length self.now }
        ensures value { result ≡ count_by (λ x. x == value) (items_where_true self.now column.now) }
        ensures bound { result ≤ 2 ^ 32 }
    {
        let mut total = 0;
        for block in 0..self.len().div_ceil(64) {
            total += self.count_in_block(column, block, value);
        }
        total
    }

    /// Counts the bytes of a column at set flags that equal 0, 1, .. 7, in one pass.
    ///
    /// It takes no memory.
    pub fn tally(&self, column: &[u8]) -> [usize; 8]
        requires { length column.now ≡ length self.now }
        ensures value { (k : ℕ) → k < 8
            → slice_index result k
            ≡ count_by (λ x. x == k) (items_where_true self.now column.now) }
        ensures bound { (k : ℕ) → k < 8 → slice_index result k ≤ 2 ^ 32 }
    {
        let mut counts = [0; 8];
        for block in 0..self.len().div_ceil(64) {
            for code in 0..8u8 {
                counts[code as usize] += self.count_in_block(column, block, code);
            }
        }
        counts
    }

    // How many of the bytes at set flags of one block of 64 equal the value.
    #[inline(always)]
    fn count_in_block(&self, column: &[u8], block: usize, value: u8) -> usize
        requires size { length column.now ≡ length self.now }
        requires within { 64 * block < length self.now }
        ensures value { result ≡ count_by (λ x. x == value)
            (items_where_true (block_of block self.now) (block_of block column.now)) }
        ensures bound { result ≤ 64 }
    {
        let start = 64 * block;
        let end = (start + 64).min(self.len);
        (equal_in_word(&column[start..end], value) & self.words[block]).count_ones() as usize
    }
}

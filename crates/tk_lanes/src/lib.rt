//! Vector kernels over columns of bytes and numbers, and over masks of bits; and flags, a mask
//! with its length, which a contract sees as a list of truth values.
#![tactic(auto)]

mod admission;
mod columns;
mod flags;
mod gathering;
mod mask_words;
mod masks;

pub use admission::admits;
pub use columns::{count_byte, mask_byte, mask_flag, mask_u32};
pub use flags::Flags;
pub use gathering::gather;
pub use masks::{and_into, first_from, not_into, ones, or_into};

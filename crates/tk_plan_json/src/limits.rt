//! How large a plan may be.

/// How many levels a plan has at most; the root has level 1.
pub const MAX_LEVELS: u32 = 60;

//! What readers of members hand on.

use tk_events::Pairs;
use tk_plan::Entries;

/// The texts of an array of two.
#[derive(Clone, Copy, Drop)]
pub struct TwoTexts<'v> {
    pub first: &'v str,
    pub second: &'v str,
}

/// One entry, with its pairs in the order of their keys.
#[derive(Drop)]
pub(crate) struct Report {
    pub pairs: Pairs,
    /// Whether a key stood in it twice.
    pub repeats: bool,
}

/// A node's entries.
#[derive(Drop)]
pub struct Reports {
    pub entries: Entries,
    /// Whether in one of them a key stood twice.
    pub repeats: bool,
}

//! The turns of a replay.

/// A turn of a replay.
#[derive(Clone, Copy, PartialEq, Eq)]
pub enum Turn {
    /// The worker emits its next event, or its end mark after the last.
    Worker(u8),
    /// The first waiting item is taken.
    Take,
}

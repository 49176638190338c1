//! Where the stamps of a timed engine come from.

/// The clock of a timed engine ([`Hierarchical::timed`](crate::Hierarchical::timed)): it gives the
/// events their stamps.
pub trait EventClock {
    /// Reads the clock: the stamp of what happens now, as the microseconds since the run began.
    ///
    /// The library calls this for each event, from the threads of all workers: a run asks for a
    /// clock that is `Sync`. No clause says what it answers.
    fn stamp(&self) -> u64;
}

/// The clock of an engine that isn't timed. It isn't read: a stamp is the event's position.
#[derive(Drop)]
pub struct NoClock;

impl EventClock for NoClock {
    fn stamp(&self) -> u64 {
        0
    }
}

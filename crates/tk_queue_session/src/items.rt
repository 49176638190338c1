//! What passes through a queue.
use tk_events::Entry;

/// What a worker puts into a queue: an entry, or its end mark.
#[derive(Drop)]
pub enum Item {
    /// An event, with the worker that emitted it.
    Entry(Entry),
    /// The end mark of the worker of this number, which emits nothing after it.
    End(u8),
}

//! The rows of explanations.

use crate::sentences::Sentence;
use tk_ids::Text;

/// What is said of an event after its row.
#[derive(Debug, Drop)]
pub(crate) enum Note {
    /// Nothing.
    Nothing,
    /// These members of the condition don't hold of it.
    Lacks(Text),
    /// The condition holds of it, but it doesn't stand after the event at this position.
    NotAfter(usize),
}

/// An execution by the position of its start, and where it ends: at the position of its finish or,
/// where it never finishes, at the number of entries of the record.
#[derive(Clone, Copy, Debug)]
pub(crate) struct Span {
    pub(crate) start: usize,
    pub(crate) end: usize,
}

/// What is said of which of two executions are writers'.
#[derive(Clone, Copy, Debug)]
pub(crate) enum Writers {
    /// Nothing, as there are no readers.
    Unsaid,
    /// The first of them is.
    First,
    /// The second of them is.
    Second,
    /// Both of them are.
    Both,
}

/// A line of an explanation, but for its line feed. Positions are those of the record.
#[derive(Debug, Drop)]
pub(crate) enum Row {
    /// This text.
    Line(Text),
    /// The condition of this number, as its text.
    Condition(usize, Text),
    /// The event at this position, and what is said of it.
    Event(usize, Note),
    /// There is no further event.
    NoneLeft,
    /// How many conditions there are, and how many events.
    Counts(usize, usize),
    /// These executions overlap.
    Overlap(Span, Span, Writers),
    /// These executions overlap, and conflict over the lock of this name.
    OverlapOver(Span, Span, Text),
    /// How many executions there are.
    Executions(usize),
    /// How many events more there are.
    More(usize),
    /// Why the record doesn't keep the lifecycle.
    Sentence(Sentence),
}

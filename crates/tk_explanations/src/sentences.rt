//! Sentences that say why a record doesn't keep the lifecycle.

use tk_events::Kind;
use tk_ids::Text;
use tk_query_lifecycle::LifecycleRule;

/// An event of a record: its position, its key and its kind.
#[derive(Clone, Copy, Debug)]
pub(crate) struct EventAt {
    pub(crate) position: usize,
    pub(crate) key: u32,
    pub(crate) kind: Kind,
}

/// Why an event breaks a rule of the lifecycle.
#[derive(Debug, Drop)]
pub(crate) enum Cause {
    /// The static descriptor of this key has the id that the event registers.
    StaticId(u32),
    /// This event registered the id before.
    RegisteredId(EventAt),
    /// No descriptor before the event has the id of its parent, which is this one.
    UnknownParent(Text),
    /// This is the last start, skip or finish of its parent.
    ParentStep(EventAt),
    /// The descriptor of this key is its parent, and had not started.
    ParentIdle(u32),
    /// This is a start, a skip or a finish of its own key.
    OwnStep(EventAt),
    /// Its own key had not started.
    Idle,
    /// This event started a child of its key, and the child still ran.
    ChildRan(EventAt),
    /// The event breaks the rule, and no other event shows why.
    Rule(LifecycleRule),
}

/// What is said of a record that doesn't keep the lifecycle.
#[derive(Debug, Drop)]
pub(crate) enum Sentence {
    /// The event breaks a rule, for this cause.
    Breaks(EventAt, Cause),
    /// The key never finished after its last start, which is this event.
    NeverFinished(u32, Option<EventAt>),
    /// The key neither started nor was skipped, though this event finished its parent, if it has
    /// one.
    NeverRan(u32, Option<EventAt>),
}

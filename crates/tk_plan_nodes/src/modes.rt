//! How nodes may run beside each other.

/// Where a node runs, as seen from its parent. JUnit: `Node.ExecutionMode`.
#[derive(Clone, Copy, Debug, PartialEq, Eq)]
pub enum ExecutionMode {
    /// In its parent's thread.
    SameThread,
    /// Maybe beside its siblings.
    Concurrent,
}

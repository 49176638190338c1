//! The limits of a session.
use tk_base::MAX_WORKERS;

/// How many items a session's queue may hold.
pub const MAX_CAPACITY: usize = 1024;

/// A slot for each worker, and one for worker 0.
pub(crate) const WORKER_SLOTS: usize = MAX_WORKERS as usize + 1;

//! How many workers there are, and how many events each may emit.

/// How many workers run an engine at most. They are numbered from 1; worker 0 is the caller's
/// thread. A lock book and a claim have a seat for each worker, so at most this many seats.
pub const MAX_WORKERS: u8 = 15;

/// How many events one worker emits at most, and how many the script of a plan's root has: 2^20.
pub const MAX_EVENTS: u64 = 1_048_576;

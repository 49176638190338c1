//! Meetings of two bodies of tests.
ghost use Rattle.std.specs.Prelude.{◌≤◌};
ghost use Rattle.tk_waiting.specs.declared.retry_delays.TheConstants.{MAX_SHORT_DELAYS};

use crate::retry_delays::{MAX_SHORT_DELAYS, RetryDelay};
use std::sync::Wait;
use std::sync::atomic::{AtomicU64, Ordering};
use std::time::Duration;

/// How many microseconds a long delay takes at least.
const MICROSECONDS_OF_DELAY: u64 = 100;

/// A place where two bodies of tests wait for each other, at most so long.
///
/// Where both came, their tests overlap: each has started, and neither has finished. So one run
/// shows that a lock is missing that should keep them apart. Where the lock keeps them apart, the
/// first waits in vain, and a later one too.
#[derive(Drop)]
pub struct Meeting {
    // How many came, but for those that left in vain.
    arrivals: AtomicU64,
    tries: u64,
}

impl Meeting {
    /// Makes a meeting at which each waits about so long for the other one.
    pub fn new(longest: Duration) -> Meeting
        ensures { MAX_SHORT_DELAYS ≤ result.tries }
    {
        let microseconds = u64::try_from(longest.as_micros()).unwrap_or(u64::MAX);
        let long_delays = microseconds / MICROSECONDS_OF_DELAY;
        Meeting {
            arrivals: AtomicU64::new(0),
            tries: long_delays.saturating_add(u64::from(MAX_SHORT_DELAYS)),
        }
    }

    // Tells whether more came than these.
    fn has_more_than(&self, arrivals: u64) -> bool {
        self.arrivals.load(Ordering::SeqCst) != arrivals
    }

    // Takes back the last of these arrivals, unless more came.
    fn leave(&self, arrivals: u64) -> bool {
        let before = arrivals.wrapping_sub(1);
        self.arrivals
            .compare_exchange(arrivals, before, Ordering::SeqCst, Ordering::SeqCst)
            .is_ok()
    }

    /// Waits for the other body, and says whether it came.
    ///
    /// Every second call ends the wait of the one before it, so one meeting serves several runs.
    /// No clause says whether the other body came, since that hangs on the threads.
    pub fn wait<R: Wait>(&self, rt: &R) -> bool {
        let arrivals = self.arrivals.fetch_add(1, Ordering::SeqCst).wrapping_add(1);
        if arrivals % 2 == 0 {
            return true;
        }
        let mut delay = RetryDelay::new();
        for _ in 0..self.tries {
            if self.has_more_than(arrivals) {
                return true;
            }
            delay.wait(rt);
        }
        !self.leave(arrivals)
    }
}

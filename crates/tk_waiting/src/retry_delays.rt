//! Delays between tries.
ghost use Rattle.std.specs.Prelude.{◌≡◌, ◌+◌, ◌<◌};
ghost use Rattle.std.specs.Duration.{as_nanos};

use crossbeam_utils::Backoff;
use std::marker::Model;
use std::sync::Wait;
use std::thread::Parker;
use std::time::Duration;

/// How many delays in a row are short: the thread spins, and then yields the processor. In any
/// delay after them it sleeps.
pub const MAX_SHORT_DELAYS: u32 = 256;

/// The delay between one try and the next of a thread that waits for others.
///
/// Where they need long it sleeps, so that it leaves the processor to them. Contracts see how many
/// short delays there were since the last success.
#[derive(Drop)]
pub struct RetryDelay {
    // Paces the short delays. Before the first of them there is none.
    backoff: Option<Backoff>,
    parker: Parker,
    short_delays: u32,
}

impl Model for RetryDelay {
    ghost use Rattle.std.specs.Prelude.{◌≡◌, ℕ, ◌≤◌, None};
    ghost use Rattle.tk_waiting.specs.declared.retry_delays.TheConstants.{MAX_SHORT_DELAYS};

    ghost Value = { ℕ };

    ghost view = { λ d. d.short_delays };

    ghost invariant = { λ d.
        (d.short_delays ≤ MAX_SHORT_DELAYS) × (d.short_delays ≡ 0 → d.backoff ≡ None) };
}

// How long a sleep is. The system may make it longer.
fn sleep_time() -> Duration
    ensures { as_nanos result ≡ 100_000 }
{
    Duration::from_micros(100)
}

impl RetryDelay {
    /// Makes a delay before which there was none.
    pub fn new() -> RetryDelay
        ensures { result ≡ 0 }
    {
        RetryDelay {
            backoff: None,
            parker: Parker::new(),
            short_delays: 0,
        }
    }

    /// Waits before the next try.
    pub fn wait<R: Wait>(&mut self, rt: &R)
        ensures short { self.old < MAX_SHORT_DELAYS → self.new ≡ self.old + 1 }
        ensures long { self.old ≡ MAX_SHORT_DELAYS → self.new ≡ self.old }
        ensures some { 0 < self.new }
    {
        if self.short_delays < MAX_SHORT_DELAYS {
            self.short_delays += 1;
            self.backoff.get_or_insert_with(Backoff::new).snooze();
        } else {
            self.parker.park_timeout(rt, sleep_time());
        }
    }

    /// Notes that a try succeeded, so that the next delays are short.
    pub fn reset(&mut self)
        ensures { self.new ≡ 0 }
    {
        self.short_delays = 0;
        self.backoff = None;
    }
}

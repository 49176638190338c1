//! How a thread waits between tries, and how bodies of tests wait for each other.
#![tactic(auto)]

mod meetings;
mod retry_delays;

pub use meetings::Meeting;
pub use retry_delays::{MAX_SHORT_DELAYS, RetryDelay};

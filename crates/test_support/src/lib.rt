//! What several crates of tests share: worked texts, small values, and devices that break. No
//! clause speaks of these values, so a test that uses them proves no more than that it is safe.
#![tactic(auto)]

mod devices;
mod endings;
mod samples;
mod shown;
mod texts;
mod written;

pub use devices::{OneByteSource, OneByteTarget};
pub use endings::{Ending, again_if_refused, done_if, is_done, refused_if};
pub use samples::{one_node, read_again, record_again, record_of, start, starts};
pub use shown::{are_shown, are_shown_as, is_debugged_as, is_shown, is_shown_as};
pub use texts::{
    demo_plan, demo_report, small_replay, small_replay_taken, two_locked_tests, two_tests,
    two_tests_report,
};
pub use written::{is_cut, is_written, is_written_as};

//! How near events come to a condition, and which of its members don't hold of them.
#![tactic(auto)]

mod candidates;
mod lacking;
pub mod laws;
mod parts;
mod search;

pub use candidates::{MAX_NEAREST, Nearest};
pub use lacking::lacking_text;
pub use parts::MAX_DISTANCE;
pub use search::nearest;

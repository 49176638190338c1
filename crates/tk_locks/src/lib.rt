//! What units of work need of sixteen resources, and the book in which workers take these and give
//! them back.
#![tactic(auto)]

mod books;
mod holdings;
pub mod laws;
mod needs;
mod rules;

pub use books::{Book, BookFault, BookSeat, Busy};
pub use holdings::Holdings;
pub use needs::Need;

//! Engines as an author writes them.
//!
//! [`even_numbers`], [`desk_engine`] and [`case_engine`] make engines of tests alone: the author
//! writes bodies, and the library emits the events. [`by_hand`] has engines that emit their events
//! themselves, and engines with a defect.
#![tactic(auto)]

pub mod by_hand;
mod case_tests;
mod cases;
mod desk;
mod evens;

pub use case_tests::{CaseTests, case_engine};
pub use cases::{Case, CaseTable, Function};
pub use desk::{DeskTests, desk_engine};
pub use evens::{EvenNumbers, even_numbers};

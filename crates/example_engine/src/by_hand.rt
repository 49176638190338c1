//! Engines by hand: [`EvenEngine`] of one test, a page to copy, and [`CaseEngine`] of tables of
//! cases.
//!
//! Proved of each run, beside what [`execute`] proves of any: which events each unit emitted, and in
//! which order. So a test starts once and finishes once, and succeeds exactly where what it asks is
//! so. Of what [`broken_engine`] emits nothing is proved.
//!
//! [`execute`]: engine_testkit::execute

mod broken;
mod case_engine;
mod even;
mod running;

pub use broken::{BrokenEngine, Defect, add_locked_test, broken_engine};
pub use case_engine::CaseEngine;
pub use even::EvenEngine;

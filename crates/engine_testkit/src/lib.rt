//! The one library that an author of an engine names. It has no code: its names are other crates'.
//!
//! An author implements [`Tests`], and [`Hierarchical`] makes an [`Engine`] of them and a [`Plan`];
//! an engine by hand implements [`Engine`] and emits into a [`Sink`]. [`execute`] runs either by 1
//! to `MAX_WORKERS` workers, and [`Results`] has the record; [`run_tests`] runs an engine of tests,
//! and says what holds of its record. `crates/example_engine` has examples. What clauses cite is in
//! `specs/Lib.antt`. JUnit: `EngineTestKit`.
//!
//! Here stand the names that most engines and their tests need; the modules have every name.
#![tactic(auto)]

pub mod engine;
pub mod laws;
pub mod plans;
pub mod questions;
pub mod record;

pub use engine::{
    Body, BookSeat, Context, Engine, FailedRun, Hierarchical, Need, Outcome, Reporter, Results,
    RunFault, Sink, Tests, UnitFault, emit, execute, execute_with_record, file_published, finish,
    finished, publish_file, register, report, reported, run_tests, skip, skipped, start, started,
};
pub use plans::{Bodies, BuildFault, ExecutionMode, Plan, PlanNode, build_plan};
pub use questions::{
    Condition, Ending, Exact, Exclusive, Execution, Executions, Expect, Failure, InOrder,
    Lifecycle, LifecycleRule, LockAnswer, Loose, exclusive, executions, locks, match_exactly,
    match_in_order, match_loosely,
};
pub use record::{
    DType, Descriptor, Event, Events, Expected, Kind, LockMode, Mismatch, Pairs, Payload, Segment,
    Selection, Status, Table, TableFault, Text,
};

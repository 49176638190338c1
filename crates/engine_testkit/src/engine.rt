//! Engines: the trait, sinks that take their events, calls that emit them, locks, and `execute`.
pub use tk_base::MAX_WORKERS;
pub use tk_engine_execute::{
    Engine, FailedRun, OUT_OF_ORDER, Results, RunFault, Sink, SinkFault, TWICE, UnitFault, execute,
    execute_many, execute_with_record,
};
pub use tk_engine_hierarchical::{
    Body, Context, EventClock, Hierarchical, Reporter, Tests, run_tests,
};
pub use tk_engine_unit_events::{
    emit, file_published, finish, finished, publish_file, register, report, reported, skip,
    skipped, start, started,
};
pub use tk_events::Outcome;
pub use tk_locks::{BookSeat, Need};
pub use tk_queue_session::{RegisterFault, SendFault};
pub use tk_waiting::Meeting;

//! Laws of runs: of a plan's engine, of an engine of tests, of one by hand, and of what
//! `lifecycle` answers.
pub use tk_engine_execute::laws::each_worker_has_its_list;
pub use tk_engine_hierarchical::laws::{lifecycle, nesting, outcomes, steps, trees, turns};
pub use tk_engine_lifecycle::laws::{runs_keep_lifecycle, unit_events};
pub use tk_engine_scripted::laws::listener;
pub use tk_query_lifecycle::laws::{kept_by_its_events, lifecycle_is_unique};
pub use tk_run_laws::laws::kept_is_relied_on;

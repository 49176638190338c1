//! Plans in code, what may be wrong with them, and reports of runs.
pub use tk_plan::Plan;
pub use tk_plan_json::PlanFault;
pub use tk_plan_nodes::{Bodies, BodiesFault, ExecutionMode, PlanLock, PlanNode};
pub use tk_plan_reading::{BuildFault, build_plan};
pub use tk_plan_runs::{ReportFault, write_report};

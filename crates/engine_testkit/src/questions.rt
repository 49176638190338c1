//! Questions about a record: conditions, matchers, executions, which of them overlap, lifecycle,
//! locks, and explanations of their answers.
pub use testkit_questions::{ConditionsFault, read_conditions};
pub use tk_expectations::{Expect, Failure, Unmet};
pub use tk_explanations::{
    ExplainFault, explain_exactly, explain_exclusive, explain_in_order, explain_lifecycle,
    explain_locks, explain_loosely, explain_statistics,
};
pub use tk_query::{
    Ending, Exact, Exclusive, Execution, Executions, InOrder, Loose, exclusive, executions,
    match_exactly, match_in_order, match_loosely,
};
pub use tk_query_conditions::{CondFault, Condition, read_condition, write_condition};
pub use tk_query_lifecycle::{Lifecycle, LifecycleRule, lifecycle};
pub use tk_query_locks::{LockAnswer, locks};

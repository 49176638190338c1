//! What is answered to a plan in code.
use std::alloc::{AllocError, Global};
use tk_plan_nodes::PlanNode;
use tk_plan_reading::{BuildFault, build_plan};

// Whether this is the text of the fault.
fn is_text(alloc: Global, fault: &BuildFault, text: &str) -> Result<bool, AllocError> {
    Ok(format!(in alloc; "{fault}")?.as_str() == text)
}

/// Whether a plan is built of the nodes below this root.
pub fn is_plan(alloc: Global, root: Result<PlanNode<'_>, AllocError>) -> Result<bool, AllocError> {
    let root = root?;
    Ok(build_plan(alloc, &root).is_ok())
}

/// Whether no plan is built, for the fault that has this text.
pub fn is_refused(
    alloc: Global,
    root: Result<PlanNode<'_>, AllocError>,
    text: &str,
) -> Result<bool, AllocError> {
    let root = root?;
    match &build_plan(alloc, &root) {
        Ok(_) => Ok(false),
        Err(fault) => is_text(alloc, fault, text),
    }
}

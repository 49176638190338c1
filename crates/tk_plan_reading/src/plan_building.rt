//! Building a plan from nodes in code.
ghost use Rattle.std.specs.Prelude.{◌≡◌, IfErr, IfOk};
ghost use Rattle.std.specs.Option.{option_and_then};
ghost use Rattle.tk_plan_nodes.specs.NodeIds.{id_at};
ghost use Rattle.tk_plan_nodes.specs.NodeJson.{plan_data};
ghost use Rattle.tk_plan_reading.specs.FaultyNodes.{HasNode, faulty_id};
ghost use Rattle.tk_plan_reading.specs.PlanAnswers.{Answered, without_node};
ghost use Rattle.tk_plan_reading.specs.PlanOf.{PlanOf};

use crate::build_faults::BuildFault;
use crate::plan_reading::{nodes_of, plan_from};
use std::alloc::{AllocError, Global};
use tk_plan::Plan;
use tk_plan_json::NodeFault;
use tk_plan_nodes::PlanNode;
use tk_plan_nodes::node_ids::write_id;
use tk_plan_nodes::node_values::plan_value;

/// Writes the id of the node that has the fault.
fn with_id(alloc: Global, root: &PlanNode<'_>, fault: NodeFault) -> Result<BuildFault, AllocError>
    ensures fault { IfOk result (λ named. named.fault ≡ fault.fault) }
    ensures node { IfOk result (λ named.
        named.node ≡ option_and_then (id_at root.now) fault.node) }
{
    let node = match fault.node {
        Some(number) => write_id(alloc, root, number)?,
        None => None,
    };
    Ok(BuildFault {
        fault: fault.fault,
        node,
    })
}

/// Builds the plan with this root, which copies all texts.
///
/// It is the plan of the JSON that says the same, so a plan in code is checked by the rules of
/// [`crate::read_plan`], in their order.
///
/// # Errors
/// The first fault of the nodes in preorder, with the id of the node that has it; else
/// `TooManyEvents`. `Field` has the place in that JSON, where a dynamic node has what only a static
/// one may have, or the path of a file is empty. Where a request for memory is refused, the fault is
/// `Memory`.
pub fn build_plan(alloc: Global, root: &PlanNode<'_>) -> Result<Plan, BuildFault>
    ensures plan { Answered (PlanOf (plan_data root.now)) (without_node result) }
    ensures node { IfErr result (λ e. HasNode (faulty_id root.now) e.fault e.node) }
{
    let value = plan_value(alloc, root)?;
    match nodes_of(alloc, value) {
        Ok(read) => Ok(plan_from(alloc, read)?),
        Err(fault) => Err(with_id(alloc, root, fault)?),
    }
}

//! Faults of a plan, with the nodes that have them.
ghost use Rattle.std.specs.Prelude.{◌≡◌, None};
ghost use Rattle.tk_plan_json.specs.steps.Fields.{as_node_fault};
ghost use Rattle.tk_plan_json.specs.declared.faults.PlanFault.TheVariants.{Memory};

use crate::faults::PlanFault;
use std::alloc::AllocError;

/// Why there is no plan, and which node's fault it is.
#[derive(Debug, Drop)]
pub struct NodeFault {
    pub fault: PlanFault,
    /// The number in preorder of the node that has the fault, if a node has it.
    pub node: Option<usize>,
}

impl NodeFault {
    /// Makes the fault of the node with this number. No node has the fault `Memory`.
    pub(crate) fn of_node(fault: PlanFault, number: usize) -> NodeFault
        ensures { result ≡ as_node_fault fault number }
    {
        match fault {
            PlanFault::Memory => NodeFault::from(fault),
            fault => NodeFault {
                fault,
                node: Some(number),
            },
        }
    }
}

/// A fault that no node has.
impl From<PlanFault> for NodeFault {
    ghost from_gives = { λ f e. e ≡ record { fault = f; node = None } };

    fn from(fault: PlanFault) -> NodeFault {
        NodeFault { fault, node: None }
    }
}

impl From<NodeFault> for PlanFault {
    ghost from_gives = { λ e f. f ≡ e.fault };

    fn from(fault: NodeFault) -> PlanFault {
        fault.fault
    }
}

impl From<AllocError> for NodeFault {
    ghost from_gives = { λ _ e. e ≡ record { fault = Memory; node = None } };

    fn from(_: AllocError) -> NodeFault {
        NodeFault::from(PlanFault::Memory)
    }
}

//! Why there is no plan of nodes in code.
ghost use Rattle.std.specs.Prelude.{◌≡◌, None, Some};
ghost use Rattle.tk_plan_json.specs.declared.faults.PlanFault.TheVariants.{Memory};
ghost use Rattle.tk_plan_reading.specs.BuildFaultTexts.{build_fault_text};

use std::alloc::{AllocError, AllocFailed};
use std::error::Error;
use std::fmt;
use tk_events::fmt_field;
use tk_ids::Text;
use tk_plan_json::PlanFault;

/// Why nodes in code are no plan, and at which node.
///
/// It is shown as `plan table is refused, at node [engine:shop]/[test:sell]`.
#[derive(Debug, Drop)]
pub struct BuildFault {
    /// What is wrong. `Field` has a place in the JSON that says the same as the nodes.
    pub fault: PlanFault,
    /// The id of the node that has the fault, as ids are written, also where it is no right id.
    ///
    /// No node has the faults `TooManyEvents` and `Memory`.
    pub node: Option<Text>,
}

/// The fault in one line: an id is written with the escapes of a text field.
impl fmt::Display for BuildFault {
    ghost output = { λ fault. Some (build_fault_text fault) };

    fn fmt<W: fmt::Write>(&self, f: &mut fmt::Formatter<W>) -> fmt::Result {
        match &self.node {
            Some(node) => {
                write!(f, "{}, at node ", self.fault)?;
                fmt_field(node.as_str(), f)
            }
            None => write!(f, "{}", self.fault),
        }
    }
}

impl Error for BuildFault {}

impl From<AllocError> for BuildFault {
    ghost from_gives = { λ _ e. e ≡ record { fault = Memory; node = None } };

    fn from(fault: AllocError) -> BuildFault {
        BuildFault {
            fault: PlanFault::from(fault),
            node: None,
        }
    }
}

impl<T: Drop> From<AllocFailed<T>> for BuildFault {
    ghost from_gives = { λ _ e. e ≡ record { fault = Memory; node = None } };

    fn from(fault: AllocFailed<T>) -> BuildFault {
        BuildFault {
            fault: PlanFault::from(fault),
            node: None,
        }
    }
}

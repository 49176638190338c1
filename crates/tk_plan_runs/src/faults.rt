//! Why there is no report.
ghost use Rattle.std.specs.Prelude.{◌≡◌};
ghost use Rattle.tk_plan_runs.specs.Faults.{fault_of_plan, fault_of_run};

use crate::fault_texts::ReportFaultText;
use thiserror::Error;
use tk_engine_execute::RunFault;
use tk_plan_json::PlanFault;

/// Why a report was not written. At `Device` a prefix of it was, at the others nothing.
#[derive(Debug, Drop, Error)]
#[error("{}", ReportFaultText(self))]
pub enum ReportFault {
    /// The bytes are no plan. The fault is never `PlanFault::Memory`, which is `Memory` here.
    Plan(PlanFault),
    /// The plan was not run to its end. The fault is never `RunFault::Memory`, which is `Memory`
    /// here.
    Run(RunFault),
    /// The target broke.
    Device,
    /// A request for memory was refused.
    Memory,
}

impl From<PlanFault> for ReportFault {
    ghost from_gives = { λ fault e. e ≡ fault_of_plan fault };

    fn from(fault: PlanFault) -> ReportFault {
        match fault {
            PlanFault::Memory => ReportFault::Memory,
            fault => ReportFault::Plan(fault),
        }
    }
}

impl From<RunFault> for ReportFault {
    ghost from_gives = { λ fault e. e ≡ fault_of_run fault };

    fn from(fault: RunFault) -> ReportFault {
        match fault {
            RunFault::Memory => ReportFault::Memory,
            fault => ReportFault::Run(fault),
        }
    }
}

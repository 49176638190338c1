//! The texts of the faults.
ghost use Rattle.std.specs.Prelude.{Some};
ghost use Rattle.tk_plan_runs.specs.FaultTexts.{report_fault_text};

use crate::faults::ReportFault;
use std::fmt;

/// The text of a fault, as [`ReportFault`] shows it.
#[derive(Drop)]
pub struct ReportFaultText<'f>(pub &'f ReportFault);

impl<'f> fmt::Display for ReportFaultText<'f> {
    ghost output = { λ text. Some (report_fault_text text.0.now) };

    fn fmt<W: fmt::Write>(&self, f: &mut fmt::Formatter<W>) -> fmt::Result {
        match self.0 {
            ReportFault::Plan(fault) => write!(f, "{fault}"),
            ReportFault::Run(fault) => write!(f, "{fault}"),
            ReportFault::Device => f.write_str("device failed"),
            ReportFault::Memory => f.write_str("out of memory"),
        }
    }
}

//! The exit of the program.
ghost use Rattle.std.specs.Prelude.{◌≡◌};
ghost use Rattle.std.specs.Process.{exit_status};
ghost use Rattle.testkit_program.specs.Statuses.{status_of_outcome};

use crate::faults::Fault;
use std::process::ExitCode;

/// The exit of a program with this outcome: status 0 at a yes, 1 at a no, and else the fault's.
pub fn exit_code(outcome: &Result<bool, Fault>) -> ExitCode
    ensures { exit_status result ≡ status_of_outcome outcome.now }
{
    match outcome {
        Ok(true) => ExitCode::from(0),
        Ok(false) => ExitCode::from(1),
        Err(fault) => ExitCode::from(fault.status()),
    }
}

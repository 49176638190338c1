//! Why a command line asks for nothing.
ghost use Rattle.std.specs.Prelude.{◌≡◌};
ghost use Rattle.clap.specs.Words.{kind_of};
ghost use Rattle.testkit_command_line.specs.declared.faults.CommandLineFault.TheVariants.{Memory as NoMemory};
ghost use Rattle.testkit_command_line.specs.steps.{fault_of_parse};

use clap::error::ErrorKind;
use std::alloc::AllocError;

/// Why a command line was not taken.
#[derive(Debug, Drop)]
pub enum CommandLineFault {
    /// The words are no command line of the program (docs/testkit.1, SYNOPSIS).
    BadWords,
    /// An allocation failed.
    Memory,
}

impl From<AllocError> for CommandLineFault {
    ghost from_gives = { λ _ e. e ≡ NoMemory };

    fn from(_error: AllocError) -> CommandLineFault {
        CommandLineFault::Memory
    }
}

/// Answers why the command-line crate refused words: an allocation failed, or the words are
/// bad.
pub fn parse_fault(error: &clap::Error) -> CommandLineFault
    ensures { result ≡ fault_of_parse (kind_of error.now) }
{
    match error.kind() {
        ErrorKind::OutOfMemory => CommandLineFault::Memory,
        _ => CommandLineFault::BadWords,
    }
}

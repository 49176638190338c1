//! The words of a program's arguments.
ghost use Rattle.std.specs.Prelude.{◌≡◌, map, string_bytes, IfErr, IfOk, Some};
ghost use Rattle.std.specs.IoError.{error_kind};
ghost use Rattle.testkit_command_line.specs.Arguments.{IsArgumentsFault, given_words};
ghost use Rattle.testkit_command_line.specs.Arguments.{fault_of_arguments};

use crate::faults::CommandLineFault;
use std::alloc::Global;
use std::env::Args;
use std::io;

/// Answers why a program's arguments could not be read: an allocation failed, or one is no
/// text.
pub fn arguments_fault(error: &io::Error) -> CommandLineFault
    ensures { result ≡ fault_of_arguments (error_kind error.now) }
{
    match error.kind() {
        io::ErrorKind::OutOfMemory => CommandLineFault::Memory,
        _ => CommandLineFault::BadWords,
    }
}

/// Collects all of a program's arguments, in their order, as words.
///
/// `arguments` is what [`std::env::args`] answered; the first word is the program's name.
///
/// # Errors
/// [`arguments_fault`] of the error in `arguments`, or `Memory`.
pub fn collect_words(
    alloc: Global,
    arguments: io::Result<Args>,
) -> Result<Vec<String>, CommandLineFault>
    ensures words { IfOk result (λ words.
        given_words arguments ≡ Some (map string_bytes words.items)) }
    ensures refused { IfErr result (IsArgumentsFault arguments) }
{
    match arguments {
        Ok(given) => Ok(given.collect(alloc)?),
        Err(error) => Err(arguments_fault(&error)),
    }
}

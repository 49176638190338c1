//! The texts of the faults.
ghost use Rattle.std.specs.Prelude.{◌≡◌, Some};
ghost use Rattle.std.specs.Fmt.{WritesOnOk};
ghost use Rattle.testkit_questions.specs.FaultTexts.{ask_fault_text, condition_text};

use crate::faults::AskFault;
use std::fmt;
use tk_query_conditions::CondFault;

/// Writes why the word of this number is no condition.
pub(crate) fn write_condition_fault<W: fmt::Write>(
    word: usize,
    fault: &CondFault,
    f: &mut fmt::Formatter<W>,
) -> fmt::Result
    ensures { WritesOnOk W.write_str_gives f.old result (condition_text word fault.now) f.new }
{
    match fault {
        CondFault::Memory => f.write_str("out of memory"),
        fault => write!(f, "condition {word} is {fault}"),
    }
}

/// The text of a fault, as [`AskFault`] and the program show it.
#[derive(Drop)]
pub struct AskFaultText<'f>(pub &'f AskFault);

impl<'f> fmt::Display for AskFaultText<'f> {
    ghost output = { λ text. Some (ask_fault_text text.0.now) };

    fn fmt<W: fmt::Write>(&self, f: &mut fmt::Formatter<W>) -> fmt::Result {
        match self.0 {
            AskFault::Question => f.write_str("unknown question"),
            AskFault::Word(word) => write!(f, "bad word {word}"),
            AskFault::Condition(word, fault) => write_condition_fault(*word, fault, f),
            AskFault::Read(fault) => write!(f, "{fault}"),
            AskFault::Device => f.write_str("device failed"),
            AskFault::Memory => f.write_str("out of memory"),
        }
    }
}

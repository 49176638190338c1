//! Why a question is not answered.
ghost use Rattle.std.specs.Prelude.{◌≡◌};
ghost use Rattle.testkit_questions.specs.declared.faults.AskFault.TheVariants.{Memory as MemoryFault};
ghost use Rattle.testkit_questions.specs.FaultsOfExplanations.{ask_fault_of};

use crate::fault_texts::AskFaultText;
use std::alloc::AllocError;
use thiserror::Error;
use tk_explanations::ExplainFault;
use tk_query_conditions::CondFault;
use tk_record_text::ReadFault;

/// Why a question is not answered, in the order in which faults are looked for.
#[derive(Debug, Drop, Error)]
#[error("{}", AskFaultText(self))]
pub enum AskFault {
    /// The question is missing, or its name is that of none.
    Question,
    /// The word of this number is bad or missing. Words are counted from 0 after the question, and
    /// after `explain` where its answer is to be explained.
    Word(usize),
    /// The word of this number is no condition.
    Condition(usize, CondFault),
    /// The input is no record text, or the source broke.
    Read(ReadFault),
    /// The target broke.
    Device,
    /// An allocation failed.
    Memory,
}

impl From<AllocError> for AskFault {
    ghost from_gives = { λ _ e. e ≡ MemoryFault };

    fn from(_error: AllocError) -> AskFault {
        AskFault::Memory
    }
}

impl From<ExplainFault> for AskFault {
    ghost from_gives = { λ fault e. e ≡ ask_fault_of fault };

    fn from(fault: ExplainFault) -> AskFault {
        match fault {
            ExplainFault::Device => AskFault::Device,
            ExplainFault::Memory => AskFault::Memory,
        }
    }
}

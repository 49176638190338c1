//! Conditions of texts, as tests of an engine write them.
ghost use Rattle.std.specs.Prelude.{◌≡◌, map, Ok, Some, IfErr, IfOk};
ghost use Rattle.tk_query_conditions.specs.Answer.{IsReadAs};
ghost use Rattle.testkit_questions.specs.Questions.{AreConditions};
ghost use Rattle.testkit_questions.specs.Conditions.{IsConditionsFault};
ghost use Rattle.testkit_questions.specs.steps.{IsTextFault};
ghost use Rattle.testkit_questions.specs.FaultTexts.{conditions_fault_text};
ghost use Rattle.testkit_questions.specs.declared.conditions.ConditionsFault.TheVariants.{Memory as MemoryFault};

use crate::fault_texts::write_condition_fault;
use std::alloc::{AllocFailed, Global};
use std::convert::AsStr;
use std::error::Error;
use std::fmt;
use tk_query_conditions::{CondFault, Condition, read_condition};

/// Why texts are not conditions.
#[derive(Clone, Copy, Debug, PartialEq, Eq, Drop)]
pub enum ConditionsFault {
    /// The text of this number, counted from 0, is no condition.
    Condition(usize, CondFault),
    /// A request for memory was refused.
    Memory,
}

impl<T: Drop> From<AllocFailed<T>> for ConditionsFault {
    ghost from_gives = { λ _ e. e ≡ MemoryFault };

    fn from(_error: AllocFailed<T>) -> ConditionsFault {
        ConditionsFault::Memory
    }
}

impl fmt::Display for ConditionsFault {
    ghost output = { λ fault. Some (conditions_fault_text fault) };

    fn fmt<W: fmt::Write>(&self, f: &mut fmt::Formatter<W>) -> fmt::Result {
        match self {
            ConditionsFault::Condition(number, fault) => write_condition_fault(*number, fault, f),
            ConditionsFault::Memory => f.write_str("out of memory"),
        }
    }
}

impl Error for ConditionsFault {}

/// Reads the condition that the text of this number spells.
pub(crate) fn read_text(
    alloc: Global,
    number: usize,
    text: &str,
) -> Result<Condition, ConditionsFault>
    ensures ok { IfOk result (λ condition. IsReadAs text.now (Ok condition)) }
    ensures err { IfErr result (IsTextFault number text.now) }
{
    match read_condition(alloc, text) {
        Ok(condition) => Ok(condition),
        Err(CondFault::Memory) => Err(ConditionsFault::Memory),
        Err(fault) => Err(ConditionsFault::Condition(number, fault)),
    }
}

/// Reads the condition that each text spells, in the order of the texts.
///
/// # Errors
/// `Condition` for the first text that is no condition, and `Memory` where a request for memory is
/// refused.
pub fn read_conditions<T: AsStr>(
    alloc: Global,
    texts: &[T],
) -> Result<Vec<Condition>, ConditionsFault>
    ensures ok { IfOk result (λ conditions. AreConditions (map T.text texts.now) conditions.items) }
    ensures err { IfErr result (IsConditionsFault (map T.text texts.now)) }
{
    let mut conditions = Vec::new(alloc);
    for (number, text) in texts.iter().enumerate() {
        let condition = read_text(alloc, number, text.as_str())?;
        conditions.push(condition)?;
    }
    Ok(conditions)
}

//! Answers as they are written, and their explanations.
ghost use Rattle.std.specs.Prelude.{◌≡◌, true, IsErrOf};
ghost use Rattle.tk_explanations.specs.Explained.{IsExplained};
ghost use Rattle.testkit_questions.specs.Answers.{IsAnswerTo};
ghost use Rattle.testkit_questions.specs.Explanations.{Explains, ExplainsMatch};

use crate::answers::{events_where, picked, reply_to};
use crate::questions::{Mode, Question};
use std::alloc::Global;
use tk_explanations::{
    ExplainFault, explain_exactly, explain_exclusive, explain_executions, explain_in_order,
    explain_lifecycle, explain_list, explain_locks, explain_loosely, explain_statistics,
};
use tk_query_conditions::Condition;
use tk_record::{Events, Record};
use tk_streams::Target;

/// Writes the answer to a question about a record. All memory is had before the first byte goes
/// out.
///
/// # Errors
/// `Memory` where a request for memory is refused, and `Device` where the target broke.
pub(crate) fn write_answer<T: Target>(
    alloc: Global,
    record: &Record,
    question: &Question,
    target: &mut T,
) -> Result<bool, ExplainFault>
    ensures written { IsExplained (IsAnswerTo question.now «record».now)
        (T.contents target.old) (T.contents target.new) result }
    ensures unwritten { IsErrOf result ExplainFault.Memory → target.new ≡ target.old }
    ensures device { IsErrOf result ExplainFault.Device → T.broken target.new ≡ true }
{
    let reply = reply_to(alloc, record, question)?;
    let is_yes = reply.is_yes();
    match reply.write(target) {
        Ok(()) => Ok(is_yes),
        Err(_) => Err(ExplainFault::Device),
    }
}

/// Writes what a mode's matcher answers of the events, and below it why.
///
/// # Errors
/// `Memory` where a request for memory is refused, and `Device` where the target broke.
pub fn explain_match<T: Target>(
    alloc: Global,
    events: &Events<'_>,
    mode: Mode,
    conditions: &[Condition],
    target: &mut T,
) -> Result<bool, ExplainFault>
    ensures written { IsExplained (ExplainsMatch mode events.now conditions.now)
        (T.contents target.old) (T.contents target.new) result }
    ensures unwritten { IsErrOf result ExplainFault.Memory → target.new ≡ target.old }
    ensures device { IsErrOf result ExplainFault.Device → T.broken target.new ≡ true }
{
    match mode {
        Mode::Exactly => explain_exactly(alloc, events, conditions, target),
        Mode::Loosely => explain_loosely(alloc, events, conditions, target),
        Mode::InOrder => explain_in_order(alloc, events, conditions, target),
    }
}

/// Writes the answer to a question about a record, and below it why it is the answer. Of a number
/// and of a report it writes the answer alone.
///
/// # Errors
/// `Memory` where a request for memory is refused, and `Device` where the target broke.
pub(crate) fn explain<T: Target>(
    alloc: Global,
    record: &Record,
    question: &Question,
    target: &mut T,
) -> Result<bool, ExplainFault>
    ensures written { IsExplained (Explains question.now «record».now)
        (T.contents target.old) (T.contents target.new) result }
    ensures unwritten { IsErrOf result ExplainFault.Memory → target.new ≡ target.old }
    ensures device { IsErrOf result ExplainFault.Device → T.broken target.new ≡ true }
{
    match question {
        Question::Stats {
            selection,
            expected,
        } => {
            let events = picked(alloc, record, *selection)?;
            explain_statistics(alloc, &events, expected, target)
        }
        Question::Match {
            selection,
            mode,
            conditions,
        } => {
            let events = picked(alloc, record, *selection)?;
            explain_match(alloc, &events, *mode, conditions.as_slice(), target)
        }
        Question::List {
            selection,
            conditions,
        } => {
            let events = events_where(alloc, record, *selection, conditions.as_slice())?;
            explain_list(&events, target)
        }
        Question::Exclusive { writers, readers } => {
            let events = Events::all(alloc, record)?;
            explain_exclusive(alloc, &events, writers, readers, target)
        }
        Question::Executions { selection } => {
            let events = picked(alloc, record, *selection)?;
            explain_executions(alloc, events, target)
        }
        Question::Lifecycle => explain_lifecycle(alloc, record, target),
        Question::Locks => {
            let events = Events::all(alloc, record)?;
            explain_locks(alloc, &events, target)
        }
        Question::Count { .. } | Question::Report => {
            write_answer(alloc, record, question, target)
        }
    }
}

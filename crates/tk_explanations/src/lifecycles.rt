//! Why a record doesn't keep the lifecycle that a listener of an engine may rely on.
ghost use Rattle.std.specs.Prelude.{◌≡◌, ◌++◌, length, true, IfOk, OnOk, IsErrOf};
ghost use Rattle.tk_events.specs.declared.kinds.Kind.TheVariants.{Started};
ghost use Rattle.tk_record.specs.Entries.{desc};
ghost use Rattle.tk_query_lifecycle.specs.Lifecycle.{is_event};
ghost use Rattle.tk_explanations.specs.Explained.{IsExplained};
ghost use Rattle.tk_explanations.specs.EventSearches.{last_before};
ghost use Rattle.tk_explanations.specs.Lifecycles.{ExplainsLifecycle, IsLifecycleExplanation, cause_rows, broken_rows, earlier_event, event_rows, lifecycle_rows, never_ran_rows, parent_success, success_of, unfinished_rows};

use crate::causes::{cause_at, key_before};
use crate::event_searches::{EventTest, event_of, first_before, last_before, parent_text};
use crate::explanations::Explanation;
use crate::faults::ExplainFault;
use crate::rows::{Note, Row};
use crate::sentences::{Cause, EventAt, Sentence};
use std::alloc::{AllocError, Global};
use tk_ids::{Descriptor, Text};
use tk_query_lifecycle::{Lifecycle, LifecycleRule, lifecycle};
use tk_record::Record;
use tk_streams::Target;

// The event that a cause speaks of.
fn earlier_event(cause: &Cause) -> Option<EventAt>
    ensures { result ≡ earlier_event cause.now }
{
    match cause {
        Cause::RegisteredId(event) => Some(*event),
        Cause::ParentStep(event) => Some(*event),
        Cause::OwnStep(event) => Some(*event),
        Cause::ChildRan(event) => Some(*event),
        _ => None,
    }
}

// Adds the row of an event, if there is one.
fn add_event(rows: &mut Vec<Row>, event: Option<EventAt>) -> Result<(), AllocError>
    ensures { OnOk result (rows.new.items ≡ rows.old.items ++ event_rows event) }
{
    if let Some(event) = event {
        rows.push(Row::Event(event.position, Note::Nothing))?;
    }
    Ok(())
}

// Adds that an event breaks a rule, and the rows of the events that show it.
fn add_cause(rows: &mut Vec<Row>, event: EventAt, cause: Cause) -> Result<(), AllocError>
    ensures { OnOk result (rows.new.items ≡ rows.old.items ++ cause_rows event cause) }
{
    let earlier = earlier_event(&cause);
    rows.push(Row::Sentence(Sentence::Breaks(event, cause)))?;
    add_event(rows, earlier)?;
    add_event(rows, Some(event))
}

// Adds why the event at a position breaks a rule.
fn add_broken(
    alloc: Global,
    rows: &mut Vec<Row>,
    record: &Record,
    event: Option<EventAt>,
    rule: LifecycleRule,
) -> Result<(), AllocError>
    ensures { OnOk result (rows.new.items
        ≡ rows.old.items ++ broken_rows «record».now rule event) }
{
    let Some(event) = event else {
        return Ok(());
    };
    let cause = cause_at(alloc, record, event, rule)?;
    add_cause(rows, event, cause)
}

// Adds that a key never finished, and the row of its last start.
fn add_unfinished(rows: &mut Vec<Row>, record: &Record, key: u32) -> Result<(), AllocError>
    ensures { OnOk result (rows.new.items ≡ rows.old.items ++ unfinished_rows key
        (last_before (length «record».now.entries) (is_event Started key) «record».now)) }
{
    let start = last_before(record, record.len(), EventTest::Starts(key));
    rows.push(Row::Sentence(Sentence::NeverFinished(key, start)))?;
    add_event(rows, start)
}

// The first successful finish of a key, if there is one.
fn success_of(record: &Record, key: Option<u32>) -> Option<EventAt>
    ensures { result ≡ success_of «record».now key }
{
    first_before(record, record.len(), EventTest::Succeeds(key?))
}

// The first successful finish of the parent of a key.
fn parent_success(alloc: Global, record: &Record, key: u32) -> Result<Option<EventAt>, AllocError>
    ensures { IfOk result (λ finish. finish ≡ parent_success «record».now (desc «record».now key)) }
{
    let Some(descriptor) = record.describe(key) else {
        return Ok(None);
    };
    let text = parent_text(alloc, descriptor)?;
    let parent = key_before(record, record.len(), text.as_str());
    Ok(success_of(record, parent))
}

// Adds that a key never ran, and the row of the finish of its parent.
fn add_never_ran(
    alloc: Global,
    rows: &mut Vec<Row>,
    record: &Record,
    key: u32,
) -> Result<(), AllocError>
    ensures { OnOk result (rows.new.items ≡ rows.old.items ++ never_ran_rows key
        (parent_success «record».now (desc «record».now key))) }
{
    let finish = parent_success(alloc, record, key)?;
    rows.push(Row::Sentence(Sentence::NeverRan(key, finish)))?;
    add_event(rows, finish)
}

// Adds what is said below the answer.
fn add_rows(
    alloc: Global,
    rows: &mut Vec<Row>,
    record: &Record,
    answer: Lifecycle,
) -> Result<(), AllocError>
    ensures { OnOk result (rows.new.items ≡ rows.old.items ++ lifecycle_rows «record».now answer) }
{
    match answer {
        Lifecycle::Kept => Ok(()),
        Lifecycle::Broken(position, rule) => {
            add_broken(alloc, rows, record, event_of(record, position), rule)
        }
        Lifecycle::Unfinished(key) => add_unfinished(rows, record, key),
        Lifecycle::NeverRan(key) => add_never_ran(alloc, rows, record, key),
    }
}

fn explain(alloc: Global, record: &Record) -> Result<Explanation, AllocError>
    ensures { IfOk result (λ explanation. IsLifecycleExplanation «record».now
        explanation.is_yes explanation.rows.items) }
{
    let answer = lifecycle(alloc, record)?;
    let text = format!(in alloc; "{answer}")?;
    let mut explanation = Explanation::new(alloc, matches!(answer, Lifecycle::Kept), text)?;
    add_rows(alloc, &mut explanation.rows, record, answer)?;
    Ok(explanation)
}

/// Writes whether a record keeps the lifecycle that a listener of an engine may rely on, as
/// [`lifecycle`] answers it. Below a no stand a sentence that says why, and the events that it
/// speaks of.
///
/// # Errors
/// `Memory` where a request for memory is refused, and `Device` where the target broke.
pub fn explain_lifecycle<T: Target>(
    alloc: Global,
    record: &Record,
    target: &mut T,
) -> Result<bool, ExplainFault>
    ensures written { IsExplained (ExplainsLifecycle «record».now)
        (T.contents target.old) (T.contents target.new) result }
    ensures unwritten { IsErrOf result ExplainFault.Memory → target.new ≡ target.old }
    ensures device { IsErrOf result ExplainFault.Device → T.broken target.new ≡ true }
{
    let explanation = explain(alloc, record)?;
    explanation.write(record, target)
}

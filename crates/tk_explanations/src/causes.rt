//! Why an event breaks a rule of the lifecycle.
ghost use Rattle.std.specs.Prelude.{◌≡◌, ◌<◌, length, Some, IfOk, IfSome};
ghost use Rattle.tk_ids.specs.IdText.{id_text};
ghost use Rattle.tk_record.specs.Entries.{desc};
ghost use Rattle.tk_explanations.specs.Causes.{cause_at, cause_of, child_running, key_before, known_id, not_running, parent_at_rest, parent_step, ran_already, registration, static_key};

use crate::event_searches::{
    EventTest, first_before, has_id_text, last_before, parent_text, registration, running_child,
};
use crate::sentences::{Cause, EventAt};
use std::alloc::{AllocError, Global};
use tk_ids::{Descriptor, Text};
use tk_query_lifecycle::LifecycleRule;
use tk_record::Record;

// The first position in the table of a descriptor whose id has this text.
fn static_position(record: &Record, text: &str) -> Option<usize>
    ensures value { result ≡ static_key «record».now text.now }
    ensures bound { IfSome result (λ key. key < length «record».now.table) }
{
    record
        .table()
        .iter()
        .position(|descriptor| has_id_text(text, descriptor))
}

// The least key of a static descriptor whose id has this text.
fn static_key(record: &Record, text: &str) -> Option<u32>
    ensures { result ≡ static_key «record».now text.now }
{
    let key = static_position(record, text)?;
    // For the proof: that a table is short.
    let _count = record.table().len();
    Some(key as u32)
}

/// Finds the key of the descriptor that has an id with this text before a position.
pub(crate) fn key_before(record: &Record, before: usize, text: &str) -> Option<u32>
    ensures { result ≡ key_before «record».now before text.now }
{
    match static_key(record, text) {
        Some(key) => Some(key),
        None => registration(record, before, text).map(|event| event.key),
    }
}

// A static descriptor has the id, or an event registered it.
fn known_id(key: Option<u32>, event: Option<EventAt>) -> Cause
    ensures { result ≡ known_id key event }
{
    match (key, event) {
        (Some(key), _) => Cause::StaticId(key),
        (None, Some(event)) => Cause::RegisteredId(event),
        (None, None) => Cause::Rule(LifecycleRule::IdKnown),
    }
}

// The parent's last step, if there is one.
fn parent_step(key: u32, event: Option<EventAt>) -> Cause
    ensures { result ≡ parent_step key event }
{
    match event {
        Some(event) => Cause::ParentStep(event),
        None => Cause::ParentIdle(key),
    }
}

// Why the parent with this id doesn't run before a position.
fn parent_at_rest(record: &Record, before: usize, text: Text, parent: Option<u32>) -> Cause
    ensures { result ≡ parent_at_rest «record».now before text parent }
{
    match parent {
        Some(key) => parent_step(key, last_before(record, before, EventTest::Steps(key))),
        None => Cause::UnknownParent(text),
    }
}

fn ran_already(event: Option<EventAt>) -> Cause
    ensures { result ≡ ran_already event }
{
    match event {
        Some(event) => Cause::OwnStep(event),
        None => Cause::Rule(LifecycleRule::RanAlready),
    }
}

fn not_running(event: Option<EventAt>) -> Cause
    ensures { result ≡ not_running event }
{
    match event {
        Some(event) => Cause::OwnStep(event),
        None => Cause::Idle,
    }
}

fn child_running(event: Option<EventAt>) -> Cause
    ensures { result ≡ child_running event }
{
    match event {
        Some(event) => Cause::ChildRan(event),
        None => Cause::Rule(LifecycleRule::ChildRunning),
    }
}

// Why an event registers an id that a descriptor has already.
fn known_id_cause(record: &Record, event: EventAt, descriptor: &Descriptor) -> Cause
    ensures { result ≡ cause_of «record».now event descriptor.now LifecycleRule.IdKnown }
{
    let text = descriptor.id.as_text().as_str();
    known_id(
        static_key(record, text),
        registration(record, event.position, text),
    )
}

// Why the parent of a descriptor doesn't run at an event.
fn parent_cause(
    alloc: Global,
    record: &Record,
    event: EventAt,
    descriptor: &Descriptor,
) -> Result<Cause, AllocError>
    ensures { IfOk result (λ cause.
        cause ≡ cause_of «record».now event descriptor.now LifecycleRule.ParentNotRunning) }
{
    let text = parent_text(alloc, descriptor)?;
    let parent = key_before(record, event.position, text.as_str());
    Ok(parent_at_rest(record, event.position, text, parent))
}

// Which child of a descriptor runs at an event.
fn child_cause(
    alloc: Global,
    record: &Record,
    event: EventAt,
    descriptor: &Descriptor,
) -> Result<Cause, AllocError>
    ensures { IfOk result (λ cause.
        cause ≡ cause_of «record».now event descriptor.now LifecycleRule.ChildRunning) }
{
    let text = descriptor.id.as_text().as_str();
    let child = running_child(alloc, record, event.position, text)?;
    Ok(child_running(child))
}

// Why an event of the descriptor breaks the rule.
fn cause_of(
    alloc: Global,
    record: &Record,
    event: EventAt,
    descriptor: &Descriptor,
    rule: LifecycleRule,
) -> Result<Cause, AllocError>
    ensures { IfOk result (λ cause.
        cause ≡ cause_of «record».now event descriptor.now rule) }
{
    let key = event.key;
    let position = event.position;
    match rule {
        LifecycleRule::IdKnown => Ok(known_id_cause(record, event, descriptor)),
        LifecycleRule::ParentUnknown => {
            Ok(Cause::UnknownParent(parent_text(alloc, descriptor)?))
        }
        LifecycleRule::ParentNotRunning => parent_cause(alloc, record, event, descriptor),
        LifecycleRule::RanAlready => {
            Ok(ran_already(first_before(record, position, EventTest::Begins(key))))
        }
        LifecycleRule::NotRunning => {
            Ok(not_running(last_before(record, position, EventTest::Steps(key))))
        }
        LifecycleRule::ChildRunning => child_cause(alloc, record, event, descriptor),
    }
}

/// Says why an event breaks the rule.
///
/// # Errors
/// `AllocError` where a request for memory is refused.
pub(crate) fn cause_at(
    alloc: Global,
    record: &Record,
    event: EventAt,
    rule: LifecycleRule,
) -> Result<Cause, AllocError>
    ensures { IfOk result (λ cause.
        cause ≡ cause_at «record».now event rule (desc «record».now event.key)) }
{
    match record.describe(event.key) {
        Some(descriptor) => cause_of(alloc, record, event, descriptor, rule),
        None => Ok(Cause::Rule(rule)),
    }
}

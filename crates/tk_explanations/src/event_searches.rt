//! The first and the last event of a record that passes a test.
ghost use Rattle.std.specs.HashSet.{contains, HashSet};
ghost use Rattle.std.specs.Prelude.{◌≡◌, ℕ, ◌&&◌, ◌||◌, Bool, nat_eq, if◌then◌else◌, Some, slice_get, option_map, option_copied, take, IfOk, OnOk};
ghost use Rattle.tk_ids.specs.IdText.{id_text, parent_of};
ghost use Rattle.tk_events.specs.declared.kinds.Kind.{Kind};
ghost use Rattle.tk_events.specs.declared.kinds.Kind.TheVariants.{Finished};
ghost use Rattle.tk_events.specs.declared.statuses.Status.TheVariants.{Successful};
ghost use Rattle.tk_record.specs.Entries.{described, desc, of_kind, of_status};
ghost use Rattle.tk_record.specs.Record.{entry_of_view};
ghost use Rattle.tk_query_lifecycle.specs.Lifecycle.{has_event, is_event};
ghost use Rattle.tk_explanations.specs.Causes.{parent_text, registration};
ghost use Rattle.tk_explanations.specs.EventSearches.{event_at, first_before, has_id_text, has_parent_text, last_before, registers_id, starts_child, starts_to_run};
ghost use Rattle.tk_explanations.specs.steps.{passes};

use crate::sentences::EventAt;
use std::alloc::{AllocError, Global};
use std::collections::HashSet;
use tk_events::{Kind, Outcome, Payload};
use tk_ids::{Descriptor, Text};
use tk_record::{EntryView, Record};

/// What is asked of an event.
#[derive(Clone, Copy)]
pub(crate) enum EventTest {
    /// It starts the key.
    Starts(u32),
    /// It starts or skips the key.
    Begins(u32),
    /// It starts, skips or finishes the key.
    Steps(u32),
    /// It finishes the key successfully.
    Succeeds(u32),
}

// Whether an event is of a kind and of a key.
fn is_event(kind: Kind, key: u32, view: &EntryView<'_>) -> bool
    ensures { result ≡ is_event kind key (entry_of_view view.now) }
{
    view.kind == kind && view.key == key
}

// Whether an event is a successful finish.
fn is_success(view: &EntryView<'_>) -> bool
    ensures { result ≡ of_status Successful (entry_of_view view.now) }
{
    match (view.kind, view.payload) {
        (Kind::Finished, Payload::Outcome(outcome)) => matches!(outcome, Outcome::Successful),
        _ => false,
    }
}

impl EventTest {
    fn passes(self, view: &EntryView<'_>) -> bool
        ensures { result ≡ passes self (entry_of_view view.now) }
    {
        match self {
            EventTest::Starts(key) => is_event(Kind::Started, key, view),
            EventTest::Begins(key) => {
                is_event(Kind::Started, key, view) || is_event(Kind::Skipped, key, view)
            }
            EventTest::Steps(key) => {
                is_event(Kind::Started, key, view)
                    || is_event(Kind::Skipped, key, view)
                    || is_event(Kind::Finished, key, view)
            }
            EventTest::Succeeds(key) => is_success(view) && view.key == key,
        }
    }
}

// The event at a position.
fn event_at(position: usize, view: &EntryView<'_>) -> EventAt
    ensures { result ≡ event_at position (entry_of_view view.now) }
{
    EventAt {
        position,
        key: view.key,
        kind: view.kind,
    }
}

/// Gives the event at a position, where the record has one there.
pub(crate) fn event_of(record: &Record, position: usize) -> Option<EventAt>
    ensures { result ≡ option_map (event_at position) (slice_get «record».now.entries position) }
{
    let view = record.entry(position)?;
    Some(event_at(position, &view))
}

/// Finds the first event before a position that passes.
pub(crate) fn first_before(record: &Record, before: usize, test: EventTest) -> Option<EventAt>
    ensures { result ≡ first_before before (passes test) «record».now }
{
    let mut position = 0;
    'entries: for view in record.iter() {
        if position == before {
            return None;
        }
        if test.passes(&view) {
            return Some(event_at(position, &view));
        }
        position += 1;
    }
    None
}

// The event where it passes, else the one that was found before.
fn later(
    found: Option<EventAt>,
    position: usize,
    test: EventTest,
    view: &EntryView<'_>,
) -> Option<EventAt>
    ensures { result ≡ (if passes test (entry_of_view view.now)
        then Some (event_at position (entry_of_view view.now)) else found) }
{
    if test.passes(view) {
        Some(event_at(position, view))
    } else {
        found
    }
}

/// Finds the last event before a position that passes.
pub(crate) fn last_before(record: &Record, before: usize, test: EventTest) -> Option<EventAt>
    ensures { result ≡ last_before before (passes test) «record».now }
{
    let mut found = None;
    let mut position = 0;
    'entries: for view in record.iter() {
        if position == before {
            return found;
        }
        found = later(found, position, test, &view);
        position += 1;
    }
    found
}

/// Says whether the id of a descriptor has this text.
pub(crate) fn has_id_text(text: &str, descriptor: &Descriptor) -> bool
    ensures { result ≡ has_id_text text.now (Some descriptor.now) }
{
    descriptor.id.as_text().as_str() == text
}

// Whether an event registers an id with this text.
fn registers_id(text: &str, view: &EntryView<'_>) -> bool
    ensures { result ≡ registers_id text.now (entry_of_view view.now) }
{
    match view.payload {
        Payload::Described(descriptor) => {
            view.kind == Kind::Dynamic && has_id_text(text, descriptor)
        }
        _ => false,
    }
}

/// Finds the first event before a position that registers an id with this text.
pub(crate) fn registration(record: &Record, before: usize, text: &str) -> Option<EventAt>
    ensures { result ≡ registration «record».now before text.now }
{
    let mut position = 0;
    'entries: for view in record.iter() {
        if position == before {
            return None;
        }
        if registers_id(text, &view) {
            return Some(event_at(position, &view));
        }
        position += 1;
    }
    None
}

/// Makes the text of an id without its last segment. It is empty where the id has only one.
pub(crate) fn parent_text(alloc: Global, descriptor: &Descriptor) -> Result<Text, AllocError>
    ensures { IfOk result (λ text. text ≡ parent_text descriptor.now) }
{
    match descriptor.id.parent(alloc)? {
        Some(parent) => parent.as_text().try_clone(),
        None => Text::copy(alloc, ""),
    }
}

// Adds the key of an event that is a finish.
fn add_finished(keys: &mut HashSet<u32>, view: &EntryView<'_>) -> Result<(), AllocError>
    ensures { OnOk result ((key : ℕ) → contains nat_eq keys.new key
        ≡ (is_event Finished key (entry_of_view view.now) || contains nat_eq keys.old key)) }
{
    if view.kind == Kind::Finished {
        keys.insert(view.key)?;
    }
    Ok(())
}

// The keys that finish before a position.
fn finished_before(
    alloc: Global,
    record: &Record,
    before: usize,
) -> Result<HashSet<u32>, AllocError>
    ensures { IfOk result (λ keys. (key : ℕ) → contains nat_eq keys key
        ≡ has_event Finished key (take before «record».now.entries)) }
{
    let mut keys = HashSet::new(alloc);
    let mut position = 0;
    'entries: for view in record.iter() {
        if position == before {
            return Ok(keys);
        }
        add_finished(&mut keys, &view)?;
        position += 1;
    }
    Ok(keys)
}

// Whether a key has a descriptor, and its id without the last segment has this text.
fn has_parent_text(alloc: Global, record: &Record, key: u32, text: &str) -> Result<bool, AllocError>
    ensures { IfOk result (λ has. has ≡ has_parent_text text.now (desc «record».now key)) }
{
    match record.describe(key) {
        Some(descriptor) => Ok(parent_text(alloc, descriptor)?.as_str() == text),
        None => Ok(false),
    }
}

// Whether an event starts a child that is not among the keys that finish before a position.
fn starts_child(
    alloc: Global,
    record: &Record,
    finished: &HashSet<u32>,
    before: usize,
    text: &str,
    view: &EntryView<'_>,
) -> Result<bool, AllocError>
    requires { (key : ℕ) → contains nat_eq finished.now key
        ≡ has_event Finished key (take before «record».now.entries) }
    ensures { IfOk result (λ starts.
        starts ≡ starts_child «record».now before text.now (entry_of_view view.now)) }
{
    if view.kind != Kind::Started || finished.contains(&view.key) {
        return Ok(false);
    }
    has_parent_text(alloc, record, view.key, text)
}

/// Finds the first start of a child of the descriptor whose id has this text, where the child does
/// not finish before a position.
///
/// # Errors
/// `AllocError` where a request for memory is refused.
pub(crate) fn running_child(
    alloc: Global,
    record: &Record,
    before: usize,
    text: &str,
) -> Result<Option<EventAt>, AllocError>
    ensures { IfOk result (λ found.
        found ≡ first_before before (starts_child «record».now before text.now) «record».now) }
{
    let finished = finished_before(alloc, record, before)?;
    let mut position = 0;
    'entries: for view in record.iter() {
        if position == before {
            return Ok(None);
        }
        if starts_child(alloc, record, &finished, before, text, &view)? {
            return Ok(Some(event_at(position, &view)));
        }
        position += 1;
    }
    Ok(None)
}

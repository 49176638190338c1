//! How many parts of a condition don't hold of an event.
ghost use Rattle.std.specs.Prelude.{◌≡◌, ◌<◌, ◌≤◌, ◌+◌, min, not, if◌then◌else◌, bytes_eq, count_by, length, slice_get};
ghost use Rattle.std.specs.List.{list_any};
ghost use Rattle.tk_record.specs.Entries.{of_kind, of_status, desc};
ghost use Rattle.tk_record.specs.Record.{entry_of_view};
ghost use Rattle.tk_query_conditions.specs.Cond.{All, Any, Nothing};
ghost use Rattle.tk_query_conditions.specs.CondOf.{cond_of};
ghost use Rattle.tk_query_conditions.specs.steps.Reader.{conds_from};
ghost use Rattle.tk_query.specs.Holds.{has_within, has_descriptor, message_contains};
ghost use Rattle.tk_query_nearest.specs.Nearness.{distance_of};
ghost use Rattle.tk_query_nearest.specs.Parts.{has_key, member_parts, missing, missing_parts, other_parts, path_contains, reason_contains};

use tk_events::{Kind, Outcome, Payload, Status};
use tk_ids::Text;
use tk_query::holds;
use tk_query_conditions::Condition;
use tk_record::{EntryView, Record};

/// Where the count of missing parts ends.
pub const MAX_DISTANCE: usize = 18_446_744_073_709_551_615;

fn contains(text: &str, part: &str) -> bool
    ensures { result ≡ has_within part.now text.now }
{
    text.contains(part)
}

fn message_contains(payload: &Payload, text: &Text) -> bool
    ensures { result ≡ message_contains text.now payload.now }
{
    match payload {
        Payload::Outcome(Outcome::Aborted(Some(given)) | Outcome::Failed(Some(given))) => {
            contains(given.as_str(), text.as_str())
        }
        _ => false,
    }
}

fn reason_contains(payload: &Payload, text: &Text) -> bool
    ensures { result ≡ reason_contains text.now payload.now }
{
    match payload {
        Payload::Reason(given) => contains(given.as_str(), text.as_str()),
        _ => false,
    }
}

fn path_contains(payload: &Payload, text: &Text) -> bool
    ensures { result ≡ path_contains text.now payload.now }
{
    match payload {
        Payload::Path(given) => contains(given.as_str(), text.as_str()),
        _ => false,
    }
}

fn name_contains(record: &Record, key: u32, text: &Text) -> bool
    ensures { result ≡ has_descriptor (λ d. has_within text.now d.name) (desc «record».now key) }
{
    match record.describe(key) {
        Some(descriptor) => contains(descriptor.name.as_str(), text.as_str()),
        None => false,
    }
}

fn same_key(pair: &(Text, Text), key: &Text) -> bool
    ensures { result ≡ bytes_eq pair.now.0 key.now }
{
    pair.0.as_str() == key.as_str()
}

fn is_key_of(key: &Text, pairs: &[(Text, Text)]) -> bool
    ensures { result ≡ list_any (λ pair. bytes_eq pair.0 key.now) pairs.now }
{
    pairs.iter().any(|pair| same_key(pair, key))
}

fn has_key(payload: &Payload, key: &Text) -> bool
    ensures { result ≡ has_key key.now payload.now }
{
    match payload {
        Payload::Report(given) => is_key_of(key, given.as_slice()),
        _ => false,
    }
}

fn finished_so(event: &EntryView, status: Status) -> bool
    ensures { result ≡ of_status status (entry_of_view event.now) }
{
    match (event.kind, event.payload) {
        (Kind::Finished, Payload::Outcome(outcome)) => outcome.status() == status,
        _ => false,
    }
}

/// How much is missing where this is whether a part holds.
fn lack(holds: bool) -> usize
    ensures value { result ≡ (if holds then 0 else 1) }
    ensures bound { result ≤ 1 }
{
    if holds { 0 } else { 1 }
}

fn lack_of_kind(event: &EntryView, kind: Kind) -> usize
    ensures value { result ≡ (if of_kind kind (entry_of_view event.now) then 0 else 1) }
    ensures bound { result ≤ 1 }
{
    lack(event.kind == kind)
}

/// How many parts of a finish of this status with a message don't hold, but for the member itself.
fn lack_of_finish(event: &EntryView, status: Status, text: &Text) -> usize
    ensures value { result
        ≡ (if of_kind Kind.Finished (entry_of_view event.now) then 0 else 1)
        + (if of_status status (entry_of_view event.now) then 0 else 1)
        + (if message_contains text.now event.now.payload.now then 0 else 1) }
    ensures bound { result ≤ 3 }
{
    lack_of_kind(event, Kind::Finished)
        + lack(finished_so(event, status))
        + lack(message_contains(event.payload, text))
}

/// How many of the pairs named have a key that no pair of the event has.
fn missing_keys(payload: &Payload, named: &[(Text, Text)]) -> usize
    ensures value { result ≡ count_by (λ pair. not (has_key pair.0 payload.now)) named.now }
    ensures bound { result ≤ length named.now }
{
    let mut missing = 0;
    for pair in named {
        missing += lack(has_key(payload, &pair.0));
    }
    missing
}

/// How many parts of a member don't hold, but for the last one.
fn missing_others(record: &Record, member: &Condition, event: &EntryView) -> usize
    ensures value { result
        ≡ missing_parts «record».now (other_parts (cond_of member.now))
        (entry_of_view event.now) }
    ensures bound { result < MAX_DISTANCE }
{
    match member {
        Condition::Succeeded
        | Condition::Failed(None)
        | Condition::Aborted(None)
        | Condition::Message(_) => lack_of_kind(event, Kind::Finished),
        Condition::Failed(Some(text)) => lack_of_finish(event, Status::Failed, text),
        Condition::Aborted(Some(text)) => lack_of_finish(event, Status::Aborted, text),
        Condition::Skipped(text) => {
            lack_of_kind(event, Kind::Skipped) + lack(reason_contains(event.payload, text))
        }
        Condition::File(text) => {
            lack_of_kind(event, Kind::File) + lack(path_contains(event.payload, text))
        }
        Condition::Name(text) => lack(name_contains(record, event.key, text)),
        Condition::Entry(pairs) => {
            lack_of_kind(event, Kind::Reporting) + missing_keys(event.payload, pairs.as_slice())
        }
        _ => 0,
    }
}

/// How many parts of a member don't hold. `any(..)` is counted as its own part.
fn missing_of_member(record: &Record, member: &Condition, event: &EntryView) -> usize
    ensures { result
        ≡ missing_parts «record».now (member_parts (cond_of member.now))
        (entry_of_view event.now) }
{
    // Where another part doesn't hold, the last one, the member itself, doesn't either.
    match missing_others(record, member, event) {
        0 => lack(holds(record, member, event)),
        others => others + 1,
    }
}

/// How many parts of a condition don't hold of an event of a record, counted up to `most`.
#[cycle(distances)]
fn distance_up_to(record: &Record, condition: &Condition, event: &EntryView, most: usize) -> usize
    ensures { result
        ≡ min (missing «record».now (cond_of condition.now) (entry_of_view event.now)) most }
{
    match condition {
        Condition::All(members) => distance_of_all(record, members, event, most),
        Condition::Any(members) => distance_of_any(record, members, event, most),
        _ => missing_of_member(record, condition, event).min(most),
    }
}

#[cycle(distances)]
fn distance_of_all(record: &Record, members: &[Condition], event: &EntryView, most: usize) -> usize
    ensures { result ≡ min (missing «record».now (All (conds_from Nothing members.now))
        (entry_of_view event.now)) most }
{
    let mut total = 0;
    for member in members {
        if total == most {
            return most;
        }
        total += distance_up_to(record, member, event, most - total);
    }
    total
}

#[cycle(distances)]
fn distance_of_any(record: &Record, members: &[Condition], event: &EntryView, most: usize) -> usize
    ensures { result ≡ min (missing «record».now (Any (conds_from Nothing members.now))
        (entry_of_view event.now)) most }
{
    if members.is_empty() {
        return most.min(1);
    }
    let mut fewest = most;
    for member in members {
        if fewest == 0 {
            return 0;
        }
        fewest = distance_up_to(record, member, event, fewest);
    }
    fewest
}

/// How many parts of a condition don't hold of the entry at a position, counted up to `most`; 0
/// past the last one.
pub(crate) fn distance_at(
    record: &Record,
    condition: &Condition,
    position: usize,
    most: usize,
) -> usize
    ensures { result ≡ min (distance_of «record».now (cond_of condition.now)
        (slice_get «record».now.entries position)) most }
{
    match record.entry(position) {
        Some(event) => distance_up_to(record, condition, &event, most),
        None => 0,
    }
}

//! Whether a condition holds of an event.
ghost use Rattle.std.specs.Prelude.{◌≡◌, ◌==◌, false, MatchOption, slice_get, bytes_eq};
ghost use Rattle.std.specs.List.{list_all, list_any};
ghost use Rattle.tk_ids.specs.DTypes.{is_test, is_container};
ghost use Rattle.tk_record.specs.Entries.{of_kind, of_status, desc};
ghost use Rattle.tk_record.specs.Selections.{has_type, passes};
ghost use Rattle.tk_query.specs.Holds.{holds, has_within, has_reason, has_path, has_message, has_segment, is_engine, message_contains, same_pair, all_within, reports};
ghost use Rattle.tk_query.specs.steps.Rules.{descriptor_passes, key_passes, payload_passes, rule_holds};
ghost use Rattle.tk_record.specs.Record.{entry_of_view};

use crate::rules::{DescriptorTest, PayloadTest, Rule, rule_of};
use tk_events::{Kind, Pairs, Payload, Status};
use tk_ids::{Descriptor, Text, UniqueId};
use tk_query_conditions::Condition;
use tk_record::{ColumnTest, EntryView, Record};

fn is_test(record: &Record, key: u32) -> bool
    ensures { result ≡ has_type is_test (desc «record».now key) }
{
    match record.describe(key) {
        Some(descriptor) => descriptor.dtype.is_test(),
        None => false,
    }
}

fn is_container(record: &Record, key: u32) -> bool
    ensures { result ≡ has_type is_container (desc «record».now key) }
{
    match record.describe(key) {
        Some(descriptor) => descriptor.dtype.is_container(),
        None => false,
    }
}

fn finished_so(event: &EntryView, status: Status) -> bool
    ensures { result ≡ of_status status (entry_of_view event.now) }
{
    match (event.kind, event.payload) {
        (Kind::Finished, Payload::Outcome(outcome)) => outcome.status() == status,
        _ => false,
    }
}

/// Whether an event passes a test of a column.
fn passes(record: &Record, test: ColumnTest, event: &EntryView) -> bool
    ensures { result ≡ passes test «record».now (entry_of_view event.now) }
{
    match test {
        ColumnTest::Every => true,
        ColumnTest::Test => is_test(record, event.key),
        ColumnTest::Container => is_container(record, event.key),
        ColumnTest::OfKind(kind) => event.kind == kind,
        ColumnTest::OfStatus(status) => finished_so(event, status),
        ColumnTest::OfWorker(worker) => event.worker == worker,
        ColumnTest::OfKey(key) => event.key == key,
    }
}

fn is_engine(descriptor: &Descriptor) -> bool
    ensures { result ≡ is_engine descriptor.now.id }
{
    descriptor.id.is_engine()
}

fn has_within(text: &str, part: &str) -> bool
    ensures { result ≡ has_within part.now text.now }
{
    text.contains(part)
}

fn same(text: &Text, other: &Text) -> bool
    ensures { result ≡ bytes_eq text.now other.now }
{
    text.as_str() == other.as_str()
}

fn has_segment(id: &UniqueId, tag: &Text, value: &Text) -> bool
    ensures { result ≡ has_segment tag.now value.now id.now }
{
    for segment in id.segments().iter() {
        if segment.tag() == tag.as_str() && segment.value() == value.as_str() {
            return true;
        }
    }
    false
}

fn descriptor_passes(test: DescriptorTest, descriptor: &Descriptor) -> bool
    ensures { result ≡ descriptor_passes test.entry descriptor.now }
{
    match test {
        DescriptorTest::Engine => is_engine(descriptor),
        DescriptorTest::Id(text) => has_within(descriptor.id.as_text().as_str(), text.as_str()),
        DescriptorTest::Segment(tag, value) => has_segment(&descriptor.id, tag, value),
        DescriptorTest::Name(name) => same(&descriptor.name, name),
    }
}

/// Whether the descriptor of a key passes a test.
pub(crate) fn key_passes(record: &Record, test: DescriptorTest, key: u32) -> bool
    ensures { result ≡ key_passes test.entry «record».now key }
{
    match record.describe(key) {
        Some(descriptor) => descriptor_passes(test, descriptor),
        None => false,
    }
}

fn has_reason(payload: &Payload, text: &Text) -> bool
    ensures { result ≡ has_reason text.now payload.now }
{
    match payload {
        Payload::Reason(given) => same(given, text),
        _ => false,
    }
}

fn has_path(payload: &Payload, text: &Text) -> bool
    ensures { result ≡ has_path text.now payload.now }
{
    match payload {
        Payload::Path(given) => same(given, text),
        _ => false,
    }
}

fn has_message(payload: &Payload, text: &Text) -> bool
    ensures { result ≡ has_message text.now payload.now }
{
    match payload {
        Payload::Outcome(outcome) => match outcome.message() {
            Some(given) => same(given, text),
            None => false,
        },
        _ => false,
    }
}

fn message_contains(payload: &Payload, text: &Text) -> bool
    ensures { result ≡ message_contains text.now payload.now }
{
    match payload {
        Payload::Outcome(outcome) => match outcome.message() {
            Some(given) => has_within(given.as_str(), text.as_str()),
            None => false,
        },
        _ => false,
    }
}

fn same_pair(pair: &(Text, Text), other: &(Text, Text)) -> bool
    ensures { result ≡ same_pair pair.now other.now }
{
    same(&pair.0, &other.0) && same(&pair.1, &other.1)
}

fn is_one_of(pair: &(Text, Text), others: &[(Text, Text)]) -> bool
    ensures { result ≡ list_any (same_pair pair.now) others.now }
{
    others.iter().any(|other| same_pair(pair, other))
}

/// Whether each of the first pairs is one of the second.
fn all_within(pairs: &[(Text, Text)], others: &[(Text, Text)]) -> bool
    ensures { result ≡ all_within pairs.now others.now }
{
    pairs.iter().all(|pair| is_one_of(pair, others))
}

fn reports(payload: &Payload, named: &Pairs) -> bool
    ensures { result ≡ reports named.now payload.now }
{
    match payload {
        Payload::Report(given) => {
            all_within(named.as_slice(), given.as_slice())
                && all_within(given.as_slice(), named.as_slice())
        }
        _ => false,
    }
}

pub(crate) fn payload_passes(test: PayloadTest, payload: &Payload) -> bool
    ensures { result ≡ payload_passes test.entry payload.now }
{
    match test {
        PayloadTest::Reason(text) => has_reason(payload, text),
        PayloadTest::Message(text) => has_message(payload, text),
        PayloadTest::MessageContains(text) => message_contains(payload, text),
        PayloadTest::Path(text) => has_path(payload, text),
        PayloadTest::Report(pairs) => reports(payload, pairs),
    }
}

/// Whether a rule accepts an event. `Rule::Members` accepts none.
pub(crate) fn rule_holds(record: &Record, rule: Rule, event: &EntryView) -> bool
    ensures { result ≡ rule_holds rule.entry «record».now (entry_of_view event.now) }
{
    match rule {
        Rule::Column(test) => passes(record, test, event),
        Rule::Payload(test, payload_test) => {
            passes(record, test, event) && payload_passes(payload_test, event.payload)
        }
        Rule::Descriptor(test) => key_passes(record, test, event.key),
        Rule::Members => false,
    }
}

/// Whether a condition holds of an event of a record.
#[cycle(holds)]
pub fn holds(record: &Record, condition: &Condition, event: &EntryView) -> bool
    ensures { result ≡ holds «record».now condition.now (entry_of_view event.now) }
{
    match condition {
        Condition::All(members) => all_hold(record, members, event),
        Condition::Any(members) => any_holds(record, members, event),
        Condition::Not(member) => !holds(record, member, event),
        _ => rule_holds(record, rule_of(condition), event),
    }
}

#[cycle(holds)]
fn all_hold(record: &Record, members: &[Condition], event: &EntryView) -> bool
    ensures { result ≡ list_all (λ member.
        holds «record».now member (entry_of_view event.now)) members.now }
{
    for member in members {
        if !holds(record, member, event) {
            return false;
        }
    }
    true
}

#[cycle(holds)]
fn any_holds(record: &Record, members: &[Condition], event: &EntryView) -> bool
    ensures { result ≡ list_any (λ member.
        holds «record».now member (entry_of_view event.now)) members.now }
{
    for member in members {
        if holds(record, member, event) {
            return true;
        }
    }
    false
}

/// Whether a condition holds of the entry at a position. Past the last one it holds of none.
pub fn holds_at(record: &Record, condition: &Condition, position: usize) -> bool
    ensures { MatchOption (slice_get «record».now.entries position) (result ≡ false) (λ e.
        result ≡ holds «record».now condition.now e) }
{
    match record.entry(position) {
        Some(event) => holds(record, condition, &event),
        None => false,
    }
}

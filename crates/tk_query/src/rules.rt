//! By what each condition is judged.
ghost use Rattle.std.specs.Prelude.{◌≡◌, IfSome};
ghost use Rattle.tk_record.specs.Recorded.{Recorded};
ghost use Rattle.tk_query.specs.steps.Rules.{AcceptsWithin, AllHoldWithin, HoldsWithin, IsRuleOf};

use crate::rules::PayloadTest::{Message, MessageContains, Path, Reason, Report};
use tk_events::{Kind, Pairs, Status};
use tk_ids::Text;
use tk_query_conditions::Condition;
use tk_record::ColumnTest;
use tk_record::ColumnTest::{OfKind, OfStatus};

/// What a condition asks of the payload of an event.
#[derive(Clone, Copy)]
pub(crate) enum PayloadTest<'c> {
    /// It is this reason.
    Reason(&'c Text),
    /// It is an outcome with this message.
    Message(&'c Text),
    /// It is an outcome with a message that contains this text.
    MessageContains(&'c Text),
    /// It is this path.
    Path(&'c Text),
    /// It has these pairs and no others.
    Report(&'c Pairs),
}

/// What a condition asks of the descriptor of an event.
#[derive(Clone, Copy)]
pub(crate) enum DescriptorTest<'c> {
    /// Its id is one segment with the tag `engine`.
    Engine,
    /// The text of its id contains this one.
    Id(&'c Text),
    /// One of the segments of its id has this tag and this value.
    Segment(&'c Text, &'c Text),
    /// It has this display name.
    Name(&'c Text),
}

/// By what a condition is judged.
#[derive(Clone, Copy)]
pub(crate) enum Rule<'c> {
    /// By one column of the record alone.
    Column(ColumnTest),
    /// By the payload, of the events that pass the test of a column.
    Payload(ColumnTest, PayloadTest<'c>),
    /// By the descriptor of the event's key alone.
    Descriptor(DescriptorTest<'c>),
    /// By its members.
    Members,
}

/// Says by what a condition is judged.
pub(crate) fn rule_of(condition: &Condition) -> Rule<'_>
    ensures { IsRuleOf condition.now result }
{
    match condition {
        Condition::Test => Rule::Column(ColumnTest::Test),
        Condition::Container => Rule::Column(ColumnTest::Container),
        Condition::Engine => Rule::Descriptor(DescriptorTest::Engine),
        Condition::Id(text) => Rule::Descriptor(DescriptorTest::Id(text)),
        Condition::Segment(tag, value) => Rule::Descriptor(DescriptorTest::Segment(tag, value)),
        Condition::Name(name) => Rule::Descriptor(DescriptorTest::Name(name)),
        Condition::Kind(kind) => Rule::Column(OfKind(*kind)),
        Condition::Skipped(text) => Rule::Payload(OfKind(Kind::Skipped), Reason(text)),
        Condition::Started => Rule::Column(OfKind(Kind::Started)),
        Condition::Succeeded => Rule::Column(OfStatus(Status::Successful)),
        Condition::Failed(None) => Rule::Column(OfStatus(Status::Failed)),
        Condition::Failed(Some(text)) => Rule::Payload(OfStatus(Status::Failed), Message(text)),
        Condition::Aborted(None) => Rule::Column(OfStatus(Status::Aborted)),
        Condition::Aborted(Some(text)) => Rule::Payload(OfStatus(Status::Aborted), Message(text)),
        Condition::Message(text) => Rule::Payload(OfKind(Kind::Finished), MessageContains(text)),
        Condition::File(text) => Rule::Payload(OfKind(Kind::File), Path(text)),
        Condition::Entry(pairs) => Rule::Payload(OfKind(Kind::Reporting), Report(pairs)),
        Condition::All(_) | Condition::Any(_) | Condition::Not(_) => Rule::Members,
    }
}

/// The test, where it is one of kinds or statuses.
fn of_event(test: ColumnTest) -> Option<ColumnTest>
    ensures { IfSome result (λ same. same ≡ test) }
{
    match test {
        OfKind(_) | OfStatus(_) => Some(test),
        _ => None,
    }
}

/// Finds the test of kinds or statuses that each event passes which the rule accepts, where there
/// is one.
fn test_of_rule(rule: Rule) -> Option<ColumnTest>
    ensures { IfSome result (λ test. (r : Recorded) → AcceptsWithin test r rule.entry) }
{
    match rule {
        Rule::Column(test) => of_event(test),
        Rule::Payload(test, _) => Some(test),
        Rule::Descriptor(_) | Rule::Members => None,
    }
}

/// Finds the test of kinds or statuses that each event passes of which the condition holds, where
/// the condition or a member of its `all` names one.
#[cycle(column_tests)]
pub(crate) fn column_test_of(condition: &Condition) -> Option<ColumnTest>
    ensures { IfSome result (λ test. (r : Recorded) → HoldsWithin test r condition.now) }
{
    match condition {
        Condition::All(members) => column_test_of_all(members),
        Condition::Any(_) | Condition::Not(_) => None,
        _ => test_of_rule(rule_of(condition)),
    }
}

/// Finds the first test of kinds or statuses that a member implies.
#[cycle(column_tests)]
fn column_test_of_all(members: &[Condition]) -> Option<ColumnTest>
    ensures { IfSome result (λ test. (r : Recorded) → AllHoldWithin test r members.now) }
{
    for member in members {
        if let Some(test) = column_test_of(member) {
            return Some(test);
        }
    }
    None
}

//! Selecting events by a condition.
ghost use Rattle.std.specs.Prelude.{◌≡◌, None, if◌then◌else◌, map, get_or, slice_get, IfOk, OnOk, false, MatchOption};
ghost use Rattle.std.specs.List.{list_all, list_any};
ghost use Rattle.tk_record.specs.Selections.{filtered_by, passes};
ghost use Rattle.tk_query.specs.declared.rules.Rule.{Rule};
ghost use Rattle.tk_query.specs.Holds.{holds};
ghost use Rattle.tk_query.specs.steps.Rules.{key_passes, rule_holds, AreAnswers};

use crate::judging::{key_passes, payload_passes};
use crate::rules::{DescriptorTest, PayloadTest, Rule, rule_of};
use std::alloc::{AllocError, Global};
use tk_lanes::Flags;
use tk_query_conditions::Condition;
use tk_record::{ColumnTest, Events, Record};

fn byte_of(flag: bool) -> u8
    ensures { result ≡ (if flag then 1 else 0) }
{
    u8::from(flag)
}

/// The answer of a key, where it was asked before.
fn answer_before(answers: &[Option<bool>], index: usize) -> Option<bool>
    ensures { result ≡ get_or answers.now index None }
{
    if index < answers.len() {
        answers[index]
    } else {
        None
    }
}

/// Whether the descriptor of a key passes a test, asked once for each key. `answers` has, under
/// each key that was asked before, its answer.
fn answer_by_key(
    answers: &mut Vec<Option<bool>>,
    record: &Record,
    test: DescriptorTest,
    key: u32,
) -> Result<bool, AllocError>
    requires { AreAnswers «record».now test answers.old.items }
    ensures answer { IfOk result (λ answer. answer ≡ key_passes test.entry «record».now key) }
    ensures answers { OnOk result (AreAnswers «record».now test.entry answers.new.items) }
{
    let index = key as usize;
    if let Some(answer) = answer_before(answers, index) {
        return Ok(answer);
    }
    let answer = key_passes(record, test, key);
    while answers.len() <= index {
        answers.push(None)?;
    }
    answers[index] = Some(answer);
    Ok(answer)
}

/// For each entry whether the descriptor of its key passes a test.
fn key_mask(alloc: Global, record: &Record, test: DescriptorTest) -> Result<Flags, AllocError>
    ensures { IfOk result (λ flags.
        flags ≡ map (λ e.
        key_passes test.entry «record».now e.event.key) «record».now.entries) }
{
    let keys = record.keys();
    let mut answers = Vec::new(alloc);
    let mut column = Vec::with_capacity(alloc, record.len())?;
    for key in keys {
        let answer = answer_by_key(&mut answers, record, test, *key)?;
        column.push(byte_of(answer))?;
    }
    Flags::of_byte(alloc, &column, 1)
}

/// Whether the rule accepts the entry at a position, asked only where that passes the test of the
/// column.
fn answer_among(
    candidates: &Flags,
    record: &Record,
    test: ColumnTest,
    payload_test: PayloadTest,
    position: usize,
) -> bool
    requires { candidates.now ≡ map (passes test «record».now) «record».now.entries }
    ensures { MatchOption (slice_get «record».now.entries position) (result ≡ false) (λ e.
        result ≡ rule_holds (Rule.Payload test payload_test.entry) «record».now e) }
{
    if !candidates.is_set(position) {
        return false;
    }
    match record.entry(position) {
        Some(event) => payload_passes(payload_test, event.payload),
        None => false,
    }
}

/// For each entry whether it passes the test of a column and its payload another one.
fn payload_mask(
    alloc: Global,
    record: &Record,
    test: ColumnTest,
    payload_test: PayloadTest,
) -> Result<Flags, AllocError>
    ensures { IfOk result (λ flags. flags
        ≡ map (rule_holds (Rule.Payload test payload_test.entry) «record».now)
        «record».now.entries) }
{
    let candidates = record.flags(alloc, test)?;
    let mut column = Vec::with_capacity(alloc, record.len())?;
    for position in 0..record.len() {
        let answer = answer_among(&candidates, record, test, payload_test, position);
        column.push(byte_of(answer))?;
    }
    Flags::of_byte(alloc, &column, 1)
}

/// For each entry whether a rule accepts it. `Rule::Members` accepts none.
fn rule_mask(alloc: Global, record: &Record, rule: Rule) -> Result<Flags, AllocError>
    ensures { IfOk result (λ flags.
        flags ≡ map (rule_holds rule.entry «record».now) «record».now.entries) }
{
    match rule {
        Rule::Column(test) => record.flags(alloc, test),
        Rule::Payload(test, payload_test) => payload_mask(alloc, record, test, payload_test),
        Rule::Descriptor(test) => key_mask(alloc, record, test),
        Rule::Members => Flags::none(alloc, record.len()),
    }
}

/// For each entry, whether the condition holds of it.
#[cycle(masks)]
pub(crate) fn mask(
    alloc: Global,
    record: &Record,
    condition: &Condition,
) -> Result<Flags, AllocError>
    ensures { IfOk result (λ flags.
        flags ≡ map (holds «record».now condition.now) «record».now.entries) }
{
    match condition {
        Condition::All(members) => all_mask(alloc, record, members),
        Condition::Any(members) => any_mask(alloc, record, members),
        Condition::Not(member) => {
            let mut flags = mask(alloc, record, member)?;
            flags.invert();
            Ok(flags)
        }
        _ => rule_mask(alloc, record, rule_of(condition)),
    }
}

#[cycle(masks)]
fn all_mask(alloc: Global, record: &Record, members: &[Condition]) -> Result<Flags, AllocError>
    ensures { IfOk result (λ flags. flags ≡ map (λ e.
        list_all (λ member. holds «record».now member e) members.now) «record».now.entries) }
{
    let mut flags = Flags::all(alloc, record.len())?;
    for member in members {
        flags.and(&mask(alloc, record, member)?);
    }
    Ok(flags)
}

#[cycle(masks)]
fn any_mask(alloc: Global, record: &Record, members: &[Condition]) -> Result<Flags, AllocError>
    ensures { IfOk result (λ flags. flags ≡ map (λ e.
        list_any (λ member. holds «record».now member e) members.now) «record».now.entries) }
{
    let mut flags = Flags::none(alloc, record.len())?;
    for member in members {
        flags.or(&mask(alloc, record, member)?);
    }
    Ok(flags)
}

/// Keeps the events of which the condition holds.
///
/// # Errors
/// `AllocError` where a request for memory is refused.
pub fn select<'r>(
    alloc: Global,
    events: &Events<'r>,
    condition: &Condition,
) -> Result<Events<'r>, AllocError>
    ensures { IfOk result (λ kept.
        kept ≡ filtered_by (holds events.now.recorded condition.now) events.now) }
{
    let record = events.record();
    prove!(events.flags().len() == record.len());
    let flags = mask(alloc, record, condition)?;
    Ok(events.intersect(flags))
}

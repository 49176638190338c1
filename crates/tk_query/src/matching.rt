//! Matching events with conditions.
ghost use Rattle.std.specs.Prelude.{◌<◌, ◌^◌, IfOk, IsOk, OnOk, IfSome, MatchOption};
ghost use Rattle.tk_query.specs.Asked.{fits, IsFirstFit};
ghost use Rattle.tk_query.specs.steps.Rules.{AreLeft};
ghost use Rattle.tk_query.specs.InOrder.{IsNextFit, HasNoFit};
ghost use Rattle.tk_query.specs.Matches.{IsExact, IsLoose, IsInOrder};

use crate::answers::{Exact, InOrder, Loose};
use crate::judging::holds_at;
use crate::masks::mask;
use crate::rules::column_test_of;
use std::alloc::{AllocError, Global};
use tk_lanes::Flags;
use tk_query_conditions::Condition;
use tk_record::Events;

/// The first position not below `from` of one of the candidates of which the condition holds, where
/// it holds of no other event.
fn next_fit(
    events: &Events,
    candidates: &Flags,
    condition: &Condition,
    from: usize,
) -> Option<usize>
    requires { AreLeft events.now condition.now candidates.now }
    ensures within { IfSome result (λ position. position < 2 ^ 32) }
    ensures fit { MatchOption result (HasNoFit (fits events.now) condition.now from)
        (λ position. IsNextFit (fits events.now) condition.now from position) }
{
    let mut low = from;
    'candidates: while let Some(position) = candidates.first_from(low) {
        if holds_at(events.record(), condition, position) {
            return Some(position);
        }
        low = position + 1;
    }
    None
}

/// Finds the first of the events, from a position on, of which the condition holds.
pub fn find(events: &Events, condition: &Condition, from: usize) -> Option<usize>
    ensures { MatchOption result (HasNoFit (fits events.now) condition.now from)
        (IsNextFit (fits events.now) condition.now from) }
{
    next_fit(events, events.flags(), condition, from)
}

/// Whether each event has a condition, which holds of it. JUnit: `assertEventsMatchExactly`.
///
/// # Errors
/// None: it asks for no memory. It answers a `Result` as the other matchers do.
pub fn match_exactly(
    _alloc: Global,
    events: &Events,
    conditions: &[Condition],
) -> Result<Exact, AllocError>
    ensures answer { IfOk result (λ answer. IsExact events.now conditions.now answer) }
    ensures succeeds { IsOk result }
{
    if events.count() != conditions.len() {
        return Ok(Exact::WrongCount);
    }
    let flags = events.flags();
    let mut low = 0;
    let mut k = 0;
    'events: while let Some(position) = flags.first_from(low) {
        if !holds_at(events.record(), &conditions[k], position) {
            return Ok(Exact::No(k));
        }
        low = position + 1;
        k += 1;
    }
    Ok(Exact::Yes)
}

/// How many events are asked one by one before a mask of the whole record is made: a condition that
/// holds early is found sooner so.
const TRIED_FIRST: usize = 1_000;

/// The first position at which the condition holds, where the first events show whether it does.
fn try_first(events: &Events, condition: &Condition) -> Option<Option<usize>>
    ensures { IfSome result (IsFirstFit events.now condition.now) }
{
    let mut low = 0;
    for _ in 0..TRIED_FIRST {
        let Some(position) = events.flags().first_from(low) else {
            return Some(None);
        };
        if holds_at(events.record(), condition, position) {
            return Some(Some(position));
        }
        low = position + 1;
    }
    None
}

/// How many candidates are asked one by one.
const MAX_CANDIDATES: usize = 10_000;

/// The first position at which the condition holds, where it implies a test of a column that few
/// events pass.
fn try_column_test(
    alloc: Global,
    events: &Events,
    condition: &Condition,
) -> Result<Option<Option<usize>>, AllocError>
    ensures { IfOk result (λ found. IfSome found (IsFirstFit events.now condition.now)) }
{
    let Some(column_test) = column_test_of(condition) else {
        return Ok(None);
    };
    let record = events.record();
    prove!(events.flags().len() == record.len());
    let mut candidates = record.flags(alloc, column_test)?;
    candidates.and(events.flags());
    if MAX_CANDIDATES < candidates.count() {
        return Ok(None);
    }
    Ok(Some(next_fit(events, &candidates, condition, 0)))
}

/// The first position at which the condition holds, by its mask.
fn first_by_mask(
    alloc: Global,
    events: &Events,
    condition: &Condition,
) -> Result<Option<usize>, AllocError>
    ensures { IfOk result (IsFirstFit events.now condition.now) }
{
    let record = events.record();
    prove!(events.flags().len() == record.len());
    let mut flags = mask(alloc, record, condition)?;
    flags.and(events.flags());
    Ok(flags.first_from(0))
}

/// Finds the position of the first event of which the condition holds.
///
/// # Errors
/// `AllocError` where a request for memory is refused.
pub fn first_fit(
    alloc: Global,
    events: &Events,
    condition: &Condition,
) -> Result<Option<usize>, AllocError>
    ensures { IfOk result (IsFirstFit events.now condition.now) }
{
    if let Some(found) = try_first(events, condition) {
        return Ok(found);
    }
    if let Some(found) = try_column_test(alloc, events, condition)? {
        return Ok(found);
    }
    first_by_mask(alloc, events, condition)
}

/// Whether each condition holds of some event, maybe the same. JUnit: `assertEventsMatchLoosely`.
///
/// # Errors
/// `AllocError` where a request for memory is refused.
pub fn match_loosely(
    alloc: Global,
    events: &Events,
    conditions: &[Condition],
) -> Result<Loose, AllocError>
    ensures { IfOk result (λ answer. IsLoose events.now conditions.now answer) }
{
    for (k, condition) in conditions.iter().enumerate() {
        if first_fit(alloc, events, condition)?.is_none() {
            return Ok(Loose::No(k));
        }
    }
    Ok(Loose::Yes)
}

/// Whether the conditions hold in turn, each at a later event than the one before it.
///
/// JUnit: `assertEventsMatchLooselyInOrder`.
///
/// # Errors
/// `AllocError` where a request for memory is refused.
pub fn match_in_order(
    alloc: Global,
    events: &Events,
    conditions: &[Condition],
) -> Result<InOrder, AllocError>
    ensures { IfOk result (λ answer. IsInOrder events.now conditions.now answer) }
{
    let mut positions = Vec::new(alloc);
    let mut next = 0;
    for (k, condition) in conditions.iter().enumerate() {
        let Some(position) = next_fit(events, events.flags(), condition, next) else {
            return Ok(InOrder::No(k));
        };
        positions.push(position)?;
        next = position + 1;
    }
    Ok(InOrder::Yes(positions))
}

//! Records of many entries, and matches of many conditions.
use std::alloc::{AllocError, Global};
use test_support::starts;
use tk_query::{Exact, InOrder, Loose, match_exactly, match_in_order, match_loosely, select};
use tk_query_conditions::Condition;
use tk_record::{Events, Record};

fn is_of_length(events: Result<Events<'_>, AllocError>, count: usize) -> bool {
    match events {
        Ok(events) => events.count() == count,
        Err(_) => false,
    }
}

// Whether all of the events are of worker 0 and key 0, and are starts.
fn are_starts(alloc: Global, events: &Events<'_>) -> bool {
    let count = events.count();
    is_of_length(events.by_worker(alloc, 0), count)
        && is_of_length(events.by_worker(alloc, 15), 0)
        && is_of_length(events.by_key(alloc, 0), count)
        && is_of_length(select(alloc, events, &Condition::Started), count)
}

// Whether a record of starts has `count` of them.
fn has_starts(alloc: Global, record: &Record, count: usize) -> bool {
    match Events::all(alloc, record) {
        Ok(events) => events.count() == count && are_starts(alloc, &events),
        Err(_) => false,
    }
}

/// More than 2^21 entries are appended and asked for.
#[test]
fn two_million_starts(rt: HostRuntime) {
    let hold = match starts(rt.alloc(), 2_200_000) {
        Some(record) => has_starts(rt.alloc(), &record, 2_200_000),
        None => false,
    };
    assert!(rt; hold);
}

// Conditions of this number, each of which holds of a start.
fn conditions(alloc: Global, count: usize) -> Result<Vec<Condition>, AllocError> {
    let mut list = Vec::new(alloc);
    for _ in 0..count {
        list.push(Condition::Started)?;
    }
    Ok(list)
}

// Whether there are `count` positions, from the first to the last of as many.
fn are_first_positions(positions: &[usize], count: usize) -> bool {
    positions.len() == count
        && positions.first().copied() == Some(0)
        && positions.last().copied() == count.checked_sub(1)
}

// Whether the events are the first ones of their record, as many as that.
fn are_first_events(alloc: Global, events: &Events<'_>, count: usize) -> bool {
    matches!(events.positions(alloc), Ok(at) if are_first_positions(at.as_slice(), count))
}

// Whether conditions match in order at the first positions, one at each.
fn match_first(in_order: Result<InOrder, AllocError>, count: usize) -> bool {
    matches!(in_order, Ok(InOrder::Yes(at)) if are_first_positions(at.as_slice(), count))
}

// Whether as many conditions as there are starts hold of them, one of each.
fn match_each(alloc: Global, events: &Events<'_>, list: &[Condition]) -> bool {
    are_first_events(alloc, events, list.len())
        && match_exactly(alloc, events, list) == Ok(Exact::Yes)
        && match_loosely(alloc, events, list) == Ok(Loose::Yes)
        && match_first(match_in_order(alloc, events, list), list.len())
}

// Whether the starts of a record match as many conditions.
fn are_matched(alloc: Global, record: &Record, list: &[Condition]) -> bool {
    match Events::all(alloc, record) {
        Ok(events) => match_each(alloc, &events, list),
        Err(_) => false,
    }
}

#[test]
fn many_conditions(rt: HostRuntime) -> Result<(), AllocError> {
    let list = conditions(rt.alloc(), 65_536)?;
    let hold = match starts(rt.alloc(), 65_536) {
        Some(record) => are_matched(rt.alloc(), &record, list.as_slice()),
        None => false,
    };
    assert!(rt; hold);
    Ok(())
}

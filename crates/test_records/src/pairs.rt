//! Pairs that clones share, and a push to one of the clones.
use std::alloc::{AllocError, Global};
use tk_events::Pairs;
use tk_ids::Text;

/// A list of one pair that its clones share.
pub(crate) fn one_pair(alloc: Global) -> Result<Pairs, AllocError> {
    Pairs::shared_pair(alloc, Text::copy(alloc, "k")?, Text::copy(alloc, "v")?)
}

fn push_pair(alloc: Global, list: &mut Pairs) -> Result<(), AllocError> {
    list.push(Text::copy(alloc, "b")?, Text::copy(alloc, "2")?)
}

// How many pairs the clone of a list has once a pair was pushed to it.
fn length_after_a_push(alloc: Global, list: &Pairs) -> Result<usize, AllocError> {
    let mut clone = list.try_clone(alloc)?;
    push_pair(alloc, &mut clone)?;
    Ok(clone.len())
}

fn after_one_pair(alloc: Global) -> Result<usize, AllocError> {
    length_after_a_push(alloc, &one_pair(alloc)?)
}

fn after_no_pair(alloc: Global) -> Result<usize, AllocError> {
    length_after_a_push(alloc, &Pairs::new(alloc).shared(alloc)?)
}

#[test]
fn a_push_to_a_clone(rt: HostRuntime) {
    assert!(rt; after_one_pair(rt.alloc()) == Ok(2));
    assert!(rt; after_no_pair(rt.alloc()) == Ok(1));
}

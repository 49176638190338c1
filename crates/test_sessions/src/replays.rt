//! The queue's core by hand, and replays of scripts by turns.
use crate::ends::{TakenItem, plain, taken};
use std::alloc::Global;
use test_support::{
    OneByteSource, OneByteTarget, one_node, small_replay, small_replay_taken, start,
};
use tk_events::{Event, Kind};
use tk_ids::DType;
use tk_queue_replay::{ReplayFault, Replayed, Turn, replay, replay_text};
use tk_queue_session::{Core, CoreFault};
use tk_streams::{ByteTarget, Source, Target};

// The fault, and the stamp of the event that came back.
fn refused(answer: &Result<(), (CoreFault, Event)>) -> Option<(CoreFault, u64)> {
    match answer {
        Ok(()) => None,
        Err((fault, event)) => Some((*fault, event.stamp)),
    }
}

/// Emits a start, and returns why it was refused and the stamp of the event that came back.
pub fn emit(core: &mut Core, worker: u8, stamp: u64) -> Option<(CoreFault, u64)> {
    let answer = core.emit(worker, start(0, stamp));
    let refused = refused(&answer);
    drop(answer);
    refused
}

/// Returns whether this is taken next.
pub fn takes(core: &mut Core, want: TakenItem) -> bool {
    let item = core.take();
    let is_right = taken(&item) == want;
    drop(item);
    is_right
}

#[test]
fn core_turns(rt: HostRuntime) {
    let mut core = Core::new(rt.alloc(), 2);
    assert!(rt; emit(&mut core, 1, 7).is_none() && core.end(1).is_ok());
    assert!(rt; emit(&mut core, 1, 8) == Some((CoreFault::AfterEnd, 8)));
    assert!(rt; emit(&mut core, 3, 9) == Some((CoreFault::Worker, 9)));
    let are_taken = takes(&mut core, TakenItem::Entry(1, Kind::Started, 0, 7))
        && takes(&mut core, TakenItem::End(1))
        && takes(&mut core, TakenItem::Nothing);
    assert!(rt; are_taken);
}

// A script of starts with these stamps.
fn script(alloc: Global, stamps: &[u64]) -> Option<Vec<Event>> {
    let mut events = Vec::new(alloc);
    for stamp in stamps {
        events.push(start(0, *stamp)).ok()?;
    }
    Some(events)
}

fn scripts(alloc: Global) -> Option<Vec<Vec<Event>>> {
    let mut scripts = Vec::new(alloc);
    scripts.push(script(alloc, &[10, 11])?).ok()?;
    scripts.push(script(alloc, &[20])?).ok()?;
    Some(scripts)
}

// Whether nothing was taken, and the starts and the mark of worker 1 wait.
fn are_left(replayed: &Replayed) -> bool {
    let waiting = replayed.waiting.as_slice();
    replayed.taken.len() == 0
        && replayed.emitted.as_slice() == [2, 0].as_slice()
        && waiting.len() == 3
        && plain(&waiting[0]) == TakenItem::Entry(1, Kind::Started, 0, 10)
        && plain(&waiting[1]) == TakenItem::Entry(1, Kind::Started, 0, 11)
        && plain(&waiting[2]) == TakenItem::End(1)
}

// Whether that is so where worker 1 emits twice and ends, and nothing is taken from then on.
fn is_left(alloc: Global, scripts: &[Vec<Event>]) -> Option<bool> {
    if scripts.len() != 2 {
        return None;
    }
    let table = one_node(alloc, DType::Test)?;
    let one = Turn::Worker(1);
    let replayed = replay(alloc, table, scripts, &[Turn::Take, one, one, one]);
    let are_left = match &replayed {
        Ok(replayed) => are_left(replayed),
        Err(_) => false,
    };
    drop(replayed);
    Some(are_left)
}

fn are_left_waiting(alloc: Global) -> Option<bool> {
    let scripts = scripts(alloc)?;
    is_left(alloc, scripts.as_slice())
}

#[test]
fn left_waiting(rt: HostRuntime) {
    assert!(rt; are_left_waiting(rt.alloc()) == Some(true));
}

// Whether the answer is that a device broke.
fn is_device(answer: &Result<(), ReplayFault>) -> bool {
    matches!(answer, Err(ReplayFault::Device))
}

// Whether a replay answers that a device broke.
fn meets_device<S: Source, T: Target>(alloc: Global, source: &mut S, target: &mut T) -> bool {
    let answer = replay_text(alloc, source, target);
    let is_device = is_device(&answer);
    drop(answer);
    is_device
}

// Whether a replay of a source that breaks at a call answers so, and writes nothing.
fn reading_breaks(alloc: Global, breaks_at: usize) -> bool {
    let mut source = OneByteSource::new(small_replay(), breaks_at);
    let mut target = ByteTarget::new(alloc);
    meets_device(alloc, &mut source, &mut target) && target.bytes().is_empty()
}

// Whether a replay to a target that breaks at a call answers so, and `breaks_at` bytes went out before.
fn writing_breaks(alloc: Global, breaks_at: usize) -> bool {
    let mut source = OneByteSource::new(small_replay(), 1_000);
    let mut target = OneByteTarget::new(alloc, breaks_at);
    let meets_device = meets_device(alloc, &mut source, &mut target);
    let taken = target.taken();
    meets_device && taken.len() == breaks_at && small_replay_taken().starts_with(taken)
}

#[test]
fn devices_break_at_each_call(rt: HostRuntime) {
    for call in 0..=small_replay().len() {
        assert!(rt; reading_breaks(rt.alloc(), call), "{call}");
    }
    for call in 0..small_replay_taken().len() {
        assert!(rt; writing_breaks(rt.alloc(), call), "{call}");
    }
}

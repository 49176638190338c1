//! What is answered where memory is refused. A call that answers so is made once more, and then it
//! has to succeed: each test passes with ample memory, and with any one request for memory refused.
use crate::books::{are_granted, four_share};
use crate::claims::drawn_by_two;
use crate::ends::{TakenItem, register, take, two_senders};
use crate::replays::{emit, takes};
use std::alloc::Global;
use std::sync::Wait;
use std::test::*;
use test_support::{
    Ending, again_if_refused, done_if, is_done, refused_if, small_replay, small_replay_taken,
};
use tk_events::Kind;
use tk_ids::Segment;
use tk_queue_replay::{ReplayFault, replay_text};
use tk_queue_session::{Core, CoreFault, Receiver, RegisterFault, Sender};
use tk_streams::{ByteSource, ByteTarget, Target};

// A refused growth of the target breaks it, and what it took is a prefix of the record.
fn ending_of(answer: &Result<(), ReplayFault>, target: &ByteTarget) -> Ending {
    let is_broken = target.is_broken();
    let is_prefix = small_replay_taken().starts_with(target.bytes());
    match answer {
        Ok(()) => done_if(target.bytes() == small_replay_taken()),
        Err(ReplayFault::Memory) => refused_if(is_prefix && !is_broken),
        Err(ReplayFault::Device) => refused_if(is_prefix && is_broken),
        Err(_) => Ending::Wrong,
    }
}

fn replayed(alloc: Global) -> Ending {
    let mut source = ByteSource::new(small_replay());
    let mut target = ByteTarget::new(alloc);
    let answer = replay_text(alloc, &mut source, &mut target);
    let ending = ending_of(&answer, &target);
    drop(answer);
    ending
}

#[test]
fn a_replay(rt: HostRuntime) {
    assert!(rt; is_done(|| replayed(rt.alloc())));
}

// Where memory is refused, the event comes back.
fn emitted(core: &mut Core, stamp: u64) -> Ending {
    match emit(core, 1, stamp) {
        None => Ending::Done,
        Some(refused) => refused_if(refused == (CoreFault::Memory, stamp)),
    }
}

// Whether a thousand starts are emitted, each at once or where it is emitted once more.
fn are_emitted(core: &mut Core) -> bool {
    for stamp in 0..1_000 {
        if !is_done(|| emitted(core, stamp)) {
            return false;
        }
    }
    core.waiting() == 1_000
}

// Whether these are taken in their order.
fn are_taken(core: &mut Core) -> bool {
    for stamp in 0..1_000 {
        if !takes(core, TakenItem::Entry(1, Kind::Started, 0, stamp)) {
            return false;
        }
    }
    core.waiting() == 0
}

#[test]
fn a_core(rt: HostRuntime) {
    let mut core = Core::new(rt.alloc(), 1);
    assert!(rt; are_emitted(&mut core) && are_taken(&mut core));
}

// Where memory is refused, nothing was emitted.
fn registered<R: Wait>(rt: &R, sender: &mut Sender, segment: &Segment) -> Ending {
    match register(rt, sender, segment, 0) {
        Ok(key) => done_if(key == 131_072 && sender.emitted() == 1),
        Err(fault) => refused_if(fault == RegisterFault::Memory && sender.emitted() == 0),
    }
}

// Whether worker 2 registers the segment, and its registration is taken, and nothing else.
fn is_registered<R: Wait>(
    rt: &R,
    sender: &mut Sender,
    receiver: &mut Receiver,
    segment: &Segment,
) -> bool {
    is_done(|| registered(rt, sender, segment))
        && take(rt, receiver) == TakenItem::Entry(2, Kind::Dynamic, 131_072, 5)
        && take(rt, receiver) == TakenItem::Nothing
}

// Whether worker 2 of a session of two senders does so.
fn registers<R: Wait>(rt: &R, alloc: Global) -> Option<bool> {
    let segment = Segment::new(alloc, "dyn", "1").ok()?;
    let (_first, mut second, mut receiver) = two_senders(alloc, 4)?;
    Some(is_registered(rt, &mut second, &mut receiver, &segment))
}

#[test]
fn a_registration(rt: HostRuntime) {
    assert!(rt; again_if_refused(|| registers(&rt, rt.alloc())) == Some(true));
}

#[test]
fn a_claim(rt: HostRuntime) {
    assert!(rt; again_if_refused(|| drawn_by_two(rt.alloc())) == Some(3));
}

#[test]
fn a_book(rt: HostRuntime) {
    assert!(rt; again_if_refused(|| four_share(&rt, rt.alloc())) == Some(true));
}

#[test]
fn some_holdings(rt: HostRuntime) {
    assert!(rt; again_if_refused(|| are_granted(rt.alloc())) == Some(true));
}

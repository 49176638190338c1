//! Sessions of the queue on one thread.
ghost use Rattle.std.specs.Prelude.{◌≡◌};

use crate::ends::{Answer, TakenItem, closed, one_sender, register, send, take, two_senders};
use std::alloc::Global;
use std::sync::Wait;
use test_support::start;
use tk_events::{Event, Kind, Payload};
use tk_ids::Segment;
use tk_queue_session::{CloseReason, Receiver, RegisterFault, Sender};

const MAX_EVENTS: u64 = 1_048_576;

// Whether `count` starts go out through a queue of capacity one, and each is taken before the next.
// Until then another one comes back: since the queue is full, and after the last start that may be
// emitted since there may be no more.
fn passes<R: Wait>(rt: &R, sender: &mut Sender, receiver: &mut Receiver, count: u64) -> bool
    ensures sender { sender.new.session ≡ sender.old.session }
    ensures receiver { receiver.new.session ≡ receiver.old.session }
{
    for stamp in 0..count {
        let is_last = sender.emitted() == MAX_EVENTS - 1;
        let refusal = if is_last {
            Answer::Limit(7)
        } else {
            Answer::Full(7)
        };
        if send(rt, sender, start(0, stamp)) != Answer::Sent
            || send(rt, sender, start(0, 7)) != refusal
            || take(rt, receiver) != TakenItem::Entry(1, Kind::Started, 0, stamp)
        {
            return false;
        }
    }
    true
}

/// What a session of one sender is closed with after `count` starts.
pub fn closed_after<R: Wait>(
    rt: &R,
    alloc: Global,
    count: u64,
) -> Option<Result<u64, CloseReason>> {
    let (mut sender, mut receiver) = one_sender(alloc, 1)?;
    let are_passed = passes(rt, &mut sender, &mut receiver, count);
    let token = sender.end(rt);
    let is_drained = take(rt, &mut receiver) == TakenItem::End(1)
        && take(rt, &mut receiver) == TakenItem::Nothing;
    let closed = closed(receiver, vec![in alloc; token].ok()?);
    if are_passed && is_drained {
        Some(closed)
    } else {
        None
    }
}

#[test]
fn one_thread_session(rt: HostRuntime) {
    assert!(rt; closed_after(&rt, rt.alloc(), 1) == Some(Ok(1)));
}

// Why a session isn't closed by the token of worker 1 alone, where worker 2 has ended too.
fn closed_by_one<R: Wait>(rt: &R, alloc: Global) -> Option<CloseReason> {
    let (first, second, receiver) = two_senders(alloc, 2)?;
    let _unused = second.end(rt);
    closed(receiver, vec![in alloc; first.end(rt)].ok()?).err()
}

// Why a session isn't closed by both tokens, where no mark was taken.
fn closed_by_both<R: Wait>(rt: &R, alloc: Global) -> Option<CloseReason> {
    let (first, second, receiver) = two_senders(alloc, 2)?;
    closed(
        receiver,
        vec![in alloc; first.end(rt), second.end(rt)].ok()?,
    )
    .err()
}

#[test]
fn closed_too_early(rt: HostRuntime) {
    assert!(rt; closed_by_one(&rt, rt.alloc()) == Some(CloseReason::Missing(2)));
    assert!(rt; closed_by_both(&rt, rt.alloc()) == Some(CloseReason::NotDrained(1)));
}

// Whether `capacity` starts go out, one more comes back since the queue is full, and it goes out
// once one was taken.
fn is_filled<R: Wait>(rt: &R, sender: &mut Sender, receiver: &mut Receiver, capacity: u64) -> bool {
    for stamp in 0..capacity {
        if send(rt, sender, start(0, stamp)) != Answer::Sent {
            return false;
        }
    }
    send(rt, sender, start(0, capacity)) == Answer::Full(capacity)
        && take(rt, receiver) == TakenItem::Entry(1, Kind::Started, 0, 0)
        && send(rt, sender, start(0, capacity)) == Answer::Sent
}

// Whether that holds in a session of one sender.
fn has_capacity<R: Wait>(rt: &R, alloc: Global, capacity: u16) -> Option<bool> {
    let (mut sender, mut receiver) = one_sender(alloc, capacity as usize)?;
    Some(is_filled(rt, &mut sender, &mut receiver, capacity as u64))
}

#[test]
fn as_many_starts_as_the_capacity(rt: HostRuntime) {
    for capacity in [2, 3, 1_024] {
        assert!(rt;
            has_capacity(&rt, rt.alloc(), capacity) == Some(true),
            "{capacity}"
        );
    }
}

// Whether worker 2 registers as many descriptors as it may, and each registration is taken at once.
fn register_all<R: Wait>(
    rt: &R,
    sender: &mut Sender,
    receiver: &mut Receiver,
    segment: &Segment,
) -> bool {
    for key in 131_072..196_608u32 {
        if register(rt, sender, segment, 0) != Ok(key)
            || take(rt, receiver) != TakenItem::Entry(2, Kind::Dynamic, key, 5)
        {
            return false;
        }
    }
    register(rt, sender, segment, 0) == Err(RegisterFault::Limit)
}

// What a sender answers to a finish that has no outcome.
fn finish_without_outcome<R: Wait>(rt: &R, sender: &mut Sender) -> Answer {
    let finish = Event {
        kind: Kind::Finished,
        key: 0,
        stamp: 0,
        payload: Payload::Nothing,
    };
    send(rt, sender, finish)
}

// Whether worker 1 doesn't know what worker 2 registered, and no other parent, and worker 2 does.
fn are_known<R: Wait>(rt: &R, segment: &Segment, first: &mut Sender, second: &mut Sender) -> bool {
    send(rt, first, start(131_072, 7)) == Answer::UnknownNode(7)
        && register(rt, first, segment, 9) == Err(RegisterFault::UnknownNode)
        && finish_without_outcome(rt, second) == Answer::Unlawful(0)
        && send(rt, second, start(196_607, 4)) == Answer::Sent
}

// Whether all of that holds in a session of two senders.
fn registrations_hold<R: Wait>(rt: &R, alloc: Global) -> Option<bool> {
    let segment = Segment::new(alloc, "dyn", "1").ok()?;
    let (mut first, mut second, mut receiver) = two_senders(alloc, 1)?;
    let are_registered = register_all(rt, &mut second, &mut receiver, &segment);
    Some(are_registered && are_known(rt, &segment, &mut first, &mut second))
}

#[test]
fn registering(rt: HostRuntime) {
    assert!(rt; registrations_hold(&rt, rt.alloc()) == Some(true));
}

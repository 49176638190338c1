//! The two ends of a session, by answers that are plain values.
ghost use Rattle.std.specs.Prelude.{◌≡◌, All, IfSome};

use std::alloc::Global;
use std::sync::Wait;
use test_support::one_node;
use tk_events::{Event, Kind};
use tk_ids::{DType, Segment};
use tk_queue_session::{
    CloseReason, Ended, Item, Receiver, RegisterFault, SendFault, Sender, open,
};

/// The sender and the receiver of a session of one worker, if it is opened.
pub fn one_sender(alloc: Global, capacity: usize) -> Option<(Sender, Receiver)>
    ensures { IfSome result (λ ends. ends.0.session ≡ ends.1.session) }
{
    let (mut senders, receiver) = open(alloc, one_node(alloc, DType::Test)?, 1, capacity).ok()?;
    Some((senders.pop()?, receiver))
}

/// The senders of the workers 1 and 2, and their receiver, if their session is opened.
pub fn two_senders(alloc: Global, capacity: usize) -> Option<(Sender, Sender, Receiver)>
    ensures first { IfSome result (λ ends. ends.0.session ≡ ends.2.session) }
    ensures second { IfSome result (λ ends. ends.1.session ≡ ends.2.session) }
{
    let (mut senders, receiver) = open(alloc, one_node(alloc, DType::Test)?, 2, capacity).ok()?;
    let second = senders.pop()?;
    Some((senders.pop()?, second, receiver))
}

/// How many events worker 1 emitted in a session that is closed, or why it isn't.
pub fn closed(receiver: Receiver, ended: Vec<Ended>) -> Result<u64, CloseReason>
    requires { All (λ token. token.session ≡ receiver.session) ended.items }
{
    let answer = receiver.close(ended);
    let emitted = match &answer {
        Ok(closed) => Ok(closed.emitted(1)),
        Err(fault) => Err(fault.why),
    };
    drop(answer);
    emitted
}

/// What a sender answers.
#[derive(Clone, Copy, PartialEq, Eq)]
pub enum Answer {
    Sent,
    /// Refused, and the event with this stamp came back.
    Full(u64),
    Limit(u64),
    UnknownNode(u64),
    Unlawful(u64),
}

/// An item, by the worker, and of an entry the kind, the key and the stamp.
#[derive(Clone, Copy, PartialEq, Eq)]
pub enum TakenItem {
    Nothing,
    Entry(u8, Kind, u32, u64),
    End(u8),
}

// What a sender answered.
fn answer_of(sent: &Result<(), SendFault>) -> Answer {
    match sent {
        Ok(()) => Answer::Sent,
        Err(SendFault::Full(event)) => Answer::Full(event.stamp),
        Err(SendFault::Limit(event)) => Answer::Limit(event.stamp),
        Err(SendFault::UnknownNode(event)) => Answer::UnknownNode(event.stamp),
        Err(SendFault::Unlawful(event)) => Answer::Unlawful(event.stamp),
    }
}

/// Emits the event if there is room.
pub fn send<R: Wait>(rt: &R, sender: &mut Sender, event: Event) -> Answer
    ensures session { sender.new.session ≡ sender.old.session }
{
    let sent = sender.try_send(rt, event);
    let answer = answer_of(&sent);
    drop(sent);
    answer
}

/// The key of the descriptor with this segment that is registered below the parent, at stamp 5.
pub fn register<R: Wait>(
    rt: &R,
    sender: &mut Sender,
    segment: &Segment,
    parent: u32,
) -> Result<u32, RegisterFault> {
    sender.register(rt, parent, segment, "one", DType::Test, 5)
}

/// What an item is.
pub fn plain(item: &Item) -> TakenItem {
    match item {
        Item::Entry(entry) => {
            let event = &entry.event;
            TakenItem::Entry(entry.worker, event.kind, event.key, event.stamp)
        }
        Item::End(worker) => TakenItem::End(*worker),
    }
}

/// What was taken.
pub fn taken(item: &Option<Item>) -> TakenItem {
    match item {
        Some(item) => plain(item),
        None => TakenItem::Nothing,
    }
}

/// Takes the item that comes next.
pub fn take<R: Wait>(rt: &R, receiver: &mut Receiver) -> TakenItem
    ensures session { receiver.new.session ≡ receiver.old.session }
{
    let item = receiver.take(rt);
    let taken = taken(&item);
    drop(item);
    taken
}

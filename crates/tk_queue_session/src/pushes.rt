//! A sender's pushes: one try, and one that waits for room.
ghost use Rattle.std.specs.Prelude.{◌≡◌, MatchResult};
ghost use Rattle.crossbeam_queue.specs.Passes.{view, IsPassOf, IsSamePass};
ghost use Rattle.tk_queue_session.specs.PassViews.{MayPush, pushed};

use crate::items::Item;
use crate::session_rules::{EventQueue, QueuePass, SenderPush};
use std::sync::Wait;
use tk_waiting::RetryDelay;

/// Pushes the item.
///
/// # Errors
/// The item comes back, only where the queue was full at one moment of the call. It is then not
/// pushed.
pub fn try_push<R: Wait>(
    rt: &R,
    queue: &EventQueue,
    pass: &mut QueuePass,
    item: Item,
) -> Result<(), Item>
    requires queue { IsPassOf queue.now pass.old }
    requires may { MayPush (view pass.old) item }
    ensures queue { IsSamePass pass.old pass.new }
    ensures pushed { MatchResult result
        (λ _. view pass.new ≡ pushed (view pass.old) item)
        (λ back. (back ≡ item) × (view pass.new ≡ view pass.old)) }
{
    queue.push_as::<SenderPush, R>(rt, pass, item)
}

/// Pushes the item, waiting until the queue has room. Between tries it yields the processor, and
/// sleeps where the queue is full for long.
pub fn push<R: Wait>(rt: &R, queue: &EventQueue, pass: &mut QueuePass, item: Item)
    requires queue { IsPassOf queue.now pass.old }
    requires may { MayPush (view pass.old) item }
    ensures queue { IsSamePass pass.old pass.new }
    ensures pushed { view pass.new ≡ pushed (view pass.old) item }
{
    let mut delay = RetryDelay::new();
    let mut left = item;
    for _ in rt.forever() {
        match try_push(rt, queue, pass, left) {
            Ok(()) => return,
            Err(back) => left = back,
        }
        delay.wait(rt);
    }
    unreachable!()
}

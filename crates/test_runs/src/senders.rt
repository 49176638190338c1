//! Senders on threads of their own, through queues of small and of great capacity.
ghost use Rattle.std.specs.Prelude.{◌≡◌, All, IfSome};

use crossbeam_utils::Backoff;
use std::alloc::Global;
use std::snapshot::Snapshot;
use std::sync::Wait;
use std::test::Fail;
use std::thread;
use std::thread::{Promise, Threads};
use test_support::{one_node, start};
use tk_ids::DType;
use tk_queue_session::{Ended, Item, Receiver, Sender, open};

const NO_SENDER: &str = "no sender";

// The token of a thread is of the sender's session.
#[derive(Drop)]
struct TokenOf(Snapshot<Sender>);

impl Promise<Option<Ended>> for TokenOf {
    ghost use Rattle.std.specs.Prelude.{◌≡◌, IfSome};

    ghost kept_by = { λ p r. IfSome r (λ token. token.session ≡ p.0.value.session) };
}

// Sends the stamps 0 to `count - 1`, and answers the token.
fn send_all<R: Wait>(rt: &R, mut sender: Sender, count: u64) -> Option<Ended>
    ensures { IfSome result (λ token. token.session ≡ sender.session) }
{
    for stamp in 0..count {
        sender.send(rt, start(0, stamp)).ok()?;
    }
    Some(sender.end(rt))
}

// Whether the stamp is the worker's next one.
fn is_next(next: &mut [u64; 16], worker: u8, stamp: u64) -> bool {
    let index = (worker % 16) as usize;
    let wanted = next[index];
    next[index] = wanted.wrapping_add(1);
    stamp == wanted
}

// Takes until `workers` marks came, and answers how many entries there were of each worker, where each
// worker's stamps count up from 0.
fn take_all<R: Wait>(rt: &R, receiver: &mut Receiver, workers: u32) -> Option<[u64; 16]>
    ensures { receiver.new.session ≡ receiver.old.session }
{
    let mut next = [0u64; 16];
    let mut left = workers;
    let backoff = Backoff::new();
    for _ in rt.forever() {
        if left == 0 {
            break;
        }
        match receiver.take(rt) {
            Some(Item::End(_)) => left -= 1,
            Some(Item::Entry(entry)) => {
                if !is_next(&mut next, entry.worker, entry.event.stamp) {
                    return None;
                }
                backoff.reset();
            }
            None => backoff.snooze(),
        }
    }
    Some(next)
}

// How many events the workers 1, 2 and 3 emitted, if the session is closed.
fn emitted(receiver: Receiver, ended: Vec<Ended>) -> Option<(u64, u64, u64)>
    requires { All (λ token. token.session ≡ receiver.session) ended.items }
{
    let closed = receiver.close(ended).ok()?;
    Some((closed.emitted(1), closed.emitted(2), closed.emitted(3)))
}

#[test]
fn two_threads_at_capacity_one(rt: HostRuntime) -> Result<(), Fail> {
    let table = one_node(rt.alloc(), DType::Test).ok_or("no table")?;
    let (mut senders, mut receiver) = open(rt.alloc(), table, 2, 1)?;
    let second = senders.pop().ok_or(NO_SENDER)?;
    let first = senders.pop().ok_or(NO_SENDER)?;
    let one = thread::spawn_with(
        &rt,
        TokenOf(Snapshot::of(&first)),
        move || send_all(&rt, first, 1000),
    )?;
    let two = thread::spawn_with(
        &rt,
        TokenOf(Snapshot::of(&second)),
        move || send_all(&rt, second, 1000),
    )?;
    let taken = take_all(&rt, &mut receiver, 2).ok_or("out of order")?;
    assert!(rt; taken[1] == 1000 && taken[2] == 1000);
    let mut ended = Vec::with_capacity(rt.alloc(), 2)?;
    ended.push(one.join(&rt).ok_or("no token")?)?;
    ended.push(two.join(&rt).ok_or("no token")?)?;
    assert_eq!(rt; emitted(receiver, ended), Some((1000, 1000, 0)));
    Ok(())
}

// Fifteen senders on fifteen threads, 5,000 events each.
fn fifteen_through<R>(rt: R, alloc: Global, capacity: usize) -> Result<[u64; 16], Fail>
where
    R: Threads + Wait + Copy + Send + 'static,
{
    let table = one_node(alloc, DType::Test).ok_or("no table")?;
    let (senders, mut receiver) = open(alloc, table, 15, capacity)?;
    let mut threads = Vec::with_capacity(alloc, 15)?;
    for sender in senders {
        threads.push(thread::spawn(&rt, move || send_all(&rt, sender, 5_000).is_some())?)?;
    }
    let taken = take_all(&rt, &mut receiver, 15).ok_or("out of order")?;
    for thread in threads {
        if !thread.join(&rt) {
            return Err(Fail::new("refused"));
        }
    }
    Ok(taken)
}

#[test]
fn fifteen_threads(rt: HostRuntime) -> Result<(), Fail> {
    for capacity in [1, 2, 64, 1024] {
        let taken = fifteen_through(rt, rt.alloc(), capacity)?;
        for worker in 1..16usize {
            assert_eq!(rt; taken[worker], 5_000, "{capacity}");
        }
    }
    Ok(())
}

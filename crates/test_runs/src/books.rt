//! Fifteen threads on one book: they take and give back needs that conflict, or read together.
ghost use Rattle.std.specs.Prelude.{◌≡◌, None};

use std::alloc::Global;
use std::sync::Wait;
use std::sync::atomic::{AtomicU64, Ordering};
use std::thread;
use std::thread::Threads;
use tk_locks::{Book, BookSeat, Busy, Need};

const WORKERS: usize = 15;

const ROUNDS: u32 = 4_000;

// A step of two, in which another thread's writes would be lost or seen halfway.
fn bump_twice(counter: &AtomicU64) {
    for _ in 0..2 {
        let seen = counter.load(Ordering::SeqCst);
        counter.store(seen.wrapping_add(1), Ordering::SeqCst);
    }
}

fn is_whole(counter: &AtomicU64) -> bool {
    let seen = counter.load(Ordering::SeqCst);
    seen % 2 == 0 && counter.load(Ordering::SeqCst) == seen
}

// Writes in each fourth round and reads in the others, and returns in how many rounds it saw a
// counter that was torn.
fn work<R: Wait>(rt: &R, book: &Book, counter: &AtomicU64, mut seat: BookSeat) -> u32
    requires of_this { seat.book ≡ book.now }
    requires empty { seat.holds ≡ None }
{
    let mut torn = 0;
    for round in 0..ROUNDS {
        let is_write = round % 4 == 0;
        let need = if is_write {
            Need::of(2, 1)
        } else {
            Need::of(1, 4)
        };
        book.acquire(rt, &mut seat, need);
        if !is_whole(counter) {
            torn += 1;
        }
        if is_write {
            bump_twice(counter);
        }
        book.release(&mut seat);
    }
    torn
}

// The counter at the end, and in how many rounds it was torn.
fn run_all<R: Threads + Wait + Sync>(rt: &R, alloc: Global) -> Option<(u64, u32)> {
    let (book, seats) = Book::open(alloc, WORKERS).ok()?;
    let counter = AtomicU64::new(0);
    let job = |seat: BookSeat| -> u32
        requires { (seat.book ≡ book) × (seat.holds ≡ None) }
    { work(rt, &book, &counter, seat) };
    let mut torn = 0u32;
    for seen in thread::map_vec(rt, seats, &job).ok()? {
        torn = torn.saturating_add(seen);
    }
    Some((counter.load(Ordering::SeqCst), torn))
}

#[test]
fn fifteen_threads_tear_nothing(rt: HostRuntime) {
    assert!(rt; run_all(&rt, rt.alloc()) == Some((30_000, 0)));
}

// How many threads came to each of two points, and whether the first of them has looked again.
#[derive(Drop)]
struct Meeting {
    reading: AtomicU64,
    looked: AtomicU64,
    released: AtomicU64,
}

// Waits until the counter is at least the number, for at most 10,000,000 turns.
fn wait_for(counter: &AtomicU64, number: u64) {
    for _ in 0..10_000_000 {
        if counter.load(Ordering::SeqCst) >= number {
            return;
        }
        thread::yield_now();
    }
}

// Reads until all read and have seen so. Then the first one releases, and may not write beside the
// other fourteen. Answers whether the words were those.
fn read_with_all<R: Wait>(rt: &R, book: &Book, meeting: &Meeting, mut seat: BookSeat) -> bool
    requires of_this { seat.book ≡ book.now }
    requires empty { seat.holds ≡ None }
{
    book.acquire(rt, &mut seat, Need::of(4, 0));
    let is_first = meeting.reading.fetch_add(1, Ordering::SeqCst) == 0;
    wait_for(&meeting.reading, WORKERS as u64);
    let are_fifteen = book.look(&mut seat) == 0xF00;
    meeting.looked.fetch_add(1, Ordering::SeqCst);
    wait_for(&meeting.looked, WORKERS as u64);
    if !is_first {
        wait_for(&meeting.released, 1);
        book.release(&mut seat);
        return are_fifteen;
    }
    book.release(&mut seat);
    let are_fourteen = book.look(&mut seat) == 0xE00;
    let tried = book.try_acquire(&mut seat, Need::of(0, 4));
    meeting.released.store(1, Ordering::SeqCst);
    are_fifteen && are_fourteen && matches!(tried, Err(Busy::Held(0xE00)))
}

fn all_read<R: Threads + Wait + Sync>(rt: &R, alloc: Global) -> Option<bool> {
    let (book, seats) = Book::open(alloc, WORKERS).ok()?;
    let meeting = Meeting {
        reading: AtomicU64::new(0),
        looked: AtomicU64::new(0),
        released: AtomicU64::new(0),
    };
    let job = |seat: BookSeat| -> bool
        requires { (seat.book ≡ book) × (seat.holds ≡ None) }
    { read_with_all(rt, &book, &meeting, seat) };
    let mut are_right = true;
    for is_right in thread::map_vec(rt, seats, &job).ok()? {
        are_right = are_right && is_right;
    }
    Some(are_right)
}

#[test]
fn fifteen_readers(rt: HostRuntime) {
    assert!(rt; all_read(&rt, rt.alloc()) == Some(true));
}

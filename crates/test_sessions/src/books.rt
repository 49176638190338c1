//! A lock book, needs and holdings on one thread.
ghost use Rattle.std.specs.Prelude.{◌≡◌, All};

use std::alloc::Global;
use std::sync::Wait;
use tk_locks::{Book, BookFault, BookSeat, Busy, Holdings, Need};

// A seat beside its book.
#[derive(Drop)]
struct Seated<'b> {
    book: &'b Book,
    seat: BookSeat,
    ghost of_this: { seat.book ≡ book.now },
}

impl Seated<'_> {
    // Whether the seat held nothing, and holds the need now.
    fn acquires<R: Wait>(&mut self, rt: &R, need: Need) -> bool {
        if self.seat.holds().is_some() {
            return false;
        }
        self.book.acquire(rt, &mut self.seat, need);
        self.seat.holds().is_some()
    }

    // Whether the seat held nothing, and holds the need at the first try.
    fn tries(&mut self, need: Need) -> bool {
        if self.seat.holds().is_some() {
            return false;
        }
        self.book.try_acquire(&mut self.seat, need).is_ok() && self.seat.holds().is_some()
    }

    // Whether the need conflicts with what the book's word holds, and the seat holds nothing.
    fn finds(&mut self, word: u64, need: Need) -> bool {
        if self.seat.holds().is_some() {
            return false;
        }
        match self.book.try_acquire(&mut self.seat, need) {
            Err(Busy::Held(seen)) => seen == word && self.seat.holds().is_none(),
            _ => false,
        }
    }

    // Whether the seat held something, and holds nothing now.
    fn releases(&mut self) -> bool {
        if self.seat.holds().is_none() {
            return false;
        }
        self.book.release(&mut self.seat);
        self.seat.holds().is_none()
    }

    fn looks(&mut self) -> u64 {
        self.book.look(&mut self.seat)
    }
}

// The book's next seat.
fn next_seat<'b>(book: &'b Book, seats: &mut Vec<BookSeat>) -> Option<Seated<'b>>
    requires { All (λ seat. seat.book ≡ book.now) seats.old.items }
    ensures { All (λ seat. seat.book ≡ book.now) seats.new.items }
{
    let seat = seats.pop()?;
    Some(Seated { book, seat })
}

// Whether three readers keep a writer out until each of them is gone.
fn share<R: Wait>(
    rt: &R,
    first: &mut Seated<'_>,
    second: &mut Seated<'_>,
    third: &mut Seated<'_>,
    writer: &mut Seated<'_>,
) -> bool {
    let is_shared = first.acquires(rt, Need::of(4, 0))
        && second.acquires(rt, Need::of(4, 0))
        && third.acquires(rt, Need::of(4, 0))
        && writer.looks() == 0x300
        && writer.finds(0x300, Need::of(0, 4));
    let is_released = first.releases() && second.releases() && third.releases();
    let is_written = writer.tries(Need::of(0, 4)) && first.looks() == 0xF00;
    is_shared && is_released && is_written
}

// Whether the first three of four seats of the book share a resource that the fourth writes last.
fn seats_share<R: Wait>(rt: &R, book: &Book, seats: &mut Vec<BookSeat>) -> Option<bool>
    requires { All (λ seat. seat.book ≡ book.now) seats.old.items }
{
    let mut first = next_seat(book, seats)?;
    let mut second = next_seat(book, seats)?;
    let mut third = next_seat(book, seats)?;
    let mut writer = next_seat(book, seats)?;
    Some(share(rt, &mut first, &mut second, &mut third, &mut writer))
}

/// Whether three seats of a book of four share a resource that the fourth writes last.
pub fn four_share<R: Wait>(rt: &R, alloc: Global) -> Option<bool> {
    let (book, mut seats) = Book::open(alloc, 4).ok()?;
    let hold = seats_share(rt, &book, &mut seats);
    drop(seats);
    drop(book);
    hold
}

// Whether a writer keeps a reader of its resource out, and no other one.
fn writer_is_found<R: Wait>(rt: &R, book: &Book, seats: &mut Vec<BookSeat>) -> Option<bool>
    requires { All (λ seat. seat.book ≡ book.now) seats.old.items }
{
    let mut writer = next_seat(book, seats)?;
    let mut reader = next_seat(book, seats)?;
    let is_found = writer.acquires(rt, Need::of(0, 1)) && reader.finds(0xF, Need::of(1, 0));
    // A need of another resource doesn't wait for the writer.
    let is_held = reader.acquires(rt, Need::of(4, 2)) && writer.looks() == 0x1FF;
    Some(is_found && is_held)
}

// Whether a writer in a book of two seats keeps a reader of its resource out, and no other one.
fn two_exclude<R: Wait>(rt: &R, alloc: Global) -> Option<bool> {
    let (book, mut seats) = Book::open(alloc, 2).ok()?;
    let is_found = writer_is_found(rt, &book, &mut seats);
    drop(seats);
    drop(book);
    is_found
}

#[test]
fn writer_excludes(rt: HostRuntime) {
    assert!(rt; two_exclude(&rt, rt.alloc()) == Some(true));
}

#[test]
fn one_to_fifteen_seats(rt: HostRuntime) {
    assert!(rt; matches!(Book::open(rt.alloc(), 0), Err(BookFault::Seats)));
    assert!(rt; matches!(Book::open(rt.alloc(), 16), Err(BookFault::Seats)));
}

// A need that reads resource 0 and writes resource 1.
fn reader_and_writer() -> Option<Need> {
    Need::none().reading(0)?.reading(1)?.writing(1)
}

#[test]
fn words_of_needs(rt: HostRuntime) {
    assert_eq!(rt; Need::of(1, 2).word(), 0xF1);
    assert!(rt; matches!(reader_and_writer(), Some(need) if need.word() == 0xF1));
}

/// Whether a seat is granted what conflicts with another seat's need, once that one is released.
pub fn are_granted(alloc: Global) -> Option<bool> {
    let mut holdings = Holdings::new(alloc, 2).ok()?;
    let is_held = holdings.grant(0, Need::of(0, 4)) && !holdings.grant(1, Need::of(4, 0));
    holdings.release(0);
    Some(is_held && holdings.grant(1, Need::of(4, 0)))
}

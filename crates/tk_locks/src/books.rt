//! The lock book: what its seats hold of sixteen resources, as one word.
ghost use Rattle.std.specs.Prelude.{◌≡◌, ℕ, ◌<◌, ◌≤◌, ◌⊎◌, ◌↔◌, [], ◌∷◌, ◌++◌, length, map, replicate, sum_by, All, IfOk, IfErr, IsSome, Some};
ghost use Rattle.tk_lanes.specs.Lanes.{lane_at};
ghost use Rattle.tk_locks.specs.Needs.{word_of};
ghost use Rattle.tk_locks.specs.Holdings.{AreCompatible, WereHeld, held_lane, held_word};
ghost use Rattle.tk_locks.specs.Books.{book_view, empty};
ghost use Rattle.tk_locks.specs.FaultTexts.{book_fault_text, busy_text};
ghost use Rattle.tk_locks.specs.LockWord.{seat_note};
ghost use Rattle.tk_locks.specs.Tries.{TookLast, WasFree, WasBusy, WasFreeAtLast};
ghost use Rattle.tk_base.specs.declared.limits.TheConstants.{MAX_WORKERS};
ghost use Rattle.tk_locks.specs.declared.books.BookFault.TheVariants.{Seats};

use crate::needs::Need;
use crate::rules::{AcquireStep, LoadStep, LockRule, ReleaseStep, SeatNote};
use atomic_table::{Seat, Table};
use std::alloc::{AllocError, Global};
use std::error::Error;
use std::fmt;
use std::marker::Model;
use std::sync::Wait;
use tk_base::MAX_WORKERS;
use tk_lanes::admits;
use tk_waiting::RetryDelay;

/// A book of locks: one word by which several threads take resources and give them back.
///
/// Each thread is lent one of the book's seats. The needs that the seats hold never conflict.
#[derive(Drop)]
pub struct Book {
    table: Table<Need, SeatNote, usize, LockRule, Global>,
}

impl Model for Book {
    ghost use Rattle.tk_locks.specs.Books.{BookView};

    ghost Value = { BookView };

    ghost use Rattle.tk_locks.specs.BookViews.{view_of, IsBook};

    ghost view = { view_of };

    ghost invariant = { IsBook };
}

/// One of the seats of a book, which holds one need or none.
#[derive(Drop)]
pub struct BookSeat {
    seat: Seat<Need, SeatNote>,
    held: Option<Need>,
}

impl Model for BookSeat {
    ghost use Rattle.tk_locks.specs.Books.{BookSeatView};

    ghost Value = { BookSeatView };

    ghost use Rattle.tk_locks.specs.BookViews.{seat_view_of, IsHolder};

    ghost view = { seat_view_of };

    ghost invariant = { IsHolder };
}

/// Why a seat did not take a need.
#[derive(Clone, Copy, Debug, PartialEq, Eq)]
pub enum Busy {
    /// The word that was read doesn't admit the need.
    Held(u64),
    /// The first word was read and admits the need, but the second was found by the exchange.
    Moved(u64, u64),
}

impl fmt::Display for Busy {
    ghost output = { λ busy. Some (busy_text busy) };

    fn fmt<W: fmt::Write>(&self, f: &mut fmt::Formatter<W>) -> fmt::Result {
        match self {
            Busy::Held(_) => f.write_str("a resource is held"),
            Busy::Moved(_, _) => f.write_str("the lock word was changed"),
        }
    }
}

impl Error for Busy {}

/// Why a book was not opened.
#[derive(Clone, Copy, Debug, PartialEq, Eq)]
pub enum BookFault {
    /// The number of seats isn't 1 to `MAX_WORKERS`.
    Seats,
    /// A request for memory was refused.
    Memory,
}

impl fmt::Display for BookFault {
    ghost output = { λ fault. Some (book_fault_text fault) };

    fn fmt<W: fmt::Write>(&self, f: &mut fmt::Formatter<W>) -> fmt::Result {
        match self {
            BookFault::Seats => f.write_str("seats must be 1 to 15"),
            BookFault::Memory => f.write_str("out of memory"),
        }
    }
}

impl Error for BookFault {}

impl From<AllocError> for BookFault {
    ghost use Rattle.tk_locks.specs.declared.books.BookFault.TheVariants.{Memory};

    ghost from_gives = { λ _ e. e ≡ Memory };

    fn from(_: AllocError) -> BookFault {
        BookFault::Memory
    }
}

// Cuts the first seat into `count` seats.
fn split_seats(
    alloc: Global,
    table: &Table<Need, SeatNote, usize, LockRule, Global>,
    mut first: Seat<Need, SeatNote>,
    count: usize,
) -> Result<Vec<BookSeat>, AllocError>
    requires count { 0 < count }
    requires table { 0 < table.now.shared.table_id.words }
    requires of_this { first.table_id ≡ table.now.shared.table_id }
    requires whole { first.me ≡ (seat_note table.now.shared.key (replicate count None) [], []) }
    ensures { IfOk result (λ all. (length all.items ≡ count)
        × All (λ s. s ≡ empty (book_view table.now.shared.table_id table.now.shared.key))
        all.items) }
{
    let mut all = Vec::with_capacity(alloc, count)?;
    for _ in 1..count {
        let seat = table.shared.split_seat::<LockRule>(&mut first);
        all.push(BookSeat { seat, held: None })?;
    }
    all.push(BookSeat {
        seat: first,
        held: None,
    })?;
    Ok(all)
}

impl Book {
    /// Opens a book with this many seats, none of which holds anything.
    ///
    /// # Errors
    /// `Seats` where there is none or more than `MAX_WORKERS`, or `Memory`.
    pub fn open(alloc: Global, seats: usize) -> Result<(Book, Vec<BookSeat>), BookFault>
        ensures book { IfOk result (λ r. r.0.seats ≡ seats) }
        ensures all { IfOk result (λ r. length r.1.items ≡ seats) }
        ensures seats { IfOk result (λ r. All (λ s. s ≡ empty r.0) r.1.items) }
        ensures in_range { IfOk result (λ _. (0 < seats) × (seats ≤ MAX_WORKERS)) }
        ensures fault { IfErr result (λ f. (f ≡ Seats) ↔ ((seats ≡ 0) ⊎ (MAX_WORKERS < seats))) }
    {
        if seats == 0 || seats > MAX_WORKERS as usize {
            return Err(BookFault::Seats);
        }
        let (table, first) = Table::of_words(alloc, &[0], &seats)?;
        let all = split_seats(alloc, &table, first, seats)?;
        Ok((Book { table }, all))
    }

    /// Takes the need, where the word that is read admits it and the exchange finds the same word.
    ///
    /// `seat` must be a seat of this book that holds nothing. It takes one load and at most one
    /// exchange. The word that it writes is that of what all seats hold then, and `need` conflicts
    /// with no other seat's (`together`).
    ///
    /// # Errors
    /// `Held` or `Moved`, with the words that were read. The seat then holds nothing.
    pub fn try_acquire(&self, seat: &mut BookSeat, need: Need) -> Result<(), Busy>
        requires of_this { seat.old.book ≡ self.now }
        requires empty { seat.old.holds ≡ None }
        ensures book { seat.new.book ≡ seat.old.book }
        ensures held { IfOk result (λ _. seat.new.holds ≡ Some need) }
        ensures free { IfOk result (λ _. WasFree seat.old.read seat.new.read (word_of need)) }
        ensures together { IfOk result (λ _. TookLast self.now.seats seat.new.read need) }
        ensures empty { IfErr result (λ _. seat.new.holds ≡ None) }
        ensures busy { IfErr result (WasBusy seat.old.read seat.new.read (word_of need)) }
    {
        let seen = self.table.shared.load::<LoadStep>(&mut seat.seat, 0);
        let word = need.word();
        if !admits(seen, word) {
            return Err(Busy::Held(seen));
        }
        let found = self
            .table
            .shared
            .compare_exchange_with::<AcquireStep>(&mut seat.seat, 0, seen, seen + word, &need);
        if found == seen {
            seat.held = Some(need);
            Ok(())
        } else {
            Err(Busy::Moved(seen, found))
        }
    }

    /// Takes the need: tries again as long as a try is refused. Between tries it yields the
    /// processor, and sleeps where others hold what it needs for long; it reads no word but theirs.
    ///
    /// `seat` must be a seat of this book that holds nothing.
    pub fn acquire<R: Wait>(&self, rt: &R, seat: &mut BookSeat, need: Need)
        requires of_this { seat.old.book ≡ self.now }
        requires empty { seat.old.holds ≡ None }
        ensures book { seat.new.book ≡ seat.old.book }
        ensures held { seat.new.holds ≡ Some need }
        ensures free { WasFreeAtLast seat.old.read seat.new.read (word_of need) }
        ensures together { TookLast self.now.seats seat.new.read need }
    {
        let mut delay = RetryDelay::new();
        for _ in rt.forever() {
            match self.try_acquire(seat, need) {
                Ok(()) => return,
                Err(_) => delay.wait(rt),
            }
        }
        unreachable!()
    }

    /// Gives back the need that the seat holds. `seat` must be a seat of this book.
    pub fn release(&self, seat: &mut BookSeat)
        requires of_this { seat.old.book ≡ self.now }
        requires holds { IsSome seat.old.holds }
        ensures book { seat.new.book ≡ seat.old.book }
        ensures empty { seat.new.holds ≡ None }
        ensures read { seat.new.read ≡ seat.old.read }
    {
        let Some(need) = seat.held else {
            unreachable!()
        };
        self.table
            .shared
            .fetch_sub::<ReleaseStep>(&mut seat.seat, 0, need.word());
        seat.held = None;
    }

    /// Reads the word: the sum of the words of what all seats held at that moment, of which no two
    /// needs conflicted.
    pub fn look(&self, seat: &mut BookSeat) -> u64
        requires of_this { seat.old.book ≡ self.now }
        ensures book { seat.new.book ≡ seat.old.book }
        ensures holds { seat.new.holds ≡ seat.old.holds }
        ensures read { seat.new.read ≡ seat.old.read ++ result ∷ [] }
        ensures own { (r : ℕ) → r < 16 → held_lane seat.old.holds r ≤ lane_at result r }
        ensures together { WereHeld self.now.seats seat.old.holds result }
    {
        self.table.shared.load::<LoadStep>(&mut seat.seat, 0)
    }

    /// Closes the book, and returns its last word, which is 0.
    ///
    /// `seats` must be all seats of this book, none of which holds anything.
    pub fn close(self, seats: Vec<BookSeat>) -> u64
        requires all { length seats.items ≡ self.seats }
        requires of_this { All (λ s. s.book ≡ self) seats.items }
        requires empty { All (λ s. s.holds ≡ None) seats.items }
        ensures { result ≡ 0 }
    {
        self.into_word(seats)
    }

    /// Closes the book while seats may hold needs, and returns its last word.
    ///
    /// It is the sum of the words of what the seats hold, no two of which conflict. `seats` must be
    /// all seats of this book.
    pub fn into_word(self, mut seats: Vec<BookSeat>) -> u64
        requires all { length seats.items ≡ self.seats }
        requires of_this { All (λ s. s.book ≡ self) seats.items }
        ensures word { result ≡ sum_by held_word (map (λ s. s.holds) seats.items) }
        ensures compatible { AreCompatible (map (λ s. s.holds) seats.items) }
    {
        let Book { table } = self;
        let Some(last) = seats.pop() else {
            unreachable!()
        };
        let BookSeat { mut seat, held: _ } = last;
        while let Some(next) = seats.pop() {
            let BookSeat {
                seat: other,
                held: _,
            } = next;
            table.shared.join_seat::<LockRule>(&mut seat, other);
        }
        let closed = table.close_with(seat);
        let word = closed.word(0);
        closed.free();
        word
    }
}

impl BookSeat {
    /// Returns the need that the seat holds, or `None`.
    pub fn holds(&self) -> Option<Need>
        ensures { result ≡ self.now.holds }
    {
        self.held
    }
}

//! The theorem as a whole, and each of its parts as what the call promises that carries it: without
//! the clause of that call, the proof of the part is refused here.
ghost use Rattle.std.specs.Prelude.{◌≡◌, ◌↔◌, ℕ, ◌+◌, ◌∷◌, true, All, IfOk, IfSome, List, OnOk, Option, Some, filter, length, map, slice_get, string_bytes, sum_by};
ghost use Rattle.std.specs.Io.KnownBytes.{Appends};
ghost use Rattle.tk_record.specs.Mixing.{Mix};
ghost use Rattle.tk_record.specs.Selections.{events_of, selects};
ghost use Rattle.tk_record.specs.Statistics.{statistic_rows};
ghost use Rattle.tk_query.specs.AnswerTexts.{in_order_yes};
ghost use Rattle.tk_query.specs.Asked.{fits};
ghost use Rattle.tk_query.specs.InOrder.{CanHoldInTurn};
ghost use Rattle.tk_locks.specs.NeedView.{NeedView};
ghost use Rattle.tk_locks.specs.Holdings.{WritersAreAlone, held_word};
ghost use Rattle.tk_queue_session.specs.Core.{entries};
ghost use Rattle.tk_queue_session.specs.Closing.{sent_in};
ghost use Rattle.testkit_headline.specs.Answers.{IsTheAnswer};
ghost use Rattle.testkit_headline.specs.Counting.{IsCount};
ghost use Rattle.testkit_headline.specs.Exactness.{Exactness};
ghost use Rattle.testkit_headline.specs.Headline.{Headline};
ghost use Rattle.testkit_headline.specs.PlanReports.{report_in};
ghost use Rattle.testkit_headline.specs.Recordings.{Completes, HoldsWhatWasSent, NothingAfterMarks};
ghost use Rattle.testkit_headline.specs.Witnesses.{Witnesses};

use std::alloc::{AllocError, Global};
use std::sync::Wait;
use std::thread::Threads;
use testkit_questions::laws::answer_is_unique;
use testkit_questions::{AskFault, ask};
use tk_claims::laws::each_worker_has_its_list;
use tk_engine_execute::{Engine, Results, RunFault, execute};
use tk_locks::laws::writers_are_alone;
use tk_locks::{Book, BookSeat};
use tk_plan_runs::{ReportFault, plan_report};
use tk_query::{InOrder, match_in_order};
use tk_query_conditions::Condition;
use tk_queue_session::{CloseFault, Closed, Ended, Receiver};
use tk_record::{Events, Selection, Statistics};
use tk_streams::{Source, Target};

/// Shows what README.md says under "What is proved", part by part.
pub fn headline()
    ensures { Headline }
{
    writers_are_alone();
    answer_is_unique();
}

/// Shows with numbers that the words of the headline are met, and that they refuse.
pub fn witnesses()
    ensures { Witnesses }
{
    each_worker_has_its_list();
}

/// Shows that the words of the headline say neither less nor more than they should.
pub fn exactness()
    ensures { Exactness }
{
    each_worker_has_its_list();
}

/// Closes a session: its recording completes, and what was taken holds each event that each worker
/// sent exactly once, in that worker's order, and nothing of a worker after its end mark.
///
/// # Errors
/// As [`Receiver::close`].
pub fn close_session(receiver: Receiver, ended: Vec<Ended>) -> Result<Closed, CloseFault>
    requires { All (λ token. token.session ≡ receiver.session) ended.items }
    ensures sent { IfOk result (λ closed.
        Mix receiver.workers (entries receiver.taken) (sent_in closed)) }
    ensures completes { OnOk result (Completes receiver.workers receiver.taken) }
    ensures marks { OnOk result (NothingAfterMarks receiver.workers receiver.taken) }
{
    receiver.close(ended)
}

/// Runs an engine: its record holds what the workers sent, between the events before and after the
/// units, whatever the engine's author proved.
///
/// # Errors
/// As [`execute`].
pub fn run_engine<R: Threads + Wait + Sync, E: Engine>(
    rt: &R,
    alloc: Global,
    engine: &E,
    workers: usize,
    capacity: usize,
) -> Result<Results, RunFault>
    ensures { IfOk result (λ r. HoldsWhatWasSent (E.before engine.now) (E.after engine.now)
        workers (sent_in r.closed) r.recorded) }
{
    each_worker_has_its_list();
    execute(rt, alloc, engine, workers, capacity)
}

/// Counts events: every statistic is how many of them its selection picks.
pub fn count_events(events: &Events<'_>) -> Statistics
    ensures { All (IsCount events.now) (statistic_rows result) }
{
    events.statistics()
}

/// Picks events: those that the selection picks, in their order.
///
/// # Errors
/// `AllocError` where a request for memory is refused.
pub fn pick_events<'r>(
    alloc: Global,
    events: &Events<'r>,
    selection: Selection,
) -> Result<Events<'r>, AllocError>
    ensures { IfOk result (λ picked.
        events_of picked ≡ filter (selects selection events.now.recorded) (events_of events.now)) }
{
    events.pick(alloc, selection)
}

/// Matches events in order: a yes exactly where the conditions hold at increasing positions.
///
/// # Errors
/// `AllocError` where a request for memory is refused.
pub fn match_events(
    alloc: Global,
    events: &Events<'_>,
    conditions: &[Condition],
) -> Result<InOrder, AllocError>
    ensures { IfOk result (λ answer.
        (in_order_yes answer ≡ true) ↔ CanHoldInTurn (fits events.now) conditions.now) }
{
    match_in_order(alloc, events, conditions)
}

/// Reads a book's word: it is the sum of what this seat and each other seat of the book held at that
/// moment, of which no resource had a writer beside another holder.
pub fn read_locks(book: &Book, seat: &mut BookSeat) -> u64
    requires { seat.old.book ≡ book.now }
    ensures { (others : List (Option NeedView)) × (length others + 1 ≡ book.now.seats)
        × (result ≡ sum_by held_word (seat.old.holds ∷ others))
        × WritersAreAlone (seat.old.holds ∷ others) }
{
    writers_are_alone();
    book.look(seat)
}

/// Closes a book: its last word is the sum of what the seats hold that are handed in, of which no
/// resource has a writer beside another holder.
pub fn close_locks(book: Book, seats: Vec<BookSeat>) -> u64
    requires all { length seats.items ≡ book.seats }
    requires of_this { All (λ seat. seat.book ≡ book) seats.items }
    ensures word { result ≡ sum_by held_word (map (λ seat. seat.holds) seats.items) }
    ensures alone { WritersAreAlone (map (λ seat. seat.holds) seats.items) }
{
    writers_are_alone();
    book.into_word(seats)
}

/// Asks a question: what is written is the one answer that its words have about the input.
///
/// # Errors
/// As [`ask`].
pub fn ask_question<S: Source, T: Target>(
    alloc: Global,
    words: &[String],
    source: &mut S,
    target: &mut T,
) -> Result<bool, AskFault>
    ensures { IfOk result (λ is_yes. IfSome (S.remaining source.old) (λ input.
        IsTheAnswer (map string_bytes words.now) input is_yes
        (T.contents target.old) (T.contents target.new))) }
{
    answer_is_unique();
    ask(alloc, words, source, target)
}

/// Runs a plan and writes its report, which is a function of the plan's bytes alone.
///
/// # Errors
/// As [`plan_report`].
pub fn report_plan<R: Threads + Wait + Sync, T: Target>(
    rt: &R,
    alloc: Global,
    bytes: &[u8],
    workers: usize,
    target: &mut T,
) -> Result<(), ReportFault>
    ensures { OnOk result ((text : List ℕ) × (report_in bytes.now ≡ Some text)
        × Appends (T.contents target.old) (T.contents target.new) text) }
{
    plan_report(rt, alloc, bytes, workers, target)
}

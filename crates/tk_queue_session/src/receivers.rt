//! The receiver's end of a session, and how it is closed.
ghost use Rattle.std.specs.Prelude.{◌≡◌, ℕ, ◌≤◌, false, [], All, length, slice_index, IfSome, IfNone, IfOk, OnOk, IfErr};
ghost use Rattle.std.specs.Arc.{arc_value};
ghost use Rattle.crossbeam_queue.specs.Passes.{view, IsPassOf};
ghost use Rattle.tk_record.specs.Mixing.{IsWorkerOf, Mix};
ghost use Rattle.tk_queue_session.specs.Core.{worker_of, entries};
ghost use Rattle.tk_queue_session.specs.PassViews.{pass_of_receiver};
ghost use Rattle.tk_queue_session.specs.Receivers.{fresh_receiver, takes, MayBeTaken, IsRecordable, NothingWaited, is_marked};
ghost use Rattle.tk_queue_session.specs.Tokens.{sent_by};
ghost use Rattle.tk_queue_session.specs.Closing.{IsComplete, EndWithMarks, sent_in};

use crate::close_faults::{CloseFault, CloseReason};
use crate::items::Item;
use crate::limits::WORKER_SLOTS;
use crate::senders::Ended;
use crate::session_rules::{AllSent, EventQueue, JoinSender, QueuePass, ReceiverPop};
use crate::tokens::{
    emitted_by_worker, first_undrained, first_with_two_tokens, first_without_token,
};
use std::alloc::Global;
use std::marker::Model;
use std::sync::{Arc, Wait};
use tk_base::MAX_WORKERS;
use tk_ids::Table;

/// Takes the items of a session. Contracts see the session, its table, its number of workers and
/// the list of what was taken.
#[derive(Drop)]
pub struct Receiver {
    queue: Arc<EventQueue, Global>,
    pass: QueuePass,
    table: Arc<Table>,
    workers: u8,
    // Whether the mark of the worker with this number was taken.
    marked: [bool; WORKER_SLOTS],
}

impl Model for Receiver {
    ghost use Rattle.std.specs.Prelude.{◌≡◌};
    ghost use Rattle.std.specs.Arc.{arc_value};
    ghost use Rattle.crossbeam_queue.specs.Passes.{view as seen, IsPassOf};
    ghost use Rattle.tk_queue_session.specs.Receivers.{ReceiverView, IsReceiver, taken_of};

    ghost Value = { ReceiverView };

    ghost view = { λ r. record {
      session = r.pass.table_id;
      table = arc_value r.table;
      workers = r.workers;
      taken = taken_of (seen r.pass);
    } };

    ghost invariant = { λ r. IsPassOf (arc_value r.queue) r.pass
        × IsReceiver (seen r.pass) (arc_value r.table) r.workers r.marked };
}

/// How many events each worker of a closed session emitted. Contracts see the session, and by the
/// workers' numbers what each worker sent and how many events that were.
#[derive(Drop)]
pub struct Closed {
    // It names the session, and no step is made with it.
    pass: QueuePass,
    emitted: [u64; WORKER_SLOTS],
}

impl Model for Closed {
    ghost use Rattle.std.specs.Prelude.{◌≡◌, length};
    ghost use Rattle.crossbeam_queue.specs.Passes.{view as seen};
    ghost use Rattle.tk_queue_session.specs.Limits.{worker_slots};
    ghost use Rattle.tk_queue_session.specs.Closing.{ClosedView, lists_of};

    ghost Value = { ClosedView };

    ghost view = { λ c. record {
      session = c.pass.table_id;
      lists = lists_of (seen c.pass);
      emitted = c.emitted;
    } };

    ghost invariant = { λ c. length c.emitted ≡ worker_slots };
}

impl Closed {
    /// Returns how many events the worker emitted, or 0 for a number that is no worker's.
    pub fn emitted(&self, worker: u8) -> u64
        ensures { result ≡ slice_index self.now.emitted worker }
    {
        if (worker as usize) < WORKER_SLOTS {
            self.emitted[worker as usize]
        } else {
            0
        }
    }
}

impl Receiver {
    ghost use Rattle.tk_queue_session.specs.Closing.{IsCloseFault};

    /// Makes the receiver of a session in which nothing was taken.
    pub(crate) fn with_pass(
        queue: Arc<EventQueue, Global>,
        pass: QueuePass,
        table: Arc<Table>,
        workers: u8,
    ) -> Receiver
        requires queue { IsPassOf (arc_value queue) pass }
        requires fresh { view pass ≡ pass_of_receiver (length (arc_value table)) workers [] [] }
        requires few { workers ≤ MAX_WORKERS }
        ensures { result ≡ fresh_receiver pass.table_id (arc_value table) workers }
    {
        Receiver {
            queue,
            pass,
            table,
            workers,
            marked: [false; WORKER_SLOTS],
        }
    }

    /// Takes the first item that waits, or returns `None` where the queue was empty at one moment
    /// of the call; `empty` then names a state of the core in which nothing waits. Nothing of a worker
    /// is taken after its mark.
    pub fn take<R: Wait>(&mut self, rt: &R) -> Option<Item>
        ensures some { IfSome result (λ item. self.new ≡ takes self.old item) }
        ensures worker { IfSome result (λ item. IsWorkerOf self.old.workers (worker_of item)) }
        ensures follows { IfSome result (λ item. MayBeTaken self.old item) }
        ensures unmarked { IfSome result (λ item.
            is_marked (worker_of item) self.old.taken ≡ false) }
        ensures recordable { IsRecordable self.new.workers (entries self.new.taken) }
        ensures none { IfNone result (self.new ≡ self.old) }
        ensures empty { IfNone result (NothingWaited self.old) }
    {
        match self.queue.pop_as::<ReceiverPop, R>(rt, &mut self.pass) {
            Some(Item::End(worker)) => {
                self.marked[worker as usize] = true;
                Some(Item::End(worker))
            }
            Some(Item::Entry(entry)) => Some(Item::Entry(entry)),
            None => None,
        }
    }

    // Finds the first reason not to close the session with these tokens.
    fn why_not_closed(&self, ended: &[Ended]) -> Option<CloseReason>
        ensures ok { IfNone result (IsComplete self.now ended.now) }
        ensures fault { IfSome result (λ why. IsCloseFault why self.now ended.now) }
    {
        if let Some(worker) = first_without_token(ended, self.workers) {
            return Some(CloseReason::Missing(worker));
        }
        if let Some(worker) = first_with_two_tokens(ended, self.workers) {
            return Some(CloseReason::Twice(worker));
        }
        let worker = first_undrained(&self.marked, self.workers)?;
        Some(CloseReason::NotDrained(worker))
    }

    // Takes the tokens in, and with them what the queue's rule knows of the whole session.
    fn join(self, ended: Vec<Ended>) -> Closed
        requires session { All (λ token. token.session ≡ self.session) ended.items }
        requires complete { IsComplete self ended.items }
        ensures mix { Mix self.workers (entries self.taken) (sent_by ended.items) }
        ensures marks { EndWithMarks self ended.items }
        ensures session { result.session ≡ self.session }
        ensures sent { (w : ℕ) → sent_in result w ≡ sent_by ended.items w }
        ensures each { (w : ℕ) → IsWorkerOf self.workers w
            → slice_index result.emitted w ≡ length (sent_by ended.items w) }
        ensures others { (w : ℕ) → ¬ IsWorkerOf self.workers w → slice_index result.emitted w ≡ 0 }
    {
        let emitted = emitted_by_worker(&ended, self.workers);
        let Receiver {
            queue,
            mut pass,
            table: _,
            workers: _,
            marked: _,
        } = self;
        for token in ended {
            queue.absorb::<JoinSender>(&mut pass, token.into_pass());
        }
        queue.learn_as::<AllSent>(&mut pass);
        Closed { pass, emitted }
    }

    /// Closes the session, where each worker's token is there once and each end mark was taken.
    ///
    /// What was taken is then what the workers emitted: of each worker its events in its own order,
    /// then its mark, and nothing after it. `ended` must be tokens of this session.
    ///
    /// # Errors
    /// The first reason in the order of `CloseReason`, of the least worker, with the receiver and
    /// the tokens.
    pub fn close(self, ended: Vec<Ended>) -> Result<Closed, CloseFault>
        requires { All (λ token. token.session ≡ self.session) ended.items }
        ensures complete { OnOk result (IsComplete self ended.items) }
        ensures mix { OnOk result (Mix self.workers (entries self.taken) (sent_by ended.items)) }
        ensures marks { OnOk result (EndWithMarks self ended.items) }
        ensures session { IfOk result (λ closed. closed.session ≡ self.session) }
        ensures sent { IfOk result (λ closed. (w : ℕ) → sent_in closed w ≡ sent_by ended.items w) }
        ensures each { IfOk result (λ closed. (w : ℕ) → IsWorkerOf self.workers w
            → slice_index closed.emitted w ≡ length (sent_by ended.items w)) }
        ensures others { IfOk result (λ closed.
            (w : ℕ) → ¬ IsWorkerOf self.workers w → slice_index closed.emitted w ≡ 0) }
        ensures fault { IfErr result (λ fault. IsCloseFault fault.why self ended.items) }
        ensures back { IfErr result (λ fault.
            (fault.receiver ≡ self) × (fault.ended.items ≡ ended.items)) }
    {
        if let Some(why) = self.why_not_closed(&ended) {
            return Err(CloseFault {
                why,
                receiver: self,
                ended,
            });
        }
        Ok(self.join(ended))
    }
}

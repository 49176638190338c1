//! The workers that are still to start.
ghost use Rattle.std.specs.Prelude.{◌≡◌, length, vec_len, IfSome, IfNone};
ghost use Rattle.tk_engine_execute.specs.steps.Workers.{IsLastWorker};

use crate::workers::WorkerHandles;
use tk_claims::ClaimSeat;
use tk_locks::BookSeat;
use tk_queue_session::Sender;

/// The workers whose threads are not started yet: the sender and the seats of each, in the order of
/// their numbers.
#[derive(Drop)]
pub(crate) struct UnstartedWorkers {
    pub senders: Vec<Sender>,
    pub claim_seats: Vec<ClaimSeat>,
    pub book_seats: Vec<BookSeat>,
}

impl UnstartedWorkers {
    /// Removes the last worker, and returns its handles.
    pub(crate) fn take(&mut self) -> Option<WorkerHandles>
        requires claim_seats { length self.old.claim_seats.items ≡ length self.old.senders.items }
        requires book_seats { length self.old.book_seats.items ≡ length self.old.senders.items }
        ensures some { IfSome result (λ h. IsLastWorker self.old self.new h) }
        ensures none { IfNone result (vec_len self.old.senders ≡ 0) }
    {
        let book_seat = self.book_seats.pop()?;
        let claim_seat = self.claim_seats.pop()?;
        let sender = self.senders.pop()?;
        Some(WorkerHandles {
            sender,
            claim_seat,
            book_seat,
        })
    }
}

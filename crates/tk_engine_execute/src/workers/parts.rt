//! What the workers of a run have left, part by part.
ghost use Rattle.std.specs.Prelude.{◌≡◌, ◌<◌, ◌≤◌, ◌∷◌, [], ◌++◌, length, vec_len, vec_capacity, IfOk};
ghost use Rattle.std.specs.Option.{option_or};
ghost use Rattle.tk_engine_execute.specs.steps.WorkerParts.{HasRoomFor, AreParts};

use crate::engines::UnitFault;
use crate::workers::WorkerEnd;
use std::alloc::{AllocError, Global};
use tk_claims::ClaimSeat;
use tk_queue_session::Ended;

/// The tokens and the seats of the workers, in the order of the workers, and the first failure.
#[derive(Drop)]
pub(crate) struct WorkerParts {
    pub tokens: Vec<Ended>,
    pub seats: Vec<ClaimSeat>,
    pub failure: Option<(u32, UnitFault)>,
}

impl WorkerParts {
    /// Makes room for the parts of this number of workers. So no memory is needed when they have
    /// ended.
    pub(crate) fn with_capacity(alloc: Global, workers: usize) -> Result<WorkerParts, AllocError>
        ensures { IfOk result (HasRoomFor workers) }
    {
        let tokens = Vec::with_capacity(alloc, workers)?;
        let seats = Vec::with_capacity(alloc, workers)?;
        Ok(WorkerParts {
            tokens,
            seats,
            failure: None,
        })
    }

    // Adds the parts of the next worker.
    fn add(&mut self, worker_end: WorkerEnd)
        requires token_room { vec_len self.old.tokens < vec_capacity self.old.tokens }
        requires seat_room { vec_len self.old.seats < vec_capacity self.old.seats }
        ensures tokens { self.new.tokens.items ≡ self.old.tokens.items ++ worker_end.ended ∷ [] }
        ensures seats { self.new.seats.items ≡ self.old.seats.items ++ worker_end.claim_seat ∷ [] }
        ensures failure { self.new.failure ≡ option_or self.old.failure worker_end.failure }
        ensures token_capacity { vec_capacity self.new.tokens ≡ vec_capacity self.old.tokens }
        ensures seat_capacity { vec_capacity self.new.seats ≡ vec_capacity self.old.seats }
    {
        let WorkerEnd {
            ended,
            claim_seat,
            failure,
        } = worker_end;
        self.tokens.push_reserved(ended);
        self.seats.push_reserved(claim_seat);
        let first = self.failure.take();
        self.failure = first.or(failure);
    }

    /// Adds the parts of all workers, where there is room for them.
    pub(crate) fn with_all(self, worker_ends: Vec<WorkerEnd>) -> WorkerParts
        requires { HasRoomFor (length worker_ends.items) self }
        ensures { AreParts worker_ends.items result }
    {
        let mut parts = self;
        for worker_end in worker_ends {
            parts.add(worker_end);
        }
        parts
    }
}

//! The core of a session's queue, as a plain machine without threads.
ghost use Rattle.std.specs.Prelude.{◌≡◌, ◌<◌, ◌≤◌, ◌∷◌, [], true, false, IfOk, OnOk, OnErr, IfErr, MatchOption, MatchResult, length, Some};
ghost use Rattle.tk_record.specs.Mixing.{IsWorkerOf};
ghost use Rattle.tk_queue_session.specs.CoreState.{has_ended, emits, ends, fresh, with_first, IsCoreFault};
ghost use Rattle.tk_queue_session.specs.FaultTexts.{core_fault_text};

use crate::items::Item;
use crate::limits::WORKER_SLOTS;
use std::alloc::{AllocError, AllocFailed, Global};
use std::collections::VecDeque;
use std::error::Error;
use std::fmt;
use std::marker::Model;
use tk_base::MAX_WORKERS;
use tk_events::{Entry, Event};

/// Why the core refuses a worker's event or end mark.
#[derive(Clone, Copy, Debug, PartialEq, Eq)]
pub enum CoreFault {
    /// The session has no worker of this number.
    Worker,
    /// The worker has ended.
    AfterEnd,
    /// A request for memory was refused.
    Memory,
}

impl fmt::Display for CoreFault {
    ghost output = { λ fault. Some (core_fault_text fault) };

    fn fmt<W: fmt::Write>(&self, f: &mut fmt::Formatter<W>) -> fmt::Result {
        match self {
            CoreFault::Worker => f.write_str("no such worker"),
            CoreFault::AfterEnd => f.write_str("worker has ended"),
            CoreFault::Memory => f.write_str("out of memory"),
        }
    }
}

impl Error for CoreFault {}

impl From<AllocError> for CoreFault {
    ghost use Rattle.tk_queue_session.specs.declared.cores.CoreFault.TheVariants.{Memory};

    ghost from_gives = { λ _ e. e ≡ Memory };

    fn from(_: AllocError) -> CoreFault {
        CoreFault::Memory
    }
}

impl<T: Drop> From<AllocFailed<T>> for CoreFault {
    ghost use Rattle.tk_queue_session.specs.declared.cores.CoreFault.TheVariants.{Memory};

    ghost from_gives = { λ _ e. e ≡ Memory };

    fn from(_: AllocFailed<T>) -> CoreFault {
        CoreFault::Memory
    }
}

/// The items of a session that wait to be taken, and which workers have ended. It has no capacity.
#[derive(Drop)]
pub struct Core {
    workers: u8,
    ended: [bool; WORKER_SLOTS],
    waiting: VecDeque<Item>,
}

impl Model for Core {
    ghost use Rattle.std.specs.Prelude.{◌≤◌, ◌≡◌, length};
    ghost use Rattle.tk_queue_session.specs.Limits.{most_workers, worker_slots};
    ghost use Rattle.tk_queue_session.specs.CoreState.{CoreState};

    ghost Value = { CoreState };

    ghost view = { λ c.
        record { workers = c.workers; ended = c.ended; waiting = c.waiting.items } };

    ghost invariant = { λ c. (c.workers ≤ most_workers) × (length c.ended ≡ worker_slots) };
}

impl Core {
    /// Makes the core of a session of the workers 1 to `workers`, none of which has emitted
    /// anything.
    pub fn new(alloc: Global, workers: u8) -> Core
        requires { (0 < workers) × (workers ≤ MAX_WORKERS) }
        ensures { result ≡ fresh workers }
    {
        Core {
            workers,
            ended: [false; WORKER_SLOTS],
            waiting: VecDeque::new(alloc),
        }
    }

    // Refuses a worker that is none of the session, or that has ended.
    fn check(&self, worker: u8) -> Result<(), CoreFault>
        ensures ok { OnOk result
            (IsWorkerOf self.now.workers worker × (has_ended self.now worker ≡ false)) }
        ensures err { IfErr result (λ fault. IsCoreFault self.now worker fault) }
    {
        if worker == 0 || self.workers < worker {
            return Err(CoreFault::Worker);
        }
        if self.ended[worker as usize] {
            return Err(CoreFault::AfterEnd);
        }
        Ok(())
    }

    /// Puts an event of the worker after the items that wait.
    ///
    /// # Errors
    /// The fault, and the event. The core is then unchanged.
    pub fn emit(&mut self, worker: u8, event: Event) -> Result<(), (CoreFault, Event)>
        ensures ok { OnOk result
            (IsWorkerOf self.old.workers worker × (has_ended self.old worker ≡ false)
            × (self.new ≡ emits worker event self.old)) }
        ensures err { IfErr result (λ refused.
            IsCoreFault self.old worker refused.0 × (refused.1 ≡ event)) }
        ensures kept { OnErr result (self.new ≡ self.old) }
    {
        if let Err(fault) = self.check(worker) {
            return Err((fault, event));
        }
        match self.waiting.push_back(Item::Entry(Entry { worker, event })) {
            Ok(()) => Ok(()),
            Err(refused) => match refused.value {
                // No allocation failed here: that of the waiting items did.
                Item::Entry(entry) => Err((CoreFault::Memory, entry.event)),
                Item::End(_) => unreachable!(),
            },
        }
    }

    /// Puts the worker's end mark after the items that wait, after which it may emit nothing.
    ///
    /// # Errors
    /// The fault. The core is then unchanged.
    pub fn end(&mut self, worker: u8) -> Result<(), CoreFault>
        ensures ok { OnOk result
            (IsWorkerOf self.old.workers worker × (has_ended self.old worker ≡ false)
            × (self.new ≡ ends worker self.old)) }
        ensures err { IfErr result (λ fault. IsCoreFault self.old worker fault) }
        ensures kept { OnErr result (self.new ≡ self.old) }
    {
        self.check(worker)?;
        self.waiting.push_back(Item::End(worker))?;
        self.ended[worker as usize] = true;
        Ok(())
    }

    /// Takes the first item that waits, or returns `None` where none waits.
    pub fn take(&mut self) -> Option<Item>
        ensures { MatchOption result ((self.old.waiting ≡ []) × (self.new ≡ self.old))
            (λ item. self.old ≡ with_first item self.new) }
    {
        self.waiting.pop_front()
    }

    /// Returns how many items wait.
    pub fn waiting(&self) -> usize
        ensures { result ≡ length self.now.waiting }
    {
        self.waiting.len()
    }

    /// Gives the items that wait, in their order.
    ///
    /// # Errors
    /// `AllocError` where a request for memory is refused.
    pub fn into_waiting(self, alloc: Global) -> Result<Vec<Item>, AllocError>
        ensures { IfOk result (λ items. items.items ≡ self.waiting) }
    {
        self.waiting.into_iter().collect(alloc)
    }
}

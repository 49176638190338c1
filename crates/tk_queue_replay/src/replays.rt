//! Replays of scripts by turns.
ghost use Rattle.std.specs.Prelude.{◌≡◌, ◌<◌, ◌≤◌, ◌-◌, ◌⊎◌, ℕ, List, [], map, All, true, false, Ok, Err, IfOk, OnOk, OnErr, IfErr, slice_get, length, Some};
ghost use Rattle.std.specs.Arc.{arc_value};
ghost use Rattle.tk_record.specs.Entries.{with_entry};
ghost use Rattle.tk_record.specs.Mixing.{IsWorkerOf};
ghost use Rattle.tk_queue_session.specs.CoreState.{has_ended, fresh};
ghost use Rattle.tk_queue_replay.specs.Replay.{IsReplayed, IsTurn, next, count_of, take_item, turn_step, Refuses, start};
ghost use Rattle.tk_queue_replay.specs.steps.Replay.{refusal, IsStop, Suits, IsMemory};
ghost use Rattle.tk_queue_replay.specs.FaultTexts.{replay_fault_text};
ghost use Rattle.tk_queue_replay.specs.declared.replays.ReplayFault.TheVariants.{Memory};

use crate::turns::Turn;
use std::alloc::{AllocError, AllocFailed, Global};
use std::error::Error;
use std::fmt;
use std::marker::Model;
use std::sync::Arc;
use tk_base::MAX_WORKERS;
use tk_events::Event;
use tk_ids::Table;
use tk_queue_session::{Core, CoreFault, Item};
use tk_record::{AppendFault, Record};
use tk_record_text::{NodesFault, WriteFault};
use tk_streams::LoadFault;

/// Why a replay has no result.
#[derive(Debug, Drop)]
pub enum ReplayFault {
    /// The text doesn't begin with the header line of a version.
    NoHeader,
    /// The line of this number, counted from 1, is none that may stand there.
    BadLine(usize),
    /// The turn of this number, counted from 0, is of a worker that has ended.
    AfterEnd(usize),
    /// The record refuses the entry that the turn of this number, counted from 0, takes.
    Append(usize, AppendFault),
    /// The text has more than 16 MiB.
    TooLarge,
    /// The source or the target is broken.
    Device,
    /// A request for memory was refused.
    Memory,
}

impl fmt::Display for ReplayFault {
    ghost output = { λ fault. Some (replay_fault_text fault) };

    fn fmt<W: fmt::Write>(&self, f: &mut fmt::Formatter<W>) -> fmt::Result {
        match self {
            ReplayFault::NoHeader => f.write_str("no header"),
            ReplayFault::BadLine(line) => write!(f, "line {line} is bad"),
            ReplayFault::AfterEnd(step) => write!(f, "step {step} comes after the end mark"),
            ReplayFault::Append(step, fault) => write!(f, "step {step} {fault}"),
            ReplayFault::TooLarge => f.write_str("input too large"),
            ReplayFault::Device => f.write_str("device failed"),
            ReplayFault::Memory => f.write_str("out of memory"),
        }
    }
}

impl Error for ReplayFault {}

impl From<AllocError> for ReplayFault {
    ghost from_gives = { λ _ e. e ≡ Memory };

    fn from(_e: AllocError) -> ReplayFault {
        ReplayFault::Memory
    }
}

impl<T: Drop> From<AllocFailed<T>> for ReplayFault {
    ghost from_gives = { λ _ e. e ≡ Memory };

    fn from(_e: AllocFailed<T>) -> ReplayFault {
        ReplayFault::Memory
    }
}

impl From<LoadFault> for ReplayFault {
    ghost use Rattle.tk_queue_replay.specs.ReplayText.{load_fault};

    ghost from_gives = { λ f e. e ≡ load_fault f };

    fn from(e: LoadFault) -> ReplayFault {
        match e {
            LoadFault::TooLarge => ReplayFault::TooLarge,
            LoadFault::Device => ReplayFault::Device,
            LoadFault::Memory => ReplayFault::Memory,
        }
    }
}

impl From<NodesFault> for ReplayFault {
    ghost use Rattle.tk_queue_replay.specs.ReplayText.{nodes_fault};

    ghost from_gives = { λ f e. e ≡ nodes_fault f };

    fn from(e: NodesFault) -> ReplayFault {
        match e {
            NodesFault::BadLine(number) => ReplayFault::BadLine(number),
            NodesFault::Memory => ReplayFault::Memory,
        }
    }
}

impl From<WriteFault> for ReplayFault {
    ghost use Rattle.tk_queue_replay.specs.ReplayText.{write_fault};

    ghost from_gives = { λ f e. e ≡ write_fault f };

    fn from(e: WriteFault) -> ReplayFault {
        match e {
            WriteFault::Device => ReplayFault::Device,
            WriteFault::Memory => ReplayFault::Memory,
        }
    }
}

/// What a replay ends with.
#[derive(Drop)]
pub struct Replayed {
    /// The record of the entries that were taken.
    pub taken: Record,
    /// The items that still wait, in their order.
    pub waiting: Vec<Item>,
    /// How many events each worker emitted, beginning with worker 1.
    pub emitted: Vec<usize>,
}

// A replay after some of its turns.
#[derive(Drop)]
struct Playing {
    core: Core,
    emitted: Vec<usize>,
    taken: Record,
}

impl Model for Playing {
    ghost use Rattle.tk_queue_replay.specs.Replay.{Moment};

    ghost Value = { Moment };

    ghost view = { λ p. record { core = p.core; emitted = p.emitted.items; taken = p.taken } };
}

// Copies the event of this number, where the script has it.
fn copy_event(alloc: Global, script: &[Event], count: usize) -> Result<Option<Event>, AllocError>
    ensures { IfOk result (λ event. event ≡ slice_get script.now count) }
{
    match script.get(count) {
        Some(event) => Ok(Some(event.try_clone(alloc)?)),
        None => Ok(None),
    }
}

impl Playing {
    // Does a turn of the worker: its next event, or its end mark after the last.
    fn work(&mut self, alloc: Global, script: &[Event], worker: u8) -> Result<(), CoreFault>
        requires worker { IsWorkerOf self.old.core.workers worker }
        requires counted { worker ≤ length self.old.emitted }
        ensures ok { OnOk result ((has_ended self.old.core worker ≡ false)
            × (self.new
            ≡ next worker self.old (slice_get script.now (count_of self.old worker)))) }
        ensures err { IfErr result (λ fault.
            ((fault ≡ CoreFault.AfterEnd) × (has_ended self.old.core worker ≡ true))
            ⊎ (fault ≡ CoreFault.Memory)) }
    {
        let slot = worker as usize - 1;
        let count = self.emitted[slot];
        match copy_event(alloc, script, count)? {
            Some(event) => match self.core.emit(worker, event) {
                Ok(()) => {
                    self.emitted[slot] = count + 1;
                    Ok(())
                }
                Err((fault, event)) => {
                    drop(event);
                    Err(fault)
                }
            },
            None => self.core.end(worker),
        }
    }

    // Does the turn that takes an item, and records its entry.
    fn take(&mut self) -> Result<(), AppendFault>
        ensures ok { OnOk result (take_item self.old self.old.core.waiting ≡ Ok self.new) }
        ensures err { IfErr result (λ fault.
            (take_item self.old self.old.core.waiting ≡ Err (Refuses fault)) ⊎ IsMemory fault) }
    {
        match self.core.take() {
            None => Ok(()),
            Some(Item::End(_)) => Ok(()),
            Some(Item::Entry(entry)) => self.taken.append(entry),
        }
    }

    // Does the turn of this number.
    fn turn(
        &mut self,
        alloc: Global,
        scripts: &[Vec<Event>],
        number: usize,
        turn: Turn,
    ) -> Result<(), ReplayFault>
        requires turn { IsTurn (length scripts.now) turn }
        requires suits { Suits self.old (map (λ s. s.items) scripts.now) }
        ensures ok { OnOk result
            (turn_step (map (λ s. s.items) scripts.now) self.old turn ≡ Ok self.new) }
        ensures suits { OnOk result (Suits self.new (map (λ s. s.items) scripts.now)) }
        ensures err { IfErr result (λ fault.
            IsStop number (turn_step (map (λ s. s.items) scripts.now) self.old turn) fault) }
    {
        match turn {
            Turn::Worker(worker) => {
                let script = &scripts[worker as usize - 1];
                match self.work(alloc, script.as_slice(), worker) {
                    Ok(()) => Ok(()),
                    Err(CoreFault::AfterEnd) => Err(ReplayFault::AfterEnd(number)),
                    Err(CoreFault::Memory) => Err(ReplayFault::Memory),
                    Err(CoreFault::Worker) => unreachable!(),
                }
            }
            Turn::Take => match self.take() {
                Ok(()) => Ok(()),
                Err(fault) => Err(refused(number, fault)),
            },
        }
    }
}

// Tells why the turn of this number stops, where the record refuses its entry.
fn refused(number: usize, fault: AppendFault) -> ReplayFault
    ensures { result ≡ refusal number fault }
{
    match fault {
        AppendFault::Memory(_) => ReplayFault::Memory,
        fault => ReplayFault::Append(number, fault),
    }
}

/// Replays the turns over a core and a record of `table`.
///
/// `scripts[i]` are the events of worker i + 1: its turns emit them in order, then its end mark.
/// There must be 1 to `MAX_WORKERS` scripts, and each turn of a worker must be of one of them.
///
/// # Errors
/// `AfterEnd(n)` or `Append(n, fault)` of the first turn that stops, or `Memory`.
pub fn replay(
    alloc: Global,
    table: Arc<Table>,
    scripts: &[Vec<Event>],
    turns: &[Turn],
) -> Result<Replayed, ReplayFault>
    requires workers { (0 < length scripts.now) × (length scripts.now ≤ MAX_WORKERS) }
    requires turns { All (IsTurn (length scripts.now)) turns.now }
    ensures { IsReplayed (arc_value table) (map (λ s. s.items) scripts.now) turns.now result }
{
    let emitted = Vec::from_elem(alloc, 0, scripts.len())?;
    let mut playing = Playing {
        core: Core::new(alloc, scripts.len() as u8),
        emitted,
        taken: Record::new(alloc, table),
    };
    'turns: for (number, turn) in turns.iter().enumerate() {
        playing.turn(alloc, scripts, number, *turn)?;
    }
    let Playing {
        core,
        emitted,
        taken,
    } = playing;
    let waiting = core.into_waiting(alloc)?;
    Ok(Replayed {
        taken,
        waiting,
        emitted,
    })
}

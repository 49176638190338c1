//! Engines of two lists of steps, one for unit 0 and one for each other unit.
ghost use Rattle.std.specs.Prelude.{◌≡◌, ◌<◌, ◌≤◌, [], if◌then◌else◌, length, nat_eq, replicate};
ghost use Rattle.std.specs.Arc.{arc_value};
ghost use Rattle.tk_engine_execute.specs.Grown.{Grew};
ghost use Rattle.tk_events.specs.declared.kinds.Kind.TheVariants.{Started};
ghost use Rattle.tk_events.specs.declared.payloads.Payload.TheVariants.{Nothing};

use std::alloc::{AllocError, Global};
use std::sync::atomic::{AtomicU64, Ordering};
use std::sync::{Arc, Wait};
use std::thread;
use test_support::start;
use tk_engine_execute::{Engine, Sink, UnitFault};
use tk_events::{Event, Kind, Outcome, Payload};
use tk_ids::{DType, Segment, Table};
use tk_locks::{BookSeat, Need};

/// What a unit does next.
#[derive(Clone, Copy)]
pub enum UnitStep {
    /// Emits a start of the root with this stamp.
    Start(u64),
    /// Emits a start of the descriptor with this key.
    StartOf(u32),
    /// Emits a successful finish of the descriptor with this key.
    FinishOf(u32),
    /// Counts as a unit that has begun.
    Begin,
    /// Counts as a unit that has come to its end.
    End,
    /// Waits until the first number of units have begun, at most 10,000,000 turns, and then fails
    /// with the second.
    Await(u32, u32),
    /// Counts as begun for 100,000 turns, and fails with this number if another unit has begun
    /// meanwhile.
    Alone(u32),
    /// Fails with this number.
    Fail(u32),
    /// Fails as if memory had been refused.
    FailForMemory,
    /// Fails with a thousand times the number of its worker and the number of the unit.
    FailAsWorker,
}

/// The units of an engine: how many there are, and what they do. Unit 0 does the first list of steps
/// under the first need, and each other unit the second list under the second need. Before all units
/// there are starts of the root.
#[derive(Clone, Copy)]
pub struct Units<'a> {
    pub starts_before: u32,
    pub count: u32,
    pub need: Need,
    pub need_of_others: Need,
    pub first: &'a [UnitStep],
    pub others: &'a [UnitStep],
}

impl<'a> Units<'a> {
    /// Units that run side by side. Unit 0 does the first steps, each other unit the second.
    pub fn beside(count: u32, first: &'a [UnitStep], others: &'a [UnitStep]) -> Units<'a> {
        Units {
            starts_before: 0,
            count,
            need: Need::of(1, 0),
            need_of_others: Need::of(1, 0),
            first,
            others,
        }
    }

    /// Units that run side by side, and do the same steps.
    pub fn alike(count: u32, steps: &'a [UnitStep]) -> Units<'a> {
        Units::beside(count, steps, steps)
    }
}

/// How often an engine was asked for some events, and the bits of the units that had come to their
/// end when it was asked last.
#[derive(Clone, Copy, PartialEq, Eq)]
pub struct Asked {
    pub times: u64,
    pub ended: u64,
}

/// What an engine saw of a run: the sum of a bit for each unit that began and that came to its end,
/// and how it was asked for the events before and after its units. Each of 60 units has its own bit.
#[derive(Clone, Copy)]
pub struct Seen {
    pub begun: u64,
    pub ended: u64,
    pub before: Asked,
    pub after: Asked,
}

#[derive(Drop)]
struct AskedCounter {
    times: AtomicU64,
    ended: AtomicU64,
}

impl AskedCounter {
    fn new() -> AskedCounter {
        AskedCounter {
            times: AtomicU64::new(0),
            ended: AtomicU64::new(0),
        }
    }

    fn note(&self, ended: u64) {
        self.times.fetch_add(1, Ordering::SeqCst);
        self.ended.store(ended, Ordering::SeqCst);
    }

    fn asked(&self) -> Asked {
        Asked {
            times: self.times.load(Ordering::SeqCst),
            ended: self.ended.load(Ordering::SeqCst),
        }
    }
}

/// An engine of such units, over a table of a root and two tests below it.
#[derive(Drop)]
pub struct StepEngine<'a> {
    table: Arc<Table>,
    segment: Segment,
    starts_before: u32,
    units: u32,
    need: Need,
    need_of_others: Need,
    first: &'a [UnitStep],
    others: &'a [UnitStep],
    begun: AtomicU64,
    ended: AtomicU64,
    before: AskedCounter,
    after: AskedCounter,
    ghost few: { units ≤ 65536 },
    ghost few_before: { starts_before ≤ 1048576 },
    ghost rooted: { 0 < length (arc_value table) },
}

// Adds a descriptor, whose name is its segment's value, and returns its key.
fn add(
    alloc: Global,
    table: &mut Table,
    parent: Option<u32>,
    segment: (&str, &str),
    dtype: DType,
) -> Option<u32> {
    let (tag, value) = segment;
    let segment = Segment::new(alloc, tag, value).ok()?;
    table.add(alloc, parent, &segment, value, dtype).ok()
}

// A root, with key 0, and two tests below it.
fn two_tests(alloc: Global) -> Option<Arc<Table>> {
    let mut table = Table::new(alloc);
    let root = add(alloc, &mut table, None, ("engine", "e"), DType::Container)?;
    for value in ["1", "2"] {
        let _key = add(alloc, &mut table, Some(root), ("t", value), DType::Test)?;
    }
    Arc::new(alloc, table).ok()
}

/// Makes an engine of at most 65,536 units and 1,048,576 starts before them; none where there are
/// more, or memory was refused.
pub fn engine<'a>(alloc: Global, units: &Units<'a>) -> Option<StepEngine<'a>> {
    if units.count > 65_536 || units.starts_before > 1_048_576 {
        return None;
    }
    let segment = Segment::new(alloc, "d", "1").ok()?;
    let table = two_tests(alloc)?;
    if table.len() == 0 {
        return None;
    }
    Some(StepEngine {
        table,
        segment,
        starts_before: units.starts_before,
        units: units.count,
        need: units.need,
        need_of_others: units.need_of_others,
        first: units.first,
        others: units.others,
        begun: AtomicU64::new(0),
        ended: AtomicU64::new(0),
        before: AskedCounter::new(),
        after: AskedCounter::new(),
    })
}

// The bit of a unit.
fn bit(unit: u32) -> u64 {
    1u64 << (unit % 64)
}

impl StepEngine<'_> {
    /// What the engine has seen so far.
    pub fn seen(&self) -> Seen {
        Seen {
            begun: self.begun.load(Ordering::SeqCst),
            ended: self.ended.load(Ordering::SeqCst),
            before: self.before.asked(),
            after: self.after.asked(),
        }
    }

    // Whether `units` units begin within 10,000,000 turns.
    fn have_begun(&self, units: u32) -> bool {
        for _ in 0..10_000_000 {
            if self.begun.load(Ordering::SeqCst).count_ones() >= units {
                return true;
            }
            thread::yield_now();
        }
        false
    }

    // Whether no other unit has begun, or begins within 100,000 turns.
    fn is_alone(&self, unit: u32) -> bool {
        self.begun.fetch_add(bit(unit), Ordering::SeqCst);
        for _ in 0..100_000 {
            thread::yield_now();
        }
        self.begun.fetch_sub(bit(unit), Ordering::SeqCst) == bit(unit)
    }

    // The number with which the step of a unit fails. It emits nothing.
    fn fault_of(&self, step: UnitStep, unit: u32) -> Option<u32> {
        match step {
            UnitStep::Begin => {
                self.begun.fetch_add(bit(unit), Ordering::SeqCst);
                None
            }
            UnitStep::End => {
                self.ended.fetch_add(bit(unit), Ordering::SeqCst);
                None
            }
            UnitStep::Await(units, fault) if !self.have_begun(units) => Some(fault),
            UnitStep::Alone(fault) if !self.is_alone(unit) => Some(fault),
            UnitStep::Fail(fault) => Some(fault),
            _ => None,
        }
    }

    fn steps(&self, unit: u32) -> &[UnitStep] {
        if unit == 0 { self.first } else { self.others }
    }
}

fn finish(key: u32) -> Event {
    Event {
        kind: Kind::Finished,
        key,
        stamp: 0,
        payload: Payload::Outcome(Outcome::Successful),
    }
}

#[tactic(auto, using(tk_engine_execute::proofs::SinkGrowth::grew_same, tk_engine_execute::proofs::SinkGrowth::grew_one))]
fn emit<R: Wait, S: Sink>(rt: &R, sink: &mut S, event: Event) -> Result<(), UnitFault>
    ensures { Grew (S.view sink.old) (S.view sink.new) }
{
    sink.emit(rt, event)?;
    Ok(())
}

// Fails with the number of the sink's worker, as the key of what it registers says, and with the
// unit's.
#[tactic(auto, using(tk_engine_execute::proofs::SinkGrowth::grew_same, tk_engine_execute::proofs::SinkGrowth::grew_registered))]
fn fail_as_worker<R: Wait, S: Sink>(
    rt: &R,
    segment: &Segment,
    unit: u32,
    sink: &mut S,
) -> Result<(), UnitFault>
    ensures { Grew (S.view sink.old) (S.view sink.new) }
{
    match sink.register(rt, 0, segment, "d", DType::Test, 0) {
        Ok(key) => {
            let worker = key / 65_536;
            Err(UnitFault::Own(worker.wrapping_mul(1_000).wrapping_add(unit)))
        }
        Err(fault) => Err(UnitFault::Sink(fault)),
    }
}

#[tactic(auto, using(tk_engine_execute::proofs::SinkGrowth::grew_refl))]
fn play_one<R: Wait, S: Sink>(
    rt: &R,
    engine: &StepEngine,
    step: UnitStep,
    unit: u32,
    sink: &mut S,
) -> Result<(), UnitFault>
    ensures { Grew (S.view sink.old) (S.view sink.new) }
{
    match step {
        UnitStep::Start(stamp) => emit(rt, sink, start(0, stamp)),
        UnitStep::StartOf(key) => emit(rt, sink, start(key, 0)),
        UnitStep::FinishOf(key) => emit(rt, sink, finish(key)),
        UnitStep::FailForMemory => Err(UnitFault::Memory),
        UnitStep::FailAsWorker => fail_as_worker(rt, &engine.segment, unit, sink),
        _ => match engine.fault_of(step, unit) {
            Some(fault) => Err(UnitFault::Own(fault)),
            None => Ok(()),
        },
    }
}

#[tactic(auto, using(tk_engine_execute::proofs::SinkGrowth::grew_refl, tk_engine_execute::proofs::SinkGrowth::grew_trans))]
fn play<R: Wait, S: Sink>(
    rt: &R,
    engine: &StepEngine,
    unit: u32,
    sink: &mut S,
) -> Result<(), UnitFault>
    ensures { Grew (S.view sink.old) (S.view sink.new) }
{
    for step in engine.steps(unit) {
        play_one(rt, engine, *step, unit, sink)?;
    }
    Ok(())
}

impl Engine for StepEngine<'_> {
    ghost table = { λ e. arc_value e.table };

    ghost units = { λ e. e.units };

    ghost before = { λ e.
        replicate e.starts_before (record {
          kind = Started;
          key = 0;
          stamp = 0;
          payload = Nothing;
        }) };

    ghost after = { λ e. [] };

    ghost need = { λ e u. if nat_eq u 0 then e.need else e.need_of_others };

    ghost may = { λ e u w k l. Unit {0} };

    fn table(&self) -> &Arc<Table> {
        &self.table
    }

    fn units(&self) -> u32 {
        self.units
    }

    #[tactic(auto, using(crate::proofs::Starts::starts_are_of_worker_zero))]
    fn before(&self, alloc: Global) -> Result<Vec<Event>, AllocError> {
        self.before.note(self.ended.load(Ordering::SeqCst));
        let mut events = Vec::new(alloc);
        for _ in 0..self.starts_before {
            events.push(Event {
                kind: Kind::Started,
                key: 0,
                stamp: 0,
                payload: Payload::Nothing,
            })?;
        }
        Ok(events)
    }

    fn after(&self, alloc: Global) -> Result<Vec<Event>, AllocError> {
        self.after.note(self.ended.load(Ordering::SeqCst));
        Ok(Vec::new(alloc))
    }

    fn need(&self, unit: u32) -> Need {
        if unit == 0 {
            self.need
        } else {
            self.need_of_others
        }
    }

    fn run<R: Wait, S: Sink>(
        &self,
        rt: &R,
        _alloc: Global,
        unit: u32,
        _seat: &BookSeat,
        sink: &mut S,
    ) -> Result<(), UnitFault> {
        play(rt, self, unit, sink)
    }
}

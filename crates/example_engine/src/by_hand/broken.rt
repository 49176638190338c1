//! An engine with one of eight defects, each of which an expectation finds.
//!
//! Its suite has two tests, which declare one lock: the first publishes an entry and succeeds, and
//! then the second fails. Nothing is proved of what its unit emits: `may` allows every list.
#![tactic(auto, using(engine_testkit::proofs::SinkGrowth::grew_refl, engine_testkit::proofs::SinkGrowth::grew_trans))]

ghost use Rattle.std.specs.Prelude.{◌≡◌, ◌+◌, ◌<◌, OnOk, length};
ghost use Rattle.std.specs.Arc.{arc_value};
ghost use Rattle.engine_testkit.specs.Grown.{Grew};

use self::Step::{
    FailSecond, FinishSuite, RunFirst, RunFirstWithoutEntry, RunSecond, StartSecond, SucceedSecond,
};
use crate::by_hand::even::add;
use engine_testkit::{
    BookSeat, DType, Engine, Event, LockMode, Need, Outcome, Pairs, Sink, Table, TableFault, Text,
    UnitFault, finish, finished, report, start, started,
};
use std::alloc::{AllocError, Global};
use std::sync::{Arc, Wait};

/// What an engine does wrong.
#[derive(Clone, Copy)]
pub enum Defect {
    /// The second test finishes twice.
    FinishedTwice,
    /// The second test starts after the suite has finished.
    StartedTooLate,
    /// The second test never runs.
    TestForgotten,
    /// The first test runs while the second one does.
    LockForgotten,
    /// The second test succeeds.
    WrongOutcome,
    /// The second test has no finish.
    FinishLost,
    /// The second test runs before the first one.
    OrderSwapped,
    /// The first test publishes nothing.
    EntryMissing,
}

// The keys of the descriptors below the root.
const SUITE: u32 = 1;

const FIRST: u32 = 2;

const SECOND: u32 = 3;

// What the suite does next.
#[derive(Clone, Copy)]
enum Step {
    RunFirst,
    RunFirstWithoutEntry,
    RunSecond,
    StartSecond,
    FailSecond,
    SucceedSecond,
    FinishSuite,
}

// What the suite of an engine with this defect does.
fn steps_of(defect: Option<Defect>) -> &'static [Step] {
    match defect {
        None => &[RunFirst, RunSecond, FinishSuite],
        Some(Defect::FinishedTwice) => &[RunFirst, RunSecond, FailSecond, FinishSuite],
        Some(Defect::StartedTooLate) => &[RunFirst, FinishSuite, RunSecond],
        Some(Defect::TestForgotten) => &[RunFirst, FinishSuite],
        Some(Defect::LockForgotten) => &[StartSecond, RunFirst, FailSecond, FinishSuite],
        Some(Defect::WrongOutcome) => &[RunFirst, StartSecond, SucceedSecond, FinishSuite],
        Some(Defect::FinishLost) => &[RunFirst, StartSecond, FinishSuite],
        Some(Defect::OrderSwapped) => &[RunSecond, RunFirst, FinishSuite],
        Some(Defect::EntryMissing) => &[RunFirstWithoutEntry, RunSecond, FinishSuite],
    }
}

fn succeed<R: Wait, S: Sink>(rt: &R, key: u32, sink: &mut S) -> Result<(), UnitFault>
    ensures { Grew (S.view sink.old) (S.view sink.new) }
{
    finish(rt, key, 0, Outcome::Successful, sink)
}

fn fail_second<R: Wait, S: Sink>(rt: &R, alloc: Global, sink: &mut S) -> Result<(), UnitFault>
    ensures { Grew (S.view sink.old) (S.view sink.new) }
{
    finish(rt, SECOND, 0, Outcome::failed(alloc, "boom")?, sink)
}

fn report_rows<R: Wait, S: Sink>(rt: &R, alloc: Global, sink: &mut S) -> Result<(), UnitFault>
    ensures { Grew (S.view sink.old) (S.view sink.new) }
{
    let rows = Pairs::shared_pair(alloc, Text::copy(alloc, "rows")?, Text::copy(alloc, "2")?)?;
    report(rt, FIRST, 0, rows, sink)
}

fn run_first<R: Wait, S: Sink>(rt: &R, alloc: Global, sink: &mut S) -> Result<(), UnitFault>
    ensures { Grew (S.view sink.old) (S.view sink.new) }
{
    start(rt, FIRST, 0, sink)?;
    report_rows(rt, alloc, sink)?;
    succeed(rt, FIRST, sink)
}

fn run_first_without_entry<R: Wait, S: Sink>(rt: &R, sink: &mut S) -> Result<(), UnitFault>
    ensures { Grew (S.view sink.old) (S.view sink.new) }
{
    start(rt, FIRST, 0, sink)?;
    succeed(rt, FIRST, sink)
}

fn run_second<R: Wait, S: Sink>(rt: &R, alloc: Global, sink: &mut S) -> Result<(), UnitFault>
    ensures { Grew (S.view sink.old) (S.view sink.new) }
{
    start(rt, SECOND, 0, sink)?;
    fail_second(rt, alloc, sink)
}

fn run_step<R: Wait, S: Sink>(
    rt: &R,
    alloc: Global,
    step: Step,
    sink: &mut S,
) -> Result<(), UnitFault>
    ensures { Grew (S.view sink.old) (S.view sink.new) }
{
    match step {
        RunFirst => run_first(rt, alloc, sink),
        RunFirstWithoutEntry => run_first_without_entry(rt, sink),
        RunSecond => run_second(rt, alloc, sink),
        StartSecond => start(rt, SECOND, 0, sink),
        FailSecond => fail_second(rt, alloc, sink),
        SucceedSecond => succeed(rt, SECOND, sink),
        FinishSuite => succeed(rt, SUITE, sink),
    }
}

fn run_steps<R: Wait, S: Sink>(
    rt: &R,
    alloc: Global,
    steps: &[Step],
    sink: &mut S,
) -> Result<(), UnitFault>
    ensures { Grew (S.view sink.old) (S.view sink.new) }
{
    start(rt, SUITE, 0, sink)?;
    for step in steps {
        run_step(rt, alloc, *step, sink)?;
    }
    Ok(())
}

/// An engine of one unit, its suite.
#[derive(Drop)]
pub struct BrokenEngine {
    steps: &'static [Step],
    need: Need,
    table: Arc<Table>,
    // The root is there: events of it stand before and after the unit.
    ghost root: { 0 < length (arc_value table) },
}

/// Adds a test below the parent, which declares that it writes `db` while it runs. What a unit holds
/// while it runs is what it needs.
#[tactic(auto, using(engine_testkit::proofs::LockedTables::same_length))]
pub fn add_locked_test(
    alloc: Global,
    table: &mut Table,
    parent: u32,
    name: &str,
) -> Result<(), TableFault>
    ensures { OnOk result (length table.new ≡ length table.old + 1) }
{
    let key = add(alloc, table, Some(parent), "test", name, DType::Test)?;
    let locked = table.lock(alloc, key, "db", LockMode::ReadWrite);
    // The descriptor and the name are there, so only memory can be refused.
    locked.map_err(|_| TableFault::Memory)
}

/// Makes the engine with this defect, or with none.
pub fn broken_engine(alloc: Global, defect: Option<Defect>) -> Result<BrokenEngine, TableFault> {
    let mut table = Table::new(alloc);
    add(
        alloc,
        &mut table,
        None,
        "engine",
        "broken",
        DType::Container,
    )?;
    add(alloc, &mut table, Some(0), "suite", "all", DType::Container)?;
    add_locked_test(alloc, &mut table, SUITE, "first")?;
    add_locked_test(alloc, &mut table, SUITE, "second")?;
    let (steps, need) = (steps_of(defect), Need::none());
    let table = Arc::new(alloc, table)?;
    Ok(BrokenEngine { steps, need, table })
}

impl Engine for BrokenEngine {
    ghost use Rattle.std.specs.Prelude.{[], ◌∷◌};
    ghost use Rattle.engine_testkit.specs.Emitted.{finished, started};
    ghost use Rattle.engine_testkit.specs.Outcome.TheVariants.{Successful};

    ghost table = { λ e. arc_value e.table };

    ghost units = { λ e. 1 };

    ghost before = { λ e. started 0 0 ∷ [] };

    ghost after = { λ e. finished 0 0 Successful ∷ [] };

    ghost need = { λ e u. e.need };

    ghost may = { λ e u w k l. Unit {0} };

    fn table(&self) -> &Arc<Table> {
        &self.table
    }

    fn units(&self) -> u32 {
        1
    }

    fn before(&self, alloc: Global) -> Result<Vec<Event>, AllocError> {
        // For the proof: the root is there.
        let _table = &self.table;
        Ok(vec![in alloc; started(0, 0)]?)
    }

    fn after(&self, alloc: Global) -> Result<Vec<Event>, AllocError> {
        // For the proof: the root is there.
        let _table = &self.table;
        Ok(vec![in alloc; finished(0, 0, Outcome::Successful)]?)
    }

    fn need(&self, _unit: u32) -> Need {
        self.need
    }

    fn run<R: Wait, S: Sink>(
        &self,
        rt: &R,
        alloc: Global,
        _unit: u32,
        _seat: &BookSeat,
        sink: &mut S,
    ) -> Result<(), UnitFault> {
        run_steps(rt, alloc, self.steps, sink)
    }
}

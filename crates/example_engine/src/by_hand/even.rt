//! An engine of one test by hand, a page to copy: is a number even?
#![tactic(auto, using(engine_testkit::proofs::Emissions::emissions))]

ghost use Rattle.std.specs.Prelude.{◌≡◌, ◌<◌, ◌≤◌, ◌+◌, ◌%◌, ◌==◌, if◌then◌else◌, [], ◌∷◌, None, IfOk, OnOk, length};
ghost use Rattle.std.specs.Arc.{arc_value};
ghost use Rattle.engine_testkit.specs.Emitted.{finished, started};
ghost use Rattle.engine_testkit.specs.Outcome.TheVariants.{Failed, Successful};

use engine_testkit::{
    BookSeat, DType, Engine, Event, Need, Outcome, Segment, Sink, Table, TableFault, UnitFault,
    finish, finished, start, started,
};
use std::alloc::{AllocError, Global};
use std::sync::{Arc, Wait};

/// Adds a descriptor whose name is the value of its segment, and returns its key.
pub(crate) fn add(
    alloc: Global,
    table: &mut Table,
    parent: Option<u32>,
    tag: &str,
    name: &str,
    dtype: DType,
) -> Result<u32, TableFault>
    ensures { OnOk result ((length table.new ≡ length table.old + 1)
        × (length table.new ≤ 65536)) }
{
    let segment = match Segment::new(alloc, tag, name) {
        Ok(segment) => segment,
        Err(fault) => return Err(TableFault::Id(fault)),
    };
    table.add(alloc, parent, &segment, name, dtype)
}

/// Its test `[engine:even]/[test:number]` succeeds where the number is even.
#[derive(Drop)]
pub struct EvenEngine {
    number: u64,
    need: Need,
    table: Arc<Table>,
    // The root is there: events of it stand before and after the unit.
    ghost root: { 0 < length (arc_value table) },
}

impl EvenEngine {
    /// Makes an engine of this number.
    ///
    /// # Errors
    /// `TableFault` where memory is refused.
    pub fn new(alloc: Global, number: u64) -> Result<EvenEngine, TableFault>
        ensures { IfOk result (λ engine. engine.number ≡ number) }
    {
        let mut table = Table::new(alloc);
        add(alloc, &mut table, None, "engine", "even", DType::Container)?;
        add(alloc, &mut table, Some(0), "test", "number", DType::Test)?;
        let (need, table) = (Need::none(), Arc::new(alloc, table)?);
        Ok(EvenEngine {
            number,
            need,
            table,
        })
    }
}

impl Engine for EvenEngine {
    ghost table = { λ e. arc_value e.table };

    ghost units = { λ e. 1 };

    ghost before = { λ e. started 0 0 ∷ [] };

    ghost after = { λ e. finished 0 0 Successful ∷ [] };

    ghost need = { λ e u. e.need };

    ghost may = { λ e u w k l. l ≡ started 1 0
        ∷ finished 1 0 (if e.number % 2 == 0 then Successful else Failed None) ∷ [] };

    fn table(&self) -> &Arc<Table> {
        &self.table
    }

    fn units(&self) -> u32 {
        1
    }

    fn before(&self, alloc: Global) -> Result<Vec<Event>, AllocError> {
        // For the proof: the root is there.
        let _table = &self.table;
        Ok(vec![in alloc; started(0, 0)]?)
    }

    fn after(&self, alloc: Global) -> Result<Vec<Event>, AllocError> {
        // For the proof: the root is there.
        let _table = &self.table;
        Ok(vec![in alloc; finished(0, 0, Outcome::Successful)]?)
    }

    fn need(&self, _unit: u32) -> Need {
        self.need
    }

    fn run<R: Wait, S: Sink>(
        &self,
        rt: &R,
        _alloc: Global,
        _unit: u32,
        _seat: &BookSeat,
        sink: &mut S,
    ) -> Result<(), UnitFault> {
        start(rt, 1, 0, sink)?;
        let outcome = match self.number % 2 {
            0 => Outcome::Successful,
            _ => Outcome::Failed(None),
        };
        finish(rt, 1, 0, outcome, sink)
    }
}

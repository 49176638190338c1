//! The engine of tables of cases, which emits its events itself.
#![tactic(auto, using(engine_testkit::proofs::Emissions::emissions))]

ghost use Rattle.std.specs.Prelude.{◌≡◌, ◌+◌, [], ◌∷◌, length, ◌≤◌, slice_get, IfOk, IfSome, OnOk};
ghost use Rattle.std.specs.Option.{option_copied};

use crate::by_hand::even::add;
use crate::by_hand::running::run_table;
use crate::cases::{CaseTable, Function};
use engine_testkit::{
    BookSeat, DType, Engine, Event, Need, Outcome, Sink, Table, TableFault, UnitFault, finished,
    started,
};
use std::alloc::{AllocError, Global};
use std::marker::Model;
use std::sync::{Arc, Wait};

/// An engine whose units are tables of cases of one function; each locks what the function uses.
///
/// Its descriptors are the root `[engine:cases]` and a container for each table.
#[derive(Drop)]
pub struct CaseEngine<'a, F> {
    function: &'a F,
    tables: &'a [CaseTable<'a>],
    lock: Need,
    descriptors: Arc<Table>,
}

impl<'a, F> Model for CaseEngine<'a, F> {
    ghost use Rattle.std.specs.Prelude.{◌≡◌, ◌+◌, ◌<◌, length};
    ghost use Rattle.std.specs.Arc.{arc_value};
    ghost use Rattle.example_engine.specs.Suites.{Suite};

    ghost Value = { Suite F };

    ghost view = { λ e. record {
      function = e.function.now;
      tables = e.tables.now;
      need = e.lock;
      descriptors = arc_value e.descriptors;
    } };

    ghost invariant = { λ e. (length (arc_value e.descriptors) ≡ length e.tables.now + 1)
        × (length e.tables.now < 65536) };
}

// The root and a container for each table.
fn descriptors_of(alloc: Global, tables: &[CaseTable<'_>]) -> Result<Table, TableFault>
    ensures { IfOk result (λ t. (length t ≡ length tables.now + 1) × (length t ≤ 65536)) }
{
    let mut table = Table::new(alloc);
    add(alloc, &mut table, None, "engine", "cases", DType::Container)?;
    for one in tables {
        add(
            alloc,
            &mut table,
            Some(0),
            "table",
            one.name,
            DType::Container,
        )?;
    }
    Ok(table)
}

impl<'a, F: Function + Sync> CaseEngine<'a, F> {
    /// An engine that runs each table under the lock.
    ///
    /// # Errors
    /// A table's name is empty, too long or taken, there are 65,536 tables, or memory is refused.
    pub fn new(
        alloc: Global,
        function: &'a F,
        tables: &'a [CaseTable<'a>],
        lock: Need,
    ) -> Result<CaseEngine<'a, F>, TableFault>
        ensures function { IfOk result (λ engine. engine.function ≡ function.now) }
        ensures tables { IfOk result (λ engine. engine.tables ≡ tables.now) }
        ensures need { IfOk result (λ engine. engine.need ≡ lock) }
    {
        let descriptors = Arc::new(alloc, descriptors_of(alloc, tables)?)?;
        Ok(CaseEngine {
            function,
            tables,
            lock,
            descriptors,
        })
    }
}

impl<F: Function + Sync> Engine for CaseEngine<'_, F> {
    ghost use Rattle.engine_testkit.specs.Emitted.{finished, started};
    ghost use Rattle.engine_testkit.specs.Outcome.TheVariants.{Successful};
    ghost use Rattle.example_engine.specs.Running.{IsTableRun};

    ghost table = { λ e. e.descriptors };

    ghost units = { λ e. length e.tables };

    ghost before = { λ e. started 0 0 ∷ [] };

    ghost after = { λ e. finished 0 0 Successful ∷ [] };

    ghost need = { λ e u. e.need };

    ghost may = { λ e u w k l. IfSome (slice_get e.tables u) (λ t.
        IsTableRun (F.value e.function) t.name.now t.cases.now (option_copied t.disabled) (u + 1) l) };

    fn table(&self) -> &Arc<Table> {
        &self.descriptors
    }

    fn units(&self) -> u32 {
        self.tables.len() as u32
    }

    fn before(&self, alloc: Global) -> Result<Vec<Event>, AllocError> {
        // For the proof: the root is among the descriptors.
        let _descriptors = &self.descriptors;
        Ok(vec![in alloc; started(0, 0)]?)
    }

    fn after(&self, alloc: Global) -> Result<Vec<Event>, AllocError> {
        // For the proof: the root is among the descriptors.
        let _descriptors = &self.descriptors;
        Ok(vec![in alloc; finished(0, 0, Outcome::Successful)]?)
    }

    fn need(&self, _unit: u32) -> Need {
        self.lock
    }

    fn run<R: Wait, S: Sink>(
        &self,
        rt: &R,
        alloc: Global,
        unit: u32,
        _seat: &BookSeat,
        sink: &mut S,
    ) -> Result<(), UnitFault> {
        run_table(
            rt,
            alloc,
            self.function,
            self.tables[unit as usize],
            unit + 1,
            sink,
        )
    }
}

//! Two engines by hand whose tests declare one lock: one takes the lock, the other one forgets it.
ghost use Rattle.std.specs.Arc.{arc_value};
ghost use Rattle.engine_testkit.specs.Grown.{Grew};

use engine_testkit::engine::Meeting;
use engine_testkit::{
    BookSeat, DType, Engine, Event, LockAnswer, Need, Outcome, Segment, Sink, Table, UnitFault,
    execute, finish, start,
};
use example_engine::by_hand::add_locked_test;
use std::alloc::{AllocError, Global};
use std::sync::{Arc, Wait};
use std::thread::Threads;
use std::time::Duration;

// Two tests, a unit each, which wait for each other.
#[derive(Drop)]
struct TestsThatMeet {
    meeting: Meeting,
    need: Need,
    table: Arc<Table>,
}

// Runs a test, which waits for the other one.
#[tactic(auto, using(engine_testkit::proofs::SinkGrowth::grew_trans))]
fn run_test<R: Wait, S: Sink>(
    rt: &R,
    meeting: &Meeting,
    key: u32,
    sink: &mut S,
) -> Result<(), UnitFault>
    ensures { Grew (S.view sink.old) (S.view sink.new) }
{
    start(rt, key, 0, sink)?;
    let _came = meeting.wait(rt);
    finish(rt, key, 0, Outcome::Successful, sink)
}

impl Engine for TestsThatMeet {
    ghost use Rattle.std.specs.Prelude.{[]};

    ghost table = { λ e. arc_value e.table };

    ghost units = { λ e. 2 };

    ghost before = { λ e. [] };

    ghost after = { λ e. [] };

    ghost need = { λ e u. e.need };

    ghost may = { λ e u w k l. Unit {0} };

    fn table(&self) -> &Arc<Table> {
        &self.table
    }

    fn units(&self) -> u32 {
        2
    }

    fn before(&self, alloc: Global) -> Result<Vec<Event>, AllocError> {
        Ok(Vec::new(alloc))
    }

    fn after(&self, alloc: Global) -> Result<Vec<Event>, AllocError> {
        Ok(Vec::new(alloc))
    }

    fn need(&self, _unit: u32) -> Need {
        self.need
    }

    fn run<R: Wait, S: Sink>(
        &self,
        rt: &R,
        _alloc: Global,
        unit: u32,
        _seat: &BookSeat,
        sink: &mut S,
    ) -> Result<(), UnitFault> {
        run_test(rt, &self.meeting, unit.saturating_add(1), sink)
    }
}

// The engine of two such tests, each of which waits at most so long, and needs this.
fn engine(alloc: Global, need: Need, longest: Duration) -> Option<TestsThatMeet> {
    let mut table = Table::new(alloc);
    let root = Segment::new(alloc, "engine", "e").ok()?;
    table.add(alloc, None, &root, "e", DType::Container).ok()?;
    add_locked_test(alloc, &mut table, 0, "1").ok()?;
    add_locked_test(alloc, &mut table, 0, "2").ok()?;
    let (meeting, table) = (Meeting::new(longest), Arc::new(alloc, table).ok()?);
    Some(TestsThatMeet {
        meeting,
        need,
        table,
    })
}

// What a run by two workers says of the locks.
fn answer<R: Threads + Wait + Sync>(
    rt: &R,
    alloc: Global,
    need: Need,
    longest: Duration,
) -> Option<LockAnswer> {
    let results = execute(rt, alloc, &engine(alloc, need, longest)?, 2, 16).ok()?;
    results.locks(alloc).ok()
}

#[test]
fn a_forgotten_lock_is_found(rt: HostRuntime) {
    let found = answer(&rt, rt.alloc(), Need::none(), Duration::from_secs(20));
    assert!(rt; matches!(&found, Some(LockAnswer::No(0, 1, name)) if name.as_str() == "db"));
}

#[test]
fn a_lock_that_is_taken(rt: HostRuntime) {
    for _ in 0..50 {
        let found = answer(&rt, rt.alloc(), Need::of(0, 2), Duration::from_millis(1));
        assert!(rt; matches!(&found, Some(LockAnswer::Yes)));
    }
}

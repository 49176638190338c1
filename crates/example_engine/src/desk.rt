//! An engine that shows what tests may do: an interpreter, with one command for each test.
use self::Command::{Abort, Fail, File, Report, Rows};
use self::Planned::{Isolated, Reads, Skipped, Writes};
use engine_testkit::{
    Bodies, Body, Context, DType, ExecutionMode, Failure, Hierarchical, LockMode, Outcome,
    PlanNode, Reporter, Tests, UnitFault, build_plan,
};
use std::alloc::{AllocError, Global};

// What a test does.
#[derive(Clone, Copy)]
enum Command {
    Abort(&'static str),
    Fail(&'static str),
    File(&'static str),
    Report(&'static str, &'static str),
    Rows(&'static str, &'static str),
}

// What the plan says of a test: how it locks its group, that it runs alone, or why it doesn't run.
#[derive(Clone, Copy)]
enum Planned {
    Reads,
    Writes,
    Isolated,
    Skipped(&'static str),
}

// A test: its group, its name, what the plan says of it, and what it does.
type Test = (&'static str, &'static str, Planned, Command);

const GROUPS: [&str; 2] = ["ledger", "printer"];

const TESTS: [Test; 6] = [
    ("ledger", "total", Reads, Fail("off by 1")),
    ("ledger", "entries", Writes, Rows("rent", "tea")),
    ("printer", "letter", Writes, File("letter.txt")),
    ("printer", "poster", Writes, Abort("no ink")),
    ("printer", "photo", Skipped("no paper"), File("photo.txt")),
    ("printer", "cleaning", Isolated, Report("pages", "0")),
];

// The body of a container: a test for each of two rows.
#[derive(Drop)]
struct Sheet(&'static str, &'static str);

// Runs a test that succeeds.
fn run_row<C: Context>(row: &str, test: &mut Reporter<C>) -> Result<(), UnitFault> {
    test.dynamic_test(("row", row), row, &Outcome::Successful)
}

impl Body for Sheet {
    fn run<C: Context>(&self, test: &mut Reporter<C>) -> Result<Outcome, UnitFault> {
        run_row(self.0, test)?;
        run_row(self.1, test)?;
        Ok(Outcome::Successful)
    }
}

/// The tests `[engine:desk]/[group:ledger]/[test:total]` and so on.
#[derive(Drop)]
pub struct DeskTests {
    // The number of a test's body is its place in `TESTS`.
    bodies: Bodies,
}

impl DeskTests {
    // What the test with this key does.
    fn command(&self, key: u32) -> Option<Command> {
        let number = self.bodies.at(key)?;
        Some(TESTS.get(number as usize)?.3)
    }
}

impl Tests for DeskTests {
    fn run<C: Context>(&self, key: u32, test: &mut Reporter<C>) -> Result<Outcome, UnitFault> {
        let Some(command) = self.command(key) else {
            return Err(UnitFault::Text("the table has no such test"));
        };
        match command {
            Abort(reason) => return Ok(Outcome::aborted(test.alloc(), reason)?),
            Fail(message) => return Ok(Outcome::failed(test.alloc(), message)?),
            File(path) => test.file(path)?,
            Report(key, value) => test.report(key, value)?,
            Rows(one, two) => test.dynamic_container(("sheet", "1"), "sheet", &Sheet(one, two))?,
        }
        Ok(Outcome::Successful)
    }
}

// A test as a node of the plan.
fn test_node(alloc: Global, test: Test) -> Result<PlanNode<'static>, AllocError> {
    let (group, name, planned, command) = test;
    let dtype = match command {
        Rows(..) => DType::Both,
        _ => DType::Test,
    };
    let node = PlanNode::new(alloc, dtype, ("test", name), name).mode(ExecutionMode::Concurrent);
    match planned {
        Reads => node.lock(group, LockMode::Read),
        Writes => node.lock(group, LockMode::ReadWrite),
        Isolated => Ok(node.isolated()),
        Skipped(reason) => Ok(node.skip(reason)),
    }
}

// A group with its tests.
fn group_node(alloc: Global, group: &'static str) -> Result<PlanNode<'static>, AllocError> {
    let mut tests = Vec::new(alloc);
    for (number, test) in TESTS.iter().enumerate() {
        if test.0 == group {
            tests.push(test_node(alloc, *test)?.body(number as u32))?;
        }
    }
    let node = PlanNode::container(alloc, ("group", group), group);
    node.mode(ExecutionMode::Concurrent).children(tests)
}

// The root with its groups.
fn root_node(alloc: Global) -> Result<PlanNode<'static>, AllocError> {
    let mut root = PlanNode::container(alloc, ("engine", "desk"), "desk");
    for group in GROUPS {
        root = root.child(group_node(alloc, group)?)?;
    }
    Ok(root)
}

/// Makes the engine.
pub fn desk_engine(alloc: Global) -> Result<Hierarchical<DeskTests>, Failure> {
    let root = root_node(alloc)?;
    let (plan, bodies) = (build_plan(alloc, &root)?, root.bodies(alloc)?);
    Ok(Hierarchical::new(alloc, plan, DeskTests { bodies })?)
}

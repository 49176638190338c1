//! Halves of numbers, in three tables: one that succeeds, one with a failure, one that is skipped.
ghost use Rattle.std.specs.Prelude.{◌/◌};

use engine_testkit::{Engine, Expect, Failure, execute};
use example_engine::{Case, CaseTable, Function};
use std::alloc::Global;
use std::sync::Wait;
use std::thread::Threads;

// Of unsigned numbers, so that the rest is lost.
pub(crate) struct Halves;

impl Function for Halves {
    ghost value = { λ _ n. n / 2 };

    fn value(&self, argument: u64) -> u64 {
        argument / 2
    }
}

const RIGHT: [Case; 3] = [
    Case {
        argument: 0,
        expected: 0,
    },
    Case {
        argument: 4,
        expected: 2,
    },
    Case {
        argument: 9,
        expected: 4,
    },
];

const WRONG: [Case; 2] = [
    Case {
        argument: 5,
        expected: 2,
    },
    Case {
        argument: 7,
        expected: 4,
    },
];

pub(crate) const TABLES: [CaseTable<'static>; 3] = [
    CaseTable {
        name: "right",
        cases: &RIGHT,
        disabled: None,
    },
    CaseTable {
        name: "wrong",
        cases: &WRONG,
        disabled: None,
    },
    CaseTable {
        name: "later",
        cases: &RIGHT,
        disabled: Some("not yet"),
    },
];

// The report of a run, by any number of workers.
const REPORT: &str = "skipped 1
started 8
finished 8
aborted 0
succeeded 7
failed 1
reporting 2
dynamic 5
files 2
[engine:cases]
  start
  finish|ok
[engine:cases]/[table:later]
  skip|not yet
[engine:cases]/[table:right]
  start
  report|cases|3
  file|out/right.txt
  finish|ok
[engine:cases]/[table:right]/[case:0]
  dynamic|T|[engine:cases]/[table:right]/[case:0]|0
  start
  finish|ok
[engine:cases]/[table:right]/[case:1]
  dynamic|T|[engine:cases]/[table:right]/[case:1]|1
  start
  finish|ok
[engine:cases]/[table:right]/[case:2]
  dynamic|T|[engine:cases]/[table:right]/[case:2]|2
  start
  finish|ok
[engine:cases]/[table:wrong]
  start
  report|cases|2
  file|out/wrong.txt
  finish|ok
[engine:cases]/[table:wrong]/[case:0]
  dynamic|T|[engine:cases]/[table:wrong]/[case:0]|0
  start
  finish|ok
[engine:cases]/[table:wrong]/[case:1]
  dynamic|T|[engine:cases]/[table:wrong]/[case:1]|1
  start
  finish|fail|expected: <4> but was: <3>
";

// Expects that each run of an engine of the three tables, by 1 to 15 workers, has that report.
pub(crate) fn expect_reports<R: Threads + Wait + Sync, E: Engine>(
    rt: &R,
    alloc: Global,
    engine: &E,
) -> Result<(), Failure> {
    for workers in 1..=15usize {
        let results = execute(rt, alloc, engine, workers, 16)?;
        Expect::of(alloc, results.recorded()).report(REPORT)?;
    }
    Ok(())
}

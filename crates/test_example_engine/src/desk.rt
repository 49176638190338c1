//! The desk: each question of a run by three workers.
use engine_testkit::{Expect, Failure, Selection, execute};
use example_engine::desk_engine;

// The report, whichever worker runs which test.
const REPORT: &str = "skipped 1
started 11
finished 11
aborted 1
succeeded 9
failed 1
reporting 1
dynamic 3
files 1
[engine:desk]\n  start\n  finish|ok
[engine:desk]/[group:ledger]\n  start\n  finish|ok
[engine:desk]/[group:ledger]/[test:entries]\n  start\n  finish|ok
[engine:desk]/[group:ledger]/[test:entries]/[sheet:1]
  dynamic|C|[engine:desk]/[group:ledger]/[test:entries]/[sheet:1]|sheet\n  start\n  finish|ok
[engine:desk]/[group:ledger]/[test:entries]/[sheet:1]/[row:rent]
  dynamic|T|[engine:desk]/[group:ledger]/[test:entries]/[sheet:1]/[row:rent]|rent
  start\n  finish|ok
[engine:desk]/[group:ledger]/[test:entries]/[sheet:1]/[row:tea]
  dynamic|T|[engine:desk]/[group:ledger]/[test:entries]/[sheet:1]/[row:tea]|tea
  start\n  finish|ok
[engine:desk]/[group:ledger]/[test:total]\n  start\n  finish|fail|off by 1
[engine:desk]/[group:printer]\n  start\n  finish|ok
[engine:desk]/[group:printer]/[test:cleaning]\n  start\n  report|pages|0\n  finish|ok
[engine:desk]/[group:printer]/[test:letter]\n  start\n  file|letter.txt\n  finish|ok
[engine:desk]/[group:printer]/[test:photo]\n  skip|no paper
[engine:desk]/[group:printer]/[test:poster]\n  start\n  finish|abort|no ink
";

// Expects that tests on one resource keep away from each other.
fn expect_locks(expect: Expect<'_>) -> Result<(), Failure> {
    expect
        .lifecycle()?
        .locks()?
        .exclusive("all(test,segment(group,printer))")?
        .exclusive_with("name(entries)", "name(total)")?;
    Ok(())
}

// Expects that each test reports what it does.
fn expect_events(expect: Expect<'_>) -> Result<(), Failure> {
    expect
        .report(REPORT)?
        .pick(Selection::Tests)
        .stats("started=7 skipped=1 failed=1 aborted=1")?
        .loosely(&["entry(pages,0)", "file(letter.txt)", "skipped(no paper)"])?
        .in_order(&[
            "all(started,name(entries))",
            "name(rent)",
            "name(tea)",
            "succeeded",
        ])?;
    Ok(())
}

#[test]
fn each_test_of_the_desk(rt: HostRuntime) -> Result<(), Failure> {
    let alloc = rt.alloc();
    let results = execute(&rt, alloc, &desk_engine(alloc)?, 3, 16)?;
    let expect = Expect::of(alloc, results.recorded());
    expect_locks(expect)?;
    expect_events(expect)
}

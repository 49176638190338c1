//! The engine by hand of three tables.
use crate::halves::{Halves, TABLES, expect_reports};
use crate::records::has_record;
use engine_testkit::{Failure, Need};
use example_engine::by_hand::CaseEngine;

// The record of a run by one worker: the tables one after another, each case before the next one.
const RECORD: &str = "testkit-record|2
N|C|[engine:cases]|cases
N|C|[engine:cases]/[table:right]|right
N|C|[engine:cases]/[table:wrong]|wrong
N|C|[engine:cases]/[table:later]|later
E|0|0|0|start
E|1|1|3|start
E|1|65536|0|dynamic|T|[engine:cases]/[table:right]/[case:0]|0
E|1|65536|0|start
E|1|65536|0|finish|ok
E|1|65537|1|dynamic|T|[engine:cases]/[table:right]/[case:1]|1
E|1|65537|1|start
E|1|65537|1|finish|ok
E|1|65538|2|dynamic|T|[engine:cases]/[table:right]/[case:2]|2
E|1|65538|2|start
E|1|65538|2|finish|ok
E|1|1|3|report|cases|3
E|1|1|3|file|out/right.txt
E|1|1|3|finish|ok
E|1|2|2|start
E|1|65539|0|dynamic|T|[engine:cases]/[table:wrong]/[case:0]|0
E|1|65539|0|start
E|1|65539|0|finish|ok
E|1|65540|1|dynamic|T|[engine:cases]/[table:wrong]/[case:1]|1
E|1|65540|1|start
E|1|65540|1|finish|fail|expected: <4> but was: <3>
E|1|2|2|report|cases|2
E|1|2|2|file|out/wrong.txt
E|1|2|2|finish|ok
E|1|3|3|skip|not yet
E|0|0|0|finish|ok
";

#[test]
fn three_tables(rt: HostRuntime) -> Result<(), Failure> {
    let alloc = rt.alloc();
    let engine = CaseEngine::new(alloc, &Halves, &TABLES, Need::of(0, 1))?;
    assert!(rt; has_record(&rt, alloc, &engine, RECORD)?);
    expect_reports(&rt, alloc, &engine)
}

//! The engine of three tables, whose tests are all that it has of its own.
use crate::halves::{Halves, TABLES, expect_reports};
use crate::records::has_record;
use engine_testkit::Failure;
use example_engine::case_engine;

// The record of a run by one worker: the tables one after another, each case before the next one.
const RECORD: &str = "testkit-record|3
N|C|[engine:cases]|cases
N|B|[engine:cases]/[table:right]|right
N|B|[engine:cases]/[table:wrong]|wrong
N|B|[engine:cases]/[table:later]|later
L|1|W|numbers
L|2|W|numbers
L|3|W|numbers
E|0|0|0|start
E|1|1|1|start
E|1|65536|1|dynamic|T|[engine:cases]/[table:right]/[case:0]|0
E|1|65536|1|start
E|1|65536|1|finish|ok
E|1|65537|1|dynamic|T|[engine:cases]/[table:right]/[case:1]|1
E|1|65537|1|start
E|1|65537|1|finish|ok
E|1|65538|1|dynamic|T|[engine:cases]/[table:right]/[case:2]|2
E|1|65538|1|start
E|1|65538|1|finish|ok
E|1|1|1|report|cases|3
E|1|1|1|file|out/right.txt
E|1|1|2|finish|ok
E|1|2|3|start
E|1|65539|3|dynamic|T|[engine:cases]/[table:wrong]/[case:0]|0
E|1|65539|3|start
E|1|65539|3|finish|ok
E|1|65540|3|dynamic|T|[engine:cases]/[table:wrong]/[case:1]|1
E|1|65540|3|start
E|1|65540|3|finish|fail|expected: <4> but was: <3>
E|1|2|3|report|cases|2
E|1|2|3|file|out/wrong.txt
E|1|2|4|finish|ok
E|1|3|5|skip|not yet
E|0|0|6|finish|ok
Z|26
";

#[test]
fn three_tables(rt: HostRuntime) -> Result<(), Failure> {
    let alloc = rt.alloc();
    let engine = case_engine(alloc, &Halves, &TABLES, "numbers")?;
    assert!(rt; has_record(&rt, alloc, &engine, RECORD)?);
    expect_reports(&rt, alloc, &engine)
}

//! What tests expect of the record of two tests, and what a failure shows.
use std::alloc::Global;
use std::process::Abort;
use test_support::{is_debugged_as, two_tests, two_tests_report};
use tk_expectations::{Expect, Failure};
use tk_record::{Record, Selection};
use tk_record_text::read_record;
use tk_streams::ByteSource;

// Expects of all events of two tests what holds of them.
fn expect_of_all(expect: Expect<'_>) -> Result<Expect<'_>, Failure> {
    expect
        .lifecycle()?
        .loosely(&["failed(boom)", "skipped(off)"])
}

// Expects of the events of two tests, without their container, what holds of them.
fn expect_of_tests(expect: Expect<'_>) -> Result<Expect<'_>, Failure> {
    expect
        .pick(Selection::Tests)
        .stats("started=1 failed=1")?
        .exactly(&["started", "failed(boom)", "skipped(off)"])?
        .in_order(&["started", "failed"])
}

// Expects of the record of two tests what holds of it, as a chain of calls.
fn meet(alloc: Global, record: &Record, report: &str) -> Result<(), Failure> {
    let expect = expect_of_all(Expect::of(alloc, record))?;
    expect_of_tests(expect)?.report(report)?;
    Ok(())
}

#[test]
fn expectations_that_are_met_are_a_chain(rt: HostRuntime) -> Result<(), Failure> {
    let recorded = read_record(rt.alloc(), &mut ByteSource::new(two_tests()))?;
    meet(rt.alloc(), &recorded, str::from_utf8(two_tests_report())?)
}

// Asserts that this is shown of an expectation that is not met.
fn assert_shown<R: Abort>(
    rt: &R,
    alloc: Global,
    expected: Result<Expect<'_>, Failure>,
    text: &str,
) {
    match expected {
        Ok(_) => assert!(rt; false, "it is met"),
        Err(failure) => {
            let is_shown = is_debugged_as(alloc, &failure, text);
            assert!(rt; is_shown, "{failure:?}");
        }
    }
}

#[test]
fn what_is_not_met_is_explained(rt: HostRuntime) -> Result<(), Failure> {
    let alloc = rt.alloc();
    let recorded = read_record(alloc, &mut ByteSource::new(two_tests()))?;
    let expect = Expect::of(alloc, &recorded);
    assert_shown(
        &rt,
        alloc,
        expect.in_order(&["succeeded", "all(test,started)"]),
        "no 1
0 succeeded
    4: E|0|0|9|finish|ok   [engine:e] \"e\"
1 all(test,started)
    1: E|1|1|1|start   [engine:e]/[t:1] \"one\"   holds, but is not after 4
    no event is left
all events of these descriptors:
    0 E|0|0|0|start   [engine:e] \"e\"
    4 E|0|0|9|finish|ok   [engine:e] \"e\"
    1 E|1|1|1|start   [engine:e]/[t:1] \"one\"
    2 E|1|1|2|finish|fail|boom   [engine:e]/[t:1] \"one\"
",
    );
    assert_shown(
        &rt,
        alloc,
        expect.exclusive("all(test,id(databse))"),
        "no pair\n0 all(test,id(databse))\n    0 executions\n",
    );
    assert_shown(
        &rt,
        alloc,
        expect.exclusive_with("name(one)", "name(two)"),
        "no pair\n0 name(one)\n    1 executions\n1 name(two)\n    0 executions\n",
    );
    assert_shown(
        &rt,
        alloc,
        expect.locks(),
        "no pair\n0 executions hold a lock\n",
    );
    assert_shown(
        &rt,
        alloc,
        expect.pick(Selection::Tests).stats("failed=2 started=1"),
        "skipped 1
started 1
finished 1
aborted 0
succeeded 0
failed 1
reporting 0
dynamic 0
files 0
mismatch failed expected 2 actual 1
    2: E|1|1|2|finish|fail|boom   [engine:e]/[t:1] \"one\"
not counted as failed:
",
    );
    Ok(())
}

// What is expected of two tests: all that differs from their report stands in the tree, or in the
// counts too.
#[test]
fn reports_that_differ_are_shown(rt: HostRuntime) -> Result<(), Failure> {
    let alloc = rt.alloc();
    let recorded = read_record(alloc, &mut ByteSource::new(two_tests()))?;
    let tree = "[engine:e]
  start
  finish|ok
[engine:e]/[t:1]
  start
  finish|ok
[engine:e]/[t:2]
  skip|off
";
    let counts = "skipped 1
started 2
finished 2
aborted 0
succeeded 1
failed 1
reporting 0
dynamic 3
files 0
";
    let expected = format!(in alloc; "{counts}{tree}")?;
    assert_shown(
        &rt,
        alloc,
        Expect::of(alloc, &recorded).report(expected.as_str()),
        "--- expected
+++ actual
@@ -15 +15 @@
   finish|ok
 [engine:e]/[t:1]
   start
-  finish|ok
+  finish|fail|boom
 [engine:e]/[t:2]
   skip|off
@@ -8 +8 @@
 succeeded 1
 failed 1
 reporting 0
-dynamic 3
+dynamic 0
 files 0
",
    );
    Ok(())
}

#[test]
fn bad_texts_say_what_may_stand(rt: HostRuntime) -> Result<(), Failure> {
    let alloc = rt.alloc();
    let recorded = read_record(alloc, &mut ByteSource::new(two_tests()))?;
    let expect = Expect::of(alloc, &recorded);
    let rows = [
        (
            "all(tesx)",
            "condition 0 is bad at 7: all(tesx)\nafter 'all(tes' may stand: test\n",
        ),
        (
            "all(test",
            "condition 0 is bad at 8: all(test\nafter 'all(test' may stand: , )\n",
        ),
        (
            "skip",
            "condition 0 is bad at 4: skip\nafter 'skip' may stand: skipped(\n",
        ),
        (
            "kind(begin)",
            "condition 0 is bad at 5: kind(begin)\nafter 'kind(' may stand: dynamic) skip) start) finish) report) file)\n",
        ),
        (
            "id(adds(int))",
            "condition 0 is bad at 7: id(adds(int))\nafter 'id(adds' may stand: a character of a text, where ( ) , % are %28 %29 %2C %25; )\n",
        ),
        (
            "name(a%20b)",
            "condition 0 is bad at 8: name(a%20b)\nafter 'name(a%2' may stand: an escape: %25 %28 %29 %2C\n",
        ),
        (
            "test,failed",
            "condition 0 is bad at 4: test,failed\nafter 'test' may stand: the end of the text\n",
        ),
    ];
    for (condition, text) in rows {
        assert_shown(&rt, alloc, expect.loosely(&[condition]), text);
    }
    assert_shown(
        &rt,
        alloc,
        expect.stats("started=2 faild=1"),
        "word 1 is bad: started=2 faild=1\na word is NAME=N, and NAME, each once, one of skipped started finished aborted succeeded failed reporting dynamic files\n",
    );
    Ok(())
}

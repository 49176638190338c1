//! The run of one table.
#![tactic(auto, using(engine_testkit::proofs::Emissions::emissions))]

ghost use Rattle.std.specs.Prelude.{◌≡◌, [], ◌∷◌, length, IfOk, OnOk};
ghost use Rattle.std.specs.Option.{option_copied};
ghost use Rattle.engine_testkit.specs.Emitted.{Emitted, EmittedAs};
ghost use Rattle.engine_testkit.specs.Emitted.{file_published, finished, reported, started};
ghost use Rattle.engine_testkit.specs.Grown.{Grew};
ghost use Rattle.example_engine.specs.Running.{outcome_of, entry_of, path_of, last_events, IsCaseRun, AreCaseRuns, IsTableRun};

use crate::cases::{Case, CaseTable, Function, failure_of};
use engine_testkit::{
    DType, Outcome, Pairs, Segment, Sink, Text, UnitFault, finish, publish_file, register, report,
    skip, start,
};
use std::alloc::{AllocError, Global};
use std::sync::Wait;

// A case's outcome: a success, or a failure with both values.
fn outcome_of<F: Function>(alloc: Global, function: &F, case: Case) -> Result<Outcome, AllocError>
    ensures { IfOk result (λ outcome. outcome ≡ outcome_of (F.value function.now) case) }
{
    let actual = function.value(case.argument);
    if actual == case.expected {
        return Ok(Outcome::Successful);
    }
    Ok(Outcome::Failed(Some(failure_of(alloc, case.expected, actual)?)))
}

// Starts a registered case, and finishes it.
fn run_registered<F: Function, R: Wait, S: Sink>(
    rt: &R,
    alloc: Global,
    function: &F,
    case: Case,
    stamp: u64,
    key: u32,
    sink: &mut S,
) -> Result<(), UnitFault>
    ensures ok { OnOk result (Emitted (S.view sink.old) (S.view sink.new)
        (started key stamp
        ∷ finished key stamp (outcome_of (F.value function.now) case) ∷ [])) }
    ensures grew { Grew (S.view sink.old) (S.view sink.new) }
{
    start(rt, key, stamp, sink)?;
    let outcome = outcome_of(alloc, function, case)?;
    finish(rt, key, stamp, outcome, sink)
}

// Runs a case as a dynamic test, with the case's number as stamp.
fn run_case<F: Function, R: Wait, S: Sink>(
    rt: &R,
    alloc: Global,
    function: &F,
    case: Case,
    index: usize,
    table: u32,
    sink: &mut S,
) -> Result<(), UnitFault>
    ensures ok { OnOk result (EmittedAs (IsCaseRun (F.value function.now) index case)
        (S.view sink.old) (S.view sink.new)) }
    ensures grew { Grew (S.view sink.old) (S.view sink.new) }
{
    let name = format!(in alloc; "{index}")?;
    let segment = Segment::new(alloc, "case", name.as_str())?;
    let stamp = index as u64;
    let key = register(rt, table, &segment, name.as_str(), DType::Test, stamp, sink)?;
    run_registered(rt, alloc, function, case, stamp, key, sink)
}

// Runs each case.
fn run_cases<F: Function, R: Wait, S: Sink>(
    rt: &R,
    alloc: Global,
    function: &F,
    cases: &[Case],
    table: u32,
    sink: &mut S,
) -> Result<(), UnitFault>
    ensures ok { OnOk result
        (EmittedAs (AreCaseRuns (F.value function.now) cases.now (length cases.now))
        (S.view sink.old) (S.view sink.new)) }
    ensures grew { Grew (S.view sink.old) (S.view sink.new) }
{
    for index in 0..cases.len() {
        run_case(rt, alloc, function, cases[index], index, table, sink)?;
    }
    Ok(())
}

// Publishes an entry of a table: how many cases it has.
fn report_number<R: Wait, S: Sink>(
    rt: &R,
    alloc: Global,
    cases: u64,
    key: u32,
    sink: &mut S,
) -> Result<(), UnitFault>
    ensures ok { OnOk result (Emitted (S.view sink.old) (S.view sink.new)
        (reported key cases (entry_of cases) ∷ [])) }
    ensures grew { Grew (S.view sink.old) (S.view sink.new) }
{
    let number = Text::from(format!(in alloc; "{cases}")?);
    let entry = Pairs::shared_pair(alloc, Text::copy(alloc, "cases")?, number)?;
    report(rt, key, cases, entry, sink)
}

// Publishes the file in which a table's log lies.
fn publish_log<R: Wait, S: Sink>(
    rt: &R,
    alloc: Global,
    name: &str,
    stamp: u64,
    key: u32,
    sink: &mut S,
) -> Result<(), UnitFault>
    ensures ok { OnOk result (Emitted (S.view sink.old) (S.view sink.new)
        (file_published key stamp (path_of name.now) ∷ [])) }
    ensures grew { Grew (S.view sink.old) (S.view sink.new) }
{
    let path = Text::from(format!(in alloc; "out/{name}.txt")?);
    publish_file(rt, key, stamp, path, sink)
}

// Publishes an entry and a file of a table whose cases were run, and finishes it.
fn finish_table<R: Wait, S: Sink>(
    rt: &R,
    alloc: Global,
    table: CaseTable<'_>,
    key: u32,
    sink: &mut S,
) -> Result<(), UnitFault>
    ensures ok { OnOk result (Emitted (S.view sink.old) (S.view sink.new)
        (last_events table.entry.name.now (length table.entry.cases.now) key)) }
    ensures grew { Grew (S.view sink.old) (S.view sink.new) }
{
    let cases = table.cases.len() as u64;
    report_number(rt, alloc, cases, key, sink)?;
    publish_log(rt, alloc, table.name, cases, key, sink)?;
    finish(rt, key, cases, Outcome::Successful, sink)
}

/// Runs a table: a skip, or a start, the cases, a report entry, a file and a finish.
pub(crate) fn run_table<F: Function, R: Wait, S: Sink>(
    rt: &R,
    alloc: Global,
    function: &F,
    table: CaseTable<'_>,
    key: u32,
    sink: &mut S,
) -> Result<(), UnitFault>
    ensures ok { OnOk result
        (EmittedAs (IsTableRun (F.value function.now) table.entry.name.now
        table.entry.cases.now (option_copied table.entry.disabled) key)
        (S.view sink.old) (S.view sink.new)) }
    ensures grew { Grew (S.view sink.old) (S.view sink.new) }
{
    let stamp = table.cases.len() as u64;
    match table.disabled {
        Some(reason) => skip(rt, key, stamp, Text::copy(alloc, reason)?, sink),
        None => {
            start(rt, key, stamp, sink)?;
            run_cases(rt, alloc, function, table.cases, key, sink)?;
            finish_table(rt, alloc, table, key, sink)
        }
    }
}

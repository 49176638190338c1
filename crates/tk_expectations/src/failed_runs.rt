//! Runs that failed, as failures of a test.
ghost use Rattle.std.specs.Prelude.{◌≡◌, ◌++◌, ◌∷◌, [], length, string_bytes, IfErr, IfOk, OnOk};
ghost use Rattle.testkit_questions.specs.Characters.{line_feed};
ghost use Rattle.tk_expectations.specs.FailedRuns.{IsOfRun, failed_run_text, heading, last_of, recorded_text};
ghost use Rattle.tk_expectations.specs.Failures.{IsFault};
ghost use Rattle.tk_expectations.specs.Lists.{shown_list};

use crate::failures::Failure;
use crate::lists::{MAX_SHOWN_EVENTS, add_list};
use std::alloc::{AllocError, Global};
use tk_engine_execute::FailedRun;
use tk_lanes::Flags;
use tk_record::{Events, Record};

/// What is said below the events where memory was refused for the next one.
const CUT_OFF: &str = "memory was refused for an event: nothing after these was recorded\n";

// Picks the last events of a record, as many as are shown.
fn last_events(alloc: Global, record: &Record) -> Result<Events<'_>, AllocError>
    ensures { IfOk result (λ events. events ≡ last_of «record».now) }
{
    let first = record.len().saturating_sub(MAX_SHOWN_EVENTS);
    let mut column = Vec::new(alloc);
    column.resize(first, 0u8)?;
    column.resize(record.len(), 1)?;
    let flags = Flags::of_byte(alloc, &column, 1)?;
    Ok(Events::all(alloc, record)?.intersect(flags))
}

// Adds a line that says how many events there are, and how many of them are shown.
fn add_heading(text: &mut String, count: usize) -> Result<(), AllocError>
    ensures { OnOk result
        (string_bytes text.new ≡ string_bytes text.old ++ heading count ++ line_feed ∷ []) }
{
    if count <= MAX_SHOWN_EVENTS {
        write!(text, "all {count} events:\n")
    } else {
        write!(text, "the last {MAX_SHOWN_EVENTS} of {count} events:\n")
    }
}

// Shows the last events of a record.
fn text_of_record(alloc: Global, record: &Record) -> Result<String, Failure>
    ensures text { IfOk result (λ text. string_bytes text
        ≡ heading (length «record».now.entries) ++ line_feed ∷ shown_list (last_of «record».now)) }
    ensures fault { IfErr result IsFault }
{
    let mut text = String::new(alloc);
    add_heading(&mut text, record.len())?;
    add_list(&mut text, alloc, &last_events(alloc, record)?)?;
    Ok(text)
}

// Shows what was recorded of a run that failed, where there is a record.
fn text_of_recorded(alloc: Global, failed: &FailedRun) -> Result<String, Failure>
    ensures text { IfOk result (λ text.
        string_bytes text ≡ recorded_text failed.now.recorded failed.now.is_complete) }
    ensures fault { IfErr result IsFault }
{
    let Some(record) = &failed.recorded else {
        return Ok(String::new(alloc));
    };
    let mut text = text_of_record(alloc, record)?;
    if !failed.is_complete {
        text.push_str(CUT_OFF)?;
    }
    Ok(text)
}

// Says why a run failed, and shows what was recorded until then.
fn text_of_run(alloc: Global, failed: &FailedRun) -> Result<String, Failure>
    ensures text { IfOk result (λ text. string_bytes text ≡ failed_run_text failed.now) }
    ensures fault { IfErr result IsFault }
{
    let recorded = text_of_recorded(alloc, failed)?;
    let fault = &failed.fault;
    Ok(format!(in alloc; "{fault}\n{recorded}")?)
}

impl Failure {
    /// Shows why a run failed: its fault, and below it the last events that were recorded until
    /// then, at most `MAX_SHOWN_EVENTS` (20).
    ///
    /// Where memory for the text is refused, it is `Fault` with the run's fault alone.
    pub fn of_run(alloc: Global, failed: &FailedRun) -> Failure
        ensures { IsOfRun failed.now result }
    {
        match text_of_run(alloc, failed) {
            Ok(text) => Failure::Run(text),
            Err(_) => Failure::from(&failed.fault),
        }
    }
}

//! Writing the report or the record of a run, and running a plan for its report.
ghost use Rattle.std.specs.Prelude.{◌≡◌, ◌⊎◌, true, IfErr, OnOk, OnErr, IsErrOf};
ghost use Rattle.std.specs.Io.KnownBytes.{Appends};
ghost use Rattle.tk_streams.specs.Stream.{AppendsPrefix};
ghost use Rattle.tk_report_text.specs.Reports.{report_of_record};
ghost use Rattle.tk_record_text.specs.Text.{HasTextIn};
ghost use Rattle.tk_record_text.specs.declared.versions.Version.TheVariants.{Three};
ghost use Rattle.tk_plan_runs.specs.Answers.{IsReported, IsRunRecord, IsRunReport};

use crate::faults::ReportFault;
use crate::plan_runs::run_plan;
use std::alloc::Global;
use std::sync::Wait;
use std::thread::Threads;
use tk_engine_execute::Results;
use tk_record_text::{WriteFault, write_whole_record};
use tk_report_text::write_report_of;
use tk_streams::Target;

/// Writes the report of a run into `target`: the nine statistics, then each id that has an event,
/// in the order of the ids' texts, with the tails of its events in the record's order.
///
/// # Errors
/// `Device` where the target broke, after a prefix of the report; `Memory`, before anything is
/// written.
pub fn write_report<T: Target>(
    alloc: Global,
    results: &Results,
    target: &mut T,
) -> Result<(), ReportFault>
    ensures answer { IsRunReport results.now.recorded (T.contents target.old)
        (T.contents target.new) result }
    ensures unwritten { IsErrOf result ReportFault.Memory → target.new ≡ target.old }
    ensures device { IsErrOf result ReportFault.Device → T.broken target.new ≡ true }
{
    match write_report_of(alloc, results.recorded(), target) {
        Ok(()) => Ok(()),
        Err(WriteFault::Device) => Err(ReportFault::Device),
        Err(WriteFault::Memory) => Err(ReportFault::Memory),
    }
}

/// Writes the record of a run into `target`, as a record text of version 3, which says where it ends.
///
/// # Errors
/// `Device` where the target broke, after a prefix of the text.
pub fn write_run_record<T: Target>(results: &Results, target: &mut T) -> Result<(), ReportFault>
    ensures answer { IsRunRecord results.now.recorded (T.contents target.old)
        (T.contents target.new) result }
    ensures unwritten { IsErrOf result ReportFault.Memory → target.new ≡ target.old }
    ensures device { IsErrOf result ReportFault.Device → T.broken target.new ≡ true }
    ensures has_text { HasTextIn Three results.now.recorded }
{
    match write_whole_record(results.recorded(), target) {
        Ok(()) => Ok(()),
        // It takes no memory.
        Err(_) => Err(ReportFault::Device),
    }
}

/// Reads a plan, runs it by 1 to `MAX_WORKERS` workers, each in a thread of its own, and writes the
/// report of the run into `target`.
///
/// `bytes` are a plan's JSON text, of version 1 or 2. What is written is the plan's report, however
/// many workers there are.
///
/// # Errors
/// `Plan`, `Run` or `Device`. `Memory` where memory was refused, also in reading the plan and in
/// running it, but in a unit it is `Run(Engine(unit, fault))`, with the unit that `execute`
/// answered.
pub fn plan_report<R: Threads + Wait + Sync, T: Target>(
    rt: &R,
    alloc: Global,
    bytes: &[u8],
    workers: usize,
    target: &mut T,
) -> Result<(), ReportFault>
    ensures answer { IsReported bytes.now workers (T.contents target.old) (T.contents target.new)
        result }
    ensures unwritten { IfErr result (λ fault.
        (fault ≡ ReportFault.Device) ⊎ (target.new ≡ target.old)) }
    ensures device { IsErrOf result ReportFault.Device → T.broken target.new ≡ true }
{
    let run = run_plan(rt, alloc, bytes, workers)?;
    write_report(alloc, &run.results, target)
}

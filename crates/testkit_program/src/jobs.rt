//! The jobs of the program.
ghost use Rattle.std.specs.Prelude.{◌≡◌, ◌+◌, ◌⊎◌, true, map, string_bytes, Err, IfErr, IfOk, IsErrOf, OnOk};
ghost use Rattle.tk_record_text.specs.declared.reading.TheConstants.{MAX_TEXT};
ghost use Rattle.tk_streams.specs.Stream.{ConsumesUpTo};
ghost use Rattle.tk_streams.specs.declared.transfers.LoadFault.{LoadFault};
ghost use Rattle.tk_streams.specs.declared.transfers.TheConstants.{CHUNK};
ghost use Rattle.testkit_program.specs.declared.faults.Fault.TheVariants.{Load, Report};
ghost use Rattle.testkit_program.specs.Jobs.{IsBroken, IsDone, IsInWriting, IsNotPerformed, IsOfWords, IsPerformed, IsRefused, devices, transfer};
ghost use Rattle.testkit_program.specs.steps.{HasOutput, IsPlanOutcome, IsRunOutcome, output_text};
ghost use Rattle.tk_plan_runs.specs.Answers.{IsRunText};
ghost use Rattle.testkit_program.specs.Statuses.{fault_of_line};
ghost use Rattle.testkit_command_line.specs.declared.jobs.Job.TheVariants as jobs;

use crate::faults::Fault;
use std::alloc::Global;
use std::mem;
use std::sync::Wait;
use std::thread::Threads;
use testkit_command_line::{CommandLineFault, Job, RunOptions, RunOutput, job_of};
use testkit_questions::ask;
use tk_engine_execute::Results;
use tk_plan_runs::{PlanRun, ReportFault, run_plan, write_report, write_run_record};
use tk_queue_replay::replay_text;
use tk_record_text::{MAX_TEXT, ReadFault, read_record_so_far, write_whole_record};
use tk_streams::{LoadFault, Source, Target, load};

// Writes the report or the record of a run.
fn write_results<T: Target>(
    alloc: Global,
    results: &Results,
    output: RunOutput,
    target: &mut T,
) -> Result<(), ReportFault>
    ensures answer { IsRunText (output_text output results.now.recorded)
        (T.contents target.old) (T.contents target.new) result }
    ensures unwritten { IsErrOf result ReportFault.Memory → target.new ≡ target.old }
    ensures device { IsErrOf result ReportFault.Device → T.broken target.new ≡ true }
    ensures has_output { HasOutput output results.now.recorded }
{
    match output {
        RunOutput::Report => write_report(alloc, results, target),
        RunOutput::Record => write_run_record(results, target),
    }
}

/// Writes the report or the record of a plan's run, or answers why the plan was not run.
///
/// The run's record isn't freed: the program ends after its job, and the system then takes all
/// memory at once. Freeing plan and record block by block took up to a fifth of the program's time,
/// freeing the plan alone no time that could be measured.
fn write_run<T: Target>(
    alloc: Global,
    run: Result<PlanRun, ReportFault>,
    output: RunOutput,
    target: &mut T,
) -> Result<bool, Fault>
    ensures not_run { IfErr run (λ fault. result ≡ Err (Report fault)) }
    ensures run { IfOk run (λ run. IsRunOutcome (output_text output run.results.recorded)
        (T.contents target.old) (T.contents target.new) result) }
    ensures has_output { IfOk run (λ run. HasOutput output run.results.recorded) }
    ensures unwritten { IfErr result (λ fault.
        IsInWriting fault ⊎ (target.new ≡ target.old)) }
    ensures device { IfOk run (λ _.
        result ≡ Err (Report ReportFault.Device) → T.broken target.new ≡ true) }
{
    let run = match run {
        Ok(run) => run,
        Err(fault) => return Err(Fault::Report(fault)),
    };
    // The report gets the memory of the plan.
    drop(run.engine);
    let written = write_results(alloc, &run.results, output, target);
    mem::forget(run.results);
    match written {
        Ok(()) => Ok(true),
        Err(fault) => Err(Fault::Report(fault)),
    }
}

/// Runs the plan of loaded bytes and writes its report or the run's record, or answers why the bytes
/// were not loaded.
fn run_loaded<R: Threads + Wait + Sync, T: Target>(
    rt: &R,
    alloc: Global,
    options: RunOptions,
    loaded: Result<Vec<u8>, LoadFault>,
    target: &mut T,
) -> Result<bool, Fault>
    ensures not_loaded { IfErr loaded (λ fault. result ≡ Err (Load fault)) }
    ensures loaded { IfOk loaded (λ bytes. IsPlanOutcome bytes.items options
        (T.contents target.old) (T.contents target.new) result) }
    ensures unwritten { IfErr result (λ fault.
        IsInWriting fault ⊎ (target.new ≡ target.old)) }
    ensures device { result ≡ Err (Report ReportFault.Device) → T.broken target.new ≡ true }
{
    let bytes = match loaded {
        Ok(bytes) => bytes,
        Err(fault) => return Err(Fault::Load(fault)),
    };
    let run = run_plan(rt, alloc, bytes.as_slice(), options.workers as usize);
    // The report gets the memory of the plan's text.
    drop(bytes);
    write_run(alloc, run, options.output, target)
}

/// Runs the plan of the source's bytes, and writes its report or the run's record.
fn do_run<R: Threads + Wait + Sync, S: Source, T: Target>(
    rt: &R,
    alloc: Global,
    options: RunOptions,
    source: &mut S,
    target: &mut T,
) -> Result<bool, Fault>
    ensures reported { IfOk result (IsDone (jobs.Run options)
        (transfer (S.remaining source.old) (T.contents target.old) (T.contents target.new))) }
    ensures refused { IfErr result (IsRefused (jobs.Run options)
        (transfer (S.remaining source.old) (T.contents target.old) (T.contents target.new))) }
    ensures unread { IfErr result (λ fault. IsOfWords fault → source.new ≡ source.old) }
    ensures unwritten { IfErr result (λ fault.
        IsInWriting fault ⊎ (target.new ≡ target.old)) }
    ensures device { IfErr result (IsBroken (devices (S.broken source.new) (T.broken target.new))
        (transfer (S.remaining source.old) (T.contents target.old) (T.contents target.new))) }
    ensures stops { (fault : LoadFault) → result ≡ Err (Load fault)
        → ConsumesUpTo (MAX_TEXT + CHUNK) (S.remaining source.old) (S.remaining source.new) }
{
    let loaded = load(alloc, source, MAX_TEXT);
    run_loaded(rt, alloc, options, loaded, target)
}

/// Writes the record of what stands before the first fault of a record text, as a text of version 3.
///
/// # Errors
/// `Recovered` with that fault, where there is one; `Recover` where nothing was recovered, or where
/// the target is broken.
fn do_recover<S: Source, T: Target>(
    alloc: Global,
    source: &mut S,
    target: &mut T,
) -> Result<bool, Fault>
    ensures done { IfOk result (IsDone jobs.Recover
        (transfer (S.remaining source.old) (T.contents target.old) (T.contents target.new))) }
    ensures refused { IfErr result (IsRefused jobs.Recover
        (transfer (S.remaining source.old) (T.contents target.old) (T.contents target.new))) }
    ensures unread { IfErr result (λ fault. IsOfWords fault → source.new ≡ source.old) }
    ensures unwritten { IfErr result (λ fault.
        IsInWriting fault ⊎ (target.new ≡ target.old)) }
    ensures device { IfErr result (IsBroken (devices (S.broken source.new) (T.broken target.new))
        (transfer (S.remaining source.old) (T.contents target.old) (T.contents target.new))) }
    ensures stops { (fault : LoadFault) → result ≡ Err (Load fault)
        → ConsumesUpTo (MAX_TEXT + CHUNK) (S.remaining source.old) (S.remaining source.new) }
{
    let (record, fault) = match read_record_so_far(alloc, source) {
        Ok(read) => read,
        Err(fault) => return Err(Fault::Recover(fault)),
    };
    if let Err(_) = write_whole_record(&record, target) {
        return Err(Fault::Recover(ReadFault::Device));
    }
    match fault {
        None => Ok(true),
        Some(fault) => Err(Fault::Recovered(fault)),
    }
}

/// Does a job: answers a question, replays the steps of a queue, recovers what stands before the
/// first fault of a record, or runs a plan with the job's number of workers and writes the run's
/// report or its record.
///
/// The answer is `false` where a match says no or an expectation fails, and else `true`. The record
/// of a plan's run isn't freed, since a program ends after its job.
///
/// # Errors
/// A fault of the job's own kind. A fault of a device means that the source or the target is
/// broken. Words are refused before the source is read.
pub fn do_job<R: Threads + Wait + Sync, S: Source, T: Target>(
    rt: &R,
    alloc: Global,
    job: Job<'_>,
    source: &mut S,
    target: &mut T,
) -> Result<bool, Fault>
    ensures done { IfOk result (IsDone job.entry
        (transfer (S.remaining source.old) (T.contents target.old) (T.contents target.new))) }
    ensures unread { IfErr result (λ fault. IsOfWords fault → source.new ≡ source.old) }
    ensures refused { IfErr result (IsRefused job.entry
        (transfer (S.remaining source.old) (T.contents target.old) (T.contents target.new))) }
    ensures unwritten { IfErr result (λ fault.
        IsInWriting fault ⊎ (target.new ≡ target.old)) }
    ensures device { IfErr result (IsBroken (devices (S.broken source.new) (T.broken target.new))
        (transfer (S.remaining source.old) (T.contents target.old) (T.contents target.new))) }
    ensures stops { (fault : LoadFault) → result ≡ Err (Load fault)
        → ConsumesUpTo (MAX_TEXT + CHUNK) (S.remaining source.old) (S.remaining source.new) }
{
    match job {
        Job::Ask(question) => match ask(alloc, question, source, target) {
            Ok(is_yes) => Ok(is_yes),
            Err(fault) => Err(Fault::Ask(fault)),
        },
        Job::Replay => match replay_text(alloc, source, target) {
            Ok(()) => Ok(true),
            Err(fault) => Err(Fault::Replay(fault)),
        },
        Job::Recover => do_recover(alloc, source, target),
        Job::Run(options) => do_run(rt, alloc, options, source, target),
    }
}

/// Does the job that was read from a command line, or answers why there is none.
fn do_wanted<R: Threads + Wait + Sync, S: Source, T: Target>(
    rt: &R,
    alloc: Global,
    job: Result<Job<'_>, CommandLineFault>,
    source: &mut S,
    target: &mut T,
) -> Result<bool, Fault>
    ensures no_job { IfErr job.entry (λ fault. result ≡ Err (fault_of_line fault)) }
    ensures done { IfOk job.entry (λ job. IfOk result (IsDone job
        (transfer (S.remaining source.old) (T.contents target.old) (T.contents target.new)))) }
    ensures refused { IfOk job.entry (λ job. IfErr result (IsRefused job
        (transfer (S.remaining source.old) (T.contents target.old) (T.contents target.new)))) }
    ensures unread { IfErr result (λ fault. IsOfWords fault → source.new ≡ source.old) }
    ensures unwritten { IfErr result (λ fault.
        IsInWriting fault ⊎ (target.new ≡ target.old)) }
    ensures device { IfErr result (IsBroken (devices (S.broken source.new) (T.broken target.new))
        (transfer (S.remaining source.old) (T.contents target.old) (T.contents target.new))) }
    ensures stops { (fault : LoadFault) → result ≡ Err (Load fault)
        → ConsumesUpTo (MAX_TEXT + CHUNK) (S.remaining source.old) (S.remaining source.new) }
{
    match job {
        Ok(job) => do_job(rt, alloc, job, source, target),
        Err(fault) => Err(Fault::from(fault)),
    }
}

/// Does the job that a command line asks for; its first word is the program's name.
///
/// # Errors
/// A fault of the command line, which is judged before the source is read, or a fault of
/// [`do_job`].
pub fn perform<R: Threads + Wait + Sync, S: Source, T: Target>(
    rt: &R,
    alloc: Global,
    words: &[String],
    source: &mut S,
    target: &mut T,
) -> Result<bool, Fault>
    ensures done { IfOk result (IsPerformed (map string_bytes words.now)
        (transfer (S.remaining source.old) (T.contents target.old) (T.contents target.new))) }
    ensures unread { IfErr result (λ fault. IsOfWords fault → source.new ≡ source.old) }
    ensures refused { IfErr result (IsNotPerformed (map string_bytes words.now)
        (transfer (S.remaining source.old) (T.contents target.old) (T.contents target.new))) }
    ensures unwritten { IfErr result (λ fault.
        IsInWriting fault ⊎ (target.new ≡ target.old)) }
    ensures device { IfErr result (IsBroken (devices (S.broken source.new) (T.broken target.new))
        (transfer (S.remaining source.old) (T.contents target.old) (T.contents target.new))) }
    ensures stops { (fault : LoadFault) → result ≡ Err (Load fault)
        → ConsumesUpTo (MAX_TEXT + CHUNK) (S.remaining source.old) (S.remaining source.new) }
{
    let job = job_of(alloc, words);
    do_wanted(rt, alloc, job, source, target)
}

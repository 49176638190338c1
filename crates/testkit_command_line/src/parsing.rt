//! How the words of a command line are read.
ghost use Rattle.std.specs.Prelude.{◌≡◌, ℕ, List, [], codes, map, string_bytes, false, IfErr, IfOk, Err, Some, ◌⊎◌};
ghost use Rattle.clap.specs.Words.{FailsBy, HasMatchesOf, app_of, fault_of, first_value, found_of, kind_of, rows_of};
ghost use Rattle.clap.specs.declared.builder.command.Command.TheViews.{out-Command as fields_of};
ghost use Rattle.testkit_command_line.specs.declared.faults.CommandLineFault.TheVariants.{Memory};
ghost use Rattle.testkit_command_line.specs.CommandLines.{IsJobOf, IsNoJob, commands, job_of_command, other_job, output_by, run_by, run_command};
ghost use Rattle.testkit_command_line.specs.steps.{fault_of_parse};

use crate::faults::{CommandLineFault, parse_fault};
use crate::jobs::{Job, RunOptions, RunOutput};
use clap::error::ErrorKind;
use clap::{Arg, ArgAction, ArgMatches, Command, Error};
use std::alloc::Global;
use tk_record_text::read_u8;

fn run_command<'w>(alloc: Global) -> Result<Command<'w>, Error>
    ensures app { IfOk result (λ command. app_of command ≡ run_command) }
    ensures local { IfOk result (λ command. (fields_of command).has_globals ≡ false) }
    ensures memory { IfErr result (λ error. kind_of error ≡ ErrorKind.OutOfMemory) }
{
    let workers = Arg::new(alloc, "workers")
        .long("workers")
        .action(ArgAction::Set);
    let record = Arg::new(alloc, "record")
        .long("record")
        .action(ArgAction::SetTrue);
    Ok(Command::new(alloc, "run").arg(workers)?.arg(record)?)
}

/// The commands that the command-line crate reads: all but `ask`.
fn command<'w>(alloc: Global) -> Result<Command<'w>, Error>
    ensures app { IfOk result (λ command. app_of command ≡ commands) }
    ensures memory { IfErr result (λ error. kind_of error ≡ ErrorKind.OutOfMemory) }
{
    let run = run_command(alloc)?;
    let command = Command::new(alloc, "testkit")
        .subcommand_required(true)
        .subcommand(run)?;
    let command = command.subcommand(Command::new(alloc, "replay"))?;
    Ok(command.subcommand(Command::new(alloc, "recover"))?)
}

/// What is written of a run: its record where the flag is there, else its report.
fn output_of(matches: &ArgMatches<'_>) -> RunOutput
    ensures { result ≡ output_by (first_value (found_of matches.now) (codes "record")) }
{
    match matches.get_str("record") {
        Some("true") => RunOutput::Record,
        _ => RunOutput::Report,
    }
}

/// The run of a plan by as many workers as the option says, or by one.
fn run_of<'w>(matches: &ArgMatches<'w>) -> Result<Job<'w>, CommandLineFault>
    ensures { result ≡ run_by (first_value (found_of matches.now) (codes "workers"))
        (output_by (first_value (found_of matches.now) (codes "record"))) }
{
    let output = output_of(matches);
    let Some(text) = matches.get_str("workers") else {
        return Ok(Job::Run(RunOptions { workers: 1, output }));
    };
    match read_u8(text.as_bytes()) {
        Some(workers) => Ok(Job::Run(RunOptions { workers, output })),
        None => Err(CommandLineFault::BadWords),
    }
}

/// What a command of this name asks for, with these values of its options.
fn job_of_command<'w>(name: &str, matches: &ArgMatches<'w>) -> Result<Job<'w>, CommandLineFault>
    ensures { result ≡ job_of_command (Some (name.now, rows_of (found_of matches.now))) }
{
    match name {
        "replay" => Ok(Job::Replay),
        "recover" => Ok(Job::Recover),
        "run" => run_of(matches),
        _ => Err(CommandLineFault::BadWords),
    }
}

/// What the command-line crate finds in words, or why it refuses them.
fn matches_of<'w>(alloc: Global, words: &'w [String]) -> Result<ArgMatches<'w>, Error>
    ensures matches { IfOk result (HasMatchesOf commands (map string_bytes words.now)) }
    ensures kinds { FailsBy (fault_of commands (map string_bytes words.now)) result }
{
    command(alloc)?.try_get_matches_from(words)
}

/// The job that was found in words, or why they were refused.
fn job_of_matches<'w>(matches: Result<ArgMatches<'w>, Error>) -> Result<Job<'w>, CommandLineFault>
    ensures refused { IfErr matches.entry (λ error.
        result ≡ Err (fault_of_parse (kind_of error))) }
    ensures found { IfOk matches.entry (λ matches. (words : List (List ℕ))
        → HasMatchesOf commands words matches → fault_of commands words ≡ []
        → result ≡ other_job words) }
{
    match matches {
        Ok(matches) => match matches.subcommand() {
            Some((name, matches)) => job_of_command(name, matches),
            None => Err(CommandLineFault::BadWords),
        },
        Err(error) => Err(parse_fault(&error)),
    }
}

/// The job of a command line that is not a question.
fn other_job<'w>(alloc: Global, words: &'w [String]) -> Result<Job<'w>, CommandLineFault>
    ensures job { (result ≡ other_job (map string_bytes words.now)) ⊎ (result ≡ Err Memory) }
{
    let matches = matches_of(alloc, words);
    job_of_matches(matches)
}

/// Reads the job that a command line asks for; its first word is the program's name.
///
/// The words after `ask` are the question's own, and are not looked at. All other words are read by
/// the command-line crate.
///
/// # Errors
/// `BadWords`, or `Memory` where memory was refused.
pub fn job_of<'w>(alloc: Global, words: &'w [String]) -> Result<Job<'w>, CommandLineFault>
    ensures job { IfOk result (IsJobOf (map string_bytes words.now)) }
    ensures refused { IfErr result (IsNoJob (map string_bytes words.now)) }
{
    if let [_, command, question @ ..] = words {
        if command.as_str() == "ask" {
            return Ok(Job::Ask(question));
        }
    }
    other_job(alloc, words)
}

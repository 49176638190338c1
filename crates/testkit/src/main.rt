//! The program: answers questions about a record text, replays the steps of an event queue, and
//! runs a plan for its report.
#![tactic(auto)]

mod usage;

use std::process::ExitCode;
use std::sync::Wait;
use std::thread::Threads;
use std::{env, io};
use testkit_command_line::collect_words;
use testkit_program::{Fault, FaultLine, exit_code, perform};
use tk_streams::{StdSource, StdTarget};
use usage::USAGE;

/// Does what the words ask for, from standard input to standard output.
fn run<R: Threads + Wait + Sync>(host: &HostRuntime, rt: &R) -> Result<bool, Fault> {
    let words = collect_words(host.alloc(), env::args(host))?;
    let mut source = StdSource::new(host.reader());
    let mut target = StdTarget::new(io::writer(host));
    perform(rt, host.alloc(), words.as_slice(), &mut source, &mut target)
}

fn main(rt: HostRuntime) -> ExitCode {
    let outcome = run(&rt, &rt);
    if let Err(fault) = &outcome {
        let is_said = rt.eprint(FaultLine(fault)).is_ok();
        if is_said && fault.wants_usage() {
            let _ = rt.eprint(USAGE);
        }
    }
    let status = exit_code(&outcome);
    drop(outcome);
    status
}

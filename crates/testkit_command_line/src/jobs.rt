//! What a command line asks for.

/// What is written of a run.
#[derive(Clone, Copy, Debug, PartialEq, Eq)]
pub enum RunOutput {
    /// The report of the run.
    Report,
    /// The record of the run, as a record text.
    Record,
}

/// How a plan is run, and what is written of the run.
#[derive(Clone, Copy, Debug, PartialEq, Eq)]
pub struct RunOptions {
    /// How many workers run the plan.
    pub workers: u8,
    /// What is written.
    pub output: RunOutput,
}

/// What the program is to do.
#[derive(Drop)]
pub enum Job<'w> {
    /// Answer the question that has these words.
    Ask(&'w [String]),
    /// Replay a replay text.
    Replay,
    /// Recover what stands before the first fault of a record text.
    Recover,
    /// Run a plan, and write the report or the record of the run.
    Run(RunOptions),
}

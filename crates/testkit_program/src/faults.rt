//! The faults of the program, and their statuses.
ghost use Rattle.std.specs.Prelude.{◌≡◌};
ghost use Rattle.testkit_program.specs.Statuses.{fault_of_line, status_of, wants_usage};
ghost use Rattle.testkit_program.specs.declared.faults.Fault.TheVariants.{Ask, Replay, Recover, Load, Report};

use testkit_command_line::CommandLineFault;
use testkit_questions::AskFault;
use tk_engine_execute::RunFault;
use tk_plan_json::PlanFault;
use tk_plan_runs::ReportFault;
use tk_query_conditions::CondFault;
use tk_queue_replay::ReplayFault;
use tk_record_text::ReadFault;
use tk_streams::LoadFault;

/// Why the program did not do its job.
#[derive(Debug, Drop)]
pub enum Fault {
    /// The words are no command line of the program.
    CommandLine,
    /// A question was not answered.
    Ask(AskFault),
    /// A script was not replayed.
    Replay(ReplayFault),
    /// Nothing of a record text was recovered, or what was recovered was not written.
    Recover(ReadFault),
    /// What stands before this fault of a record text was recovered and written.
    Recovered(ReadFault),
    /// A plan's bytes were not read.
    Load(LoadFault),
    /// A plan was not run and reported.
    Report(ReportFault),
    /// Memory was refused.
    Memory,
}

impl From<CommandLineFault> for Fault {
    ghost from_gives = { λ fault e. e ≡ fault_of_line fault };

    fn from(fault: CommandLineFault) -> Fault {
        match fault {
            CommandLineFault::BadWords => Fault::CommandLine,
            CommandLineFault::Memory => Fault::Memory,
        }
    }
}

impl Fault {
    /// The exit status: 1 where a part of the input was recovered, 2 for bad words or bad input, 3
    /// where a device, memory, a thread or a unit failed.
    pub fn status(&self) -> u8
        ensures { result ≡ status_of self.now }
    {
        match self {
            Fault::Memory => 3,
            Fault::CommandLine => 2,
            Fault::Ask(fault) => ask_status(fault),
            Fault::Replay(fault) => replay_status(fault),
            Fault::Recover(fault) => recover_status(fault),
            Fault::Recovered(_) => 1,
            Fault::Load(fault) => load_status(fault),
            Fault::Report(fault) => report_status(fault),
        }
    }

    /// Whether the words name no command, or no question: a page of usage then helps.
    pub fn wants_usage(&self) -> bool
        ensures { result ≡ wants_usage self.now }
    {
        matches!(self, Fault::CommandLine | Fault::Ask(AskFault::Question))
    }
}

fn ask_status(fault: &AskFault) -> u8
    ensures { result ≡ status_of (Ask fault.now) }
{
    match fault {
        AskFault::Device | AskFault::Memory => 3,
        AskFault::Condition(_, CondFault::Memory) => 3,
        AskFault::Read(ReadFault::Device) | AskFault::Read(ReadFault::Memory) => 3,
        _ => 2,
    }
}

fn replay_status(fault: &ReplayFault) -> u8
    ensures { result ≡ status_of (Replay fault.now) }
{
    match fault {
        ReplayFault::Device | ReplayFault::Memory => 3,
        _ => 2,
    }
}

fn recover_status(fault: &ReadFault) -> u8
    ensures { result ≡ status_of (Recover fault.now) }
{
    match fault {
        ReadFault::Device | ReadFault::Memory => 3,
        _ => 2,
    }
}

fn load_status(fault: &LoadFault) -> u8
    ensures { result ≡ status_of (Load fault.now) }
{
    match fault {
        LoadFault::TooLarge => 2,
        LoadFault::Device | LoadFault::Memory => 3,
    }
}

fn report_status(fault: &ReportFault) -> u8
    ensures { result ≡ status_of (Report fault.now) }
{
    match fault {
        ReportFault::Plan(PlanFault::Memory) => 3,
        ReportFault::Plan(_) | ReportFault::Run(RunFault::Workers | RunFault::Capacity) => 2,
        ReportFault::Run(_) | ReportFault::Device | ReportFault::Memory => 3,
    }
}

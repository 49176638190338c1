//! What events do to executions.
ghost use Rattle.std.specs.Prelude.{◌≡◌};
ghost use Rattle.tk_query.specs.ExecutionSteps.{ending_of, transition_of, step_of};
ghost use Rattle.tk_record.specs.Record.{entry_of_view};

use crate::execution::Ending;
use tk_events::{Kind, Outcome, Payload};
use tk_record::EntryView;

/// What an event does to the execution of its key.
#[derive(Clone, Copy)]
pub(crate) enum Transition {
    Starts,
    Skips,
    Ends(Ending),
}

/// What an event does to the execution of its key, and when.
#[derive(Clone, Copy)]
pub(crate) struct ExecutionStep {
    pub(crate) key: u32,
    pub(crate) stamp: u64,
    pub(crate) transition: Transition,
}

fn ending_of(outcome: &Outcome) -> Ending
    ensures { result ≡ ending_of outcome.now }
{
    match outcome {
        Outcome::Successful => Ending::Successful,
        Outcome::Aborted(_) => Ending::Aborted,
        Outcome::Failed(_) => Ending::Failed,
    }
}

fn transition_of(kind: Kind, payload: &Payload) -> Option<Transition>
    ensures { result ≡ transition_of kind payload.now }
{
    match (kind, payload) {
        (Kind::Started, _) => Some(Transition::Starts),
        (Kind::Skipped, _) => Some(Transition::Skips),
        (Kind::Finished, Payload::Outcome(outcome)) => Some(Transition::Ends(ending_of(outcome))),
        _ => None,
    }
}

/// What an event does to executions.
pub(crate) fn step_of(event: &EntryView) -> Option<ExecutionStep>
    ensures { result ≡ step_of (entry_of_view event.now) }
{
    let transition = transition_of(event.kind, event.payload)?;
    Some(ExecutionStep {
        key: event.key,
        stamp: event.stamp,
        transition,
    })
}

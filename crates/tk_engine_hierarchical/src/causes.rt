//! The cause with which a body ends that drops the fault of a child.
ghost use Rattle.std.specs.Prelude.{◌≡◌, Err, IfOk, None, Ok, OnOk, Some};
ghost use Rattle.tk_engine_execute.specs.declared.engines.UnitFault.{UnitFault};
ghost use Rattle.tk_engine_hierarchical.specs.Causes.{cause_of, send_cause_of, without_payload};

use tk_engine_execute::{SinkFault, UnitFault};
use tk_events::{Event, Outcome, Payload};
use tk_queue_session::SendFault;

/// The cause of a fault: the fault itself; where it has the refused event, without the payload.
pub(crate) fn cause_of(fault: &UnitFault) -> UnitFault
    ensures { result ≡ cause_of fault.now }
{
    match fault {
        UnitFault::Sink(SinkFault::Send(fault)) => {
            UnitFault::Sink(SinkFault::Send(send_cause_of(fault)))
        }
        UnitFault::Sink(SinkFault::Register(fault)) => {
            UnitFault::Sink(SinkFault::Register(*fault))
        }
        UnitFault::Memory => UnitFault::Memory,
        UnitFault::Own(number) => UnitFault::Own(*number),
        UnitFault::Text(text) => UnitFault::Text(*text),
    }
}

fn send_cause_of(fault: &SendFault) -> SendFault
    ensures { result ≡ send_cause_of fault.now }
{
    match fault {
        SendFault::UnknownNode(event) => SendFault::UnknownNode(without_payload(event)),
        SendFault::Unlawful(event) => SendFault::Unlawful(without_payload(event)),
        SendFault::Limit(event) => SendFault::Limit(without_payload(event)),
        SendFault::Full(event) => SendFault::Full(without_payload(event)),
    }
}

fn without_payload(event: &Event) -> Event
    ensures { result ≡ without_payload event.now }
{
    Event {
        kind: event.kind,
        key: event.key,
        stamp: event.stamp,
        payload: Payload::Nothing,
    }
}

/// How a body ends that answers this: with the fault of a child, where it dropped one.
pub(crate) fn ending(
    answer: Result<Outcome, UnitFault>,
    child_fault: Option<UnitFault>,
) -> Result<Outcome, UnitFault>
    ensures ok { IfOk result (λ outcome. answer ≡ Ok outcome) }
    ensures unbroken { OnOk result (child_fault ≡ None) }
    ensures none { child_fault ≡ None → result ≡ answer }
    ensures fault { (why : UnitFault) → answer ≡ Err why → result ≡ Err why }
    ensures dropped { (why : UnitFault) → OnOk answer (child_fault ≡ Some why → result ≡ Err why) }
{
    match (answer, child_fault) {
        (Ok(_), Some(fault)) => Err(fault),
        (Ok(outcome), None) => Ok(outcome),
        (Err(fault), _) => Err(fault),
    }
}

//! Faults of units, runs and reports as texts.
use std::alloc::Global;
use test_support::{is_shown_as, start};
use tk_engine_execute::{RunFault, SinkFault, UnitFault};
use tk_plan_runs::ReportFault;
use tk_queue_session::{RegisterFault, SendFault};

// Whether a report has no text but that of a unit's failure with this cause.
fn is_unit_shown(alloc: Global, unit: u32, why: UnitFault, text: &str) -> bool {
    let fault = ReportFault::Run(RunFault::Engine(unit, why));
    let is_shown = is_shown_as(alloc, &fault, text);
    drop(fault);
    is_shown
}

fn is_sink_fault_shown(alloc: Global, fault: SinkFault, text: &str) -> bool {
    is_unit_shown(alloc, 0, UnitFault::Sink(fault), text)
}

#[test]
fn causes_are_shown(rt: HostRuntime) {
    let sent = SinkFault::Send(SendFault::UnknownNode(start(3, 0)));
    assert!(rt; is_sink_fault_shown(rt.alloc(), sent, "unit 0 failed: unknown key 3"));
    let registered = SinkFault::Register(RegisterFault::Limit);
    let text = "unit 0 failed: registration is one too many";
    assert!(rt; is_sink_fault_shown(rt.alloc(), registered, text));
}

#[test]
fn failures_of_units_are_shown(rt: HostRuntime) {
    let own = UnitFault::Own(7);
    assert!(rt; is_unit_shown(rt.alloc(), 3, own, "unit 3 failed: engine fault 7"));
    let memory = UnitFault::Memory;
    assert!(rt; is_unit_shown(rt.alloc(), 12, memory, "unit 12 failed: out of memory"));
    let text = UnitFault::Text("the tape is missing");
    assert!(rt; is_unit_shown(rt.alloc(), 3, text, "unit 3 failed: the tape is missing"));
}

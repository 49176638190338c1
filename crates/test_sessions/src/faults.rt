//! Faults of books, claims, cores and sessions as texts.
use std::alloc::Global;
use test_support::{are_shown, is_shown, start};
use tk_claims::ClaimFault;
use tk_ids::IdFault;
use tk_locks::BookFault;
use tk_queue_session::{CoreFault, OpenFault, RegisterFault, SendFault};

fn show_open_faults(alloc: Global) -> bool {
    let faults = [OpenFault::Workers, OpenFault::Capacity, OpenFault::Memory];
    are_shown(alloc, &faults)
        && are_shown(alloc, &[BookFault::Seats, BookFault::Memory])
        && are_shown(alloc, &[ClaimFault::Seats, ClaimFault::Memory])
}

fn show_core_faults(alloc: Global) -> bool {
    let faults = [CoreFault::Worker, CoreFault::AfterEnd, CoreFault::Memory];
    are_shown(alloc, &faults)
}

fn is_send_fault_shown(alloc: Global, fault: SendFault) -> bool {
    let is_shown = is_shown(alloc, &fault);
    drop(fault);
    is_shown
}

fn show_send_faults(alloc: Global) -> bool {
    is_send_fault_shown(alloc, SendFault::UnknownNode(start(0, 0)))
        && is_send_fault_shown(alloc, SendFault::Unlawful(start(0, 0)))
        && is_send_fault_shown(alloc, SendFault::Limit(start(0, 0)))
        && is_send_fault_shown(alloc, SendFault::Full(start(0, 0)))
}

fn show_register_faults(alloc: Global) -> bool {
    let faults = [
        RegisterFault::UnknownNode,
        RegisterFault::Limit,
        RegisterFault::Id(IdFault::TooLong),
        RegisterFault::Memory,
    ];
    are_shown(alloc, &faults)
}

#[test]
fn each_fault_is_shown(rt: HostRuntime) {
    assert!(rt; show_open_faults(rt.alloc()) && show_core_faults(rt.alloc()));
    assert!(rt; show_send_faults(rt.alloc()) && show_register_faults(rt.alloc()));
}

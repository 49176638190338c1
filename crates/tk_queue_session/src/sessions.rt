//! How a session is opened.
ghost use Rattle.std.specs.Prelude.{◌≡◌, ◌↔◌, ◌<◌, ◌≤◌, ◌⊎◌, [], length, IfOk, Err, Some};
ghost use Rattle.std.specs.Arc.{arc_value};
ghost use Rattle.crossbeam_queue.specs.Passes.{view, IsPassOf};
ghost use Rattle.tk_queue_session.specs.PassViews.{pass_of_receiver};
ghost use Rattle.tk_queue_session.specs.Limits.{capacity_of};
ghost use Rattle.tk_queue_session.specs.Receivers.{fresh_receiver};
ghost use Rattle.tk_queue_session.specs.Senders.{fresh_senders};
ghost use Rattle.tk_queue_session.specs.FaultTexts.{open_fault_text};

use crate::limits::MAX_CAPACITY;
use crate::receivers::Receiver;
use crate::senders::Sender;
use crate::session_rules::{EventQueue, QueuePass, SplitSender, WithOneBit, WithZeroBit};
use std::alloc::{AllocError, Global};
use std::error::Error;
use std::fmt;
use std::sync::Arc;
use tk_base::MAX_WORKERS;
use tk_ids::Table;

/// Why a session was not opened.
#[derive(Clone, Copy, Debug, PartialEq, Eq)]
pub enum OpenFault {
    /// The number of workers isn't 1 to `MAX_WORKERS`.
    Workers,
    /// The capacity isn't 1 to `MAX_CAPACITY`.
    Capacity,
    /// A request for memory was refused.
    Memory,
}

impl fmt::Display for OpenFault {
    ghost output = { λ fault. Some (open_fault_text fault) };

    fn fmt<W: fmt::Write>(&self, f: &mut fmt::Formatter<W>) -> fmt::Result {
        match self {
            OpenFault::Workers => f.write_str("workers must be 1 to 15"),
            OpenFault::Capacity => f.write_str("capacity must be 1 to 1024"),
            OpenFault::Memory => f.write_str("out of memory"),
        }
    }
}

impl Error for OpenFault {}

// Sets the number of static descriptors in the queue's rule, its highest bit first: what a split of
// a pass makes of it is fixed by the split's type, which carries no number, so there is one type
// for each bit.
fn set_static_count(shared_queue: &EventQueue, pass: &mut QueuePass, statics: u32)
    requires queue { IsPassOf shared_queue.now pass.old }
    requires fresh { view pass.old ≡ pass_of_receiver 0 0 [] [] }
    ensures queue { IsPassOf shared_queue.now pass.new }
    ensures count_is_set { view pass.new ≡ pass_of_receiver statics 0 [] [] }
{
    if statics == 0 {
        return;
    }
    set_static_count(shared_queue, pass, statics / 2);
    if statics % 2 == 0 {
        shared_queue.another::<WithZeroBit>(pass);
    } else {
        shared_queue.another::<WithOneBit>(pass);
    }
}

// Opens a session whose numbers are within their limits.
fn open_within_limits(
    alloc: Global,
    table: Arc<Table>,
    workers: u8,
    capacity: usize,
) -> Result<(Vec<Sender>, Receiver), AllocError>
    requires workers { workers ≤ MAX_WORKERS }
    requires capacity { 0 < capacity }
    ensures ends { IfOk result (λ made.
        (made.1 ≡ fresh_receiver made.1.session (arc_value table) workers)
        × (made.0.items ≡ fresh_senders made.1.session (arc_value table) workers)) }
    ensures of_capacity { IfOk result (λ made. capacity_of made.1.session ≡ capacity) }
{
    let (queue, mut pass) = EventQueue::ruled(alloc, capacity)?;
    set_static_count(&queue, &mut pass, table.len() as u32);
    let shared_queue = Arc::new(alloc, queue)?;
    let mut senders = Vec::with_capacity(alloc, workers as usize)?;
    for done in 0..workers {
        let worker = done + 1;
        let own_queue = Arc::try_clone(&shared_queue)?;
        let own_table = Arc::try_clone(&table)?;
        let next = shared_queue.another::<SplitSender>(&mut pass);
        senders.push(Sender::with_pass(alloc, own_queue, next, own_table, worker))?;
    }
    Ok((
        senders,
        Receiver::with_pass(shared_queue, pass, table, workers),
    ))
}

/// Opens a session of the workers 1 to `workers` over a table of static descriptors.
///
/// `senders[i]` is worker i + 1's. The queue between the senders and the receiver holds at most
/// `capacity` items.
///
/// # Errors
/// `Workers` or `Capacity` where a number isn't within its limits, or `Memory`.
pub fn open(
    alloc: Global,
    table: Arc<Table>,
    workers: usize,
    capacity: usize,
) -> Result<(Vec<Sender>, Receiver), OpenFault>
    ensures workers { (result ≡ Err OpenFault.Workers) ↔ ((workers ≡ 0) ⊎ (MAX_WORKERS < workers)) }
    ensures capacity { (result ≡ Err OpenFault.Capacity)
        ↔ (((0 < workers) × (workers ≤ MAX_WORKERS))
        × ((capacity ≡ 0) ⊎ (MAX_CAPACITY < capacity))) }
    ensures receiver { IfOk result (λ made.
        made.1 ≡ fresh_receiver made.1.session (arc_value table) workers) }
    ensures senders { IfOk result (λ made.
        made.0.items ≡ fresh_senders made.1.session (arc_value table) workers) }
    ensures of_capacity { IfOk result (λ made. capacity_of made.1.session ≡ capacity) }
{
    if workers == 0 || workers > MAX_WORKERS as usize {
        return Err(OpenFault::Workers);
    }
    if capacity == 0 || capacity > MAX_CAPACITY {
        return Err(OpenFault::Capacity);
    }
    match open_within_limits(alloc, table, workers as u8, capacity) {
        Ok(made) => Ok(made),
        Err(AllocError) => Err(OpenFault::Memory),
    }
}

//! A worker: it draws units and runs them until none is left, or one fails.
ghost use Rattle.std.specs.Prelude.{◌≡◌, ◌<◌, None, Some, true, IfNone, IfSome, IfOk, IfErr, OnOk, OnErr};
ghost use Rattle.tk_claims.specs.Run.{Emits};
ghost use Rattle.tk_engine_execute.specs.Engines.{IsSameSender, Extends, ExtendsAs, MayFail};
ghost use Rattle.tk_engine_execute.specs.steps.Workers.{shared_parts, run_units, IsReady, IsDone, IsStopped};

pub(crate) mod parts;
pub(crate) mod threads;
pub(crate) mod unstarted;

use crate::engines::{Engine, UnitFault};
use std::alloc::Global;
use std::sync::Wait;
use tk_claims::{Claim, ClaimSeat};
use tk_locks::{Book, BookSeat};
use tk_queue_session::{Ended, Sender};

/// What one worker's thread owns: its sender and its seats of the claim and the book.
#[derive(Drop)]
pub(crate) struct WorkerHandles {
    pub sender: Sender,
    pub claim_seat: ClaimSeat,
    pub book_seat: BookSeat,
}

/// What a worker's thread returns: its token, its seat of the claim, and the unit that failed, with
/// its fault.
#[derive(Drop)]
pub(crate) struct WorkerEnd {
    pub ended: Ended,
    pub claim_seat: ClaimSeat,
    pub failure: Option<(u32, UnitFault)>,
}

// Runs a unit while the worker's seat of the book holds its need.
fn run_unit<R: Wait, E: Engine>(
    rt: &R,
    alloc: Global,
    engine: &E,
    book: &Book,
    unit: u32,
    handles: &mut WorkerHandles,
) -> Result<(), UnitFault>
    requires unit { unit < E.units engine.now }
    requires of_this { handles.old.book_seat.book ≡ book.now }
    requires empty { handles.old.book_seat.holds ≡ None }
    requires table { handles.old.sender.table ≡ E.table engine.now }
    ensures book { handles.new.book_seat.book ≡ handles.old.book_seat.book }
    ensures released { handles.new.book_seat.holds ≡ None }
    ensures drawn { handles.new.claim_seat ≡ handles.old.claim_seat }
    ensures same { IsSameSender handles.old.sender handles.new.sender }
    ensures ok { OnOk result
        (ExtendsAs (E.may engine.now unit) handles.old.sender handles.new.sender) }
    ensures err { OnErr result (Extends handles.old.sender handles.new.sender) }
    ensures fails { IfErr result (E.fails engine.now unit) }
{
    book.acquire(rt, &mut handles.book_seat, engine.need(unit));
    let done = engine.run(rt, alloc, unit, &handles.book_seat, &mut handles.sender);
    book.release(&mut handles.book_seat);
    done
}

// Runs units until none is left, or one fails.
fn run_units<R: Wait, E: Engine>(
    rt: &R,
    alloc: Global,
    engine: &E,
    claim: &Claim,
    book: &Book,
    handles: &mut WorkerHandles,
) -> Option<(u32, UnitFault)>
    requires limit { claim.now.limit ≡ E.units engine.now }
    requires ready { IsReady (shared_parts claim.now book.now (E.table engine.now)) handles.old }
    ensures same { IsSameSender handles.old.sender handles.new.sender }
    ensures claim { handles.new.claim_seat.claim ≡ handles.old.claim_seat.claim }
    ensures all { IfNone result (handles.new.claim_seat.spent ≡ true) }
    ensures emits { IfNone result
        (Emits (E.may engine.now) handles.old.sender.worker 0
        handles.new.claim_seat.numbers handles.new.sender.sent) }
    ensures failed { IfSome result (λ failure.
        MayFail (E.units engine.now) (E.fails engine.now) failure.0 failure.1) }
    ensures stopped { IfSome result (λ failure.
        IsStopped (E.may engine.now) handles.new.sender handles.new.claim_seat failure.0) }
{
    for _ in rt.forever() {
        let Some(unit) = claim.draw(&mut handles.claim_seat) else {
            return None;
        };
        if let Err(why) = run_unit(rt, alloc, engine, book, unit, handles) {
            return Some((unit, why));
        }
    }
    unreachable!()
}

/// Runs units until none is left, or one fails, and ends the sender.
pub(crate) fn work<R: Wait, E: Engine>(
    rt: &R,
    alloc: Global,
    engine: &E,
    claim: &Claim,
    book: &Book,
    handles: WorkerHandles,
) -> WorkerEnd
    requires limit { claim.now.limit ≡ E.units engine.now }
    requires ready { IsReady (shared_parts claim.now book.now (E.table engine.now)) handles }
    ensures { IsDone
        (run_units claim.now (E.may engine.now) (E.units engine.now) (E.fails engine.now))
        handles.sender.session handles.sender.worker result }
{
    let mut handles = handles;
    let failure = run_units(rt, alloc, engine, claim, book, &mut handles);
    WorkerEnd {
        ended: handles.sender.end(rt),
        claim_seat: handles.claim_seat,
        failure,
    }
}

//! The threads of a run's workers.
ghost use Rattle.std.specs.Prelude.{◌≡◌, ◌≤◌, vec_len, vec_capacity};
ghost use Rattle.tk_engine_execute.specs.steps.WorkerThreads.{CanRunWorkers, WorkersWereRun};
ghost use Rattle.tk_engine_execute.specs.steps.Workers.{shared_parts, run_units, IsReady, IsDone};

use crate::engines::Engine;
use crate::runs::collectors::EventCollector;
use crate::workers::unstarted::UnstartedWorkers;
use crate::workers::{WorkerEnd, WorkerHandles, work};
use std::alloc::Global;
use std::snapshot::Snapshot;
use std::sync::Wait;
use std::thread;
use std::thread::{Promise, Scope, Threads};
use tk_claims::Claim;
use tk_locks::Book;

/// What a worker's thread promises of the end that it returns.
#[derive(Drop)]
pub(crate) struct WorkerPromise<'e, E> {
    engine: &'e E,
    claim: &'e Claim,
    handles: Snapshot<WorkerHandles>,
}

impl<'e, E: Engine> Promise<WorkerEnd> for WorkerPromise<'e, E> {
    ghost kept_by = { λ p r. IsDone
        (run_units p.claim.now (E.may p.engine.now) (E.units p.engine.now) (E.fails p.engine.now))
        p.handles.value.sender.session p.handles.value.sender.worker r };
}

/// The receiver's side of a run, and the end of each worker that was joined.
#[derive(Drop)]
pub(crate) struct Collected {
    pub collector: EventCollector,
    pub worker_ends: Vec<WorkerEnd>,
}

// Starts a thread for the last worker, does the same with the rest, collects events where none is
// left, and joins on the way back.
//
// There is no list of handles: each handle stays in its call until it is joined, so that nothing
// grows while threads run, and one proof serves any number of workers.
fn spawn_workers<'s, 'e, R: Threads + Wait + Sync, E: Engine>(
    rt: &'e R,
    alloc: Global,
    scope: &Scope<'s, &'e ()>,
    engine: &'e E,
    claim: &'e Claim,
    book: &'e Book,
    unstarted: &mut UnstartedWorkers,
    collected: &mut Collected,
)
    requires limit { claim.now.limit ≡ E.units engine.now }
    requires ready { CanRunWorkers (shared_parts claim.now book.now (E.table engine.now))
        unstarted.old collected.old }
    ensures run_to_the_end { WorkersWereRun
        (run_units claim.now (E.may engine.now) (E.units engine.now) (E.fails engine.now))
        (vec_len unstarted.old.senders) collected.old collected.new }
    ensures capacity { vec_capacity collected.old.worker_ends
        ≤ vec_capacity collected.new.worker_ends }
    ensures at_most { vec_len collected.new.worker_ends ≤ vec_len unstarted.old.senders }
{
    let Some(handles) = unstarted.take() else {
        collected.collector.collect_all(rt);
        return;
    };
    let worker = handles.sender.worker();
    let promise = WorkerPromise {
        engine,
        claim,
        handles: Snapshot::of(&handles),
    };
    let run = move || -> WorkerEnd
        requires { (claim.now.limit ≡ E.units engine.now)
            × IsReady (shared_parts claim.now book.now (E.table engine.now)) handles }
        ensures { IsDone
            (run_units claim.entry.now (E.may engine.entry.now) (E.units engine.entry.now)
            (E.fails engine.entry.now)) handles.sender.session handles.sender.worker result }
    { work(rt, alloc, engine, claim, book, handles) };
    match scope.spawn_with(promise, run) {
        Ok(thread) => {
            spawn_workers(rt, alloc, scope, engine, claim, book, unstarted, collected);
            collected.worker_ends.push_reserved(thread.join(rt));
        }
        Err(not_started) => {
            drop(not_started);
            collected.collector.stop_waiting_for(worker);
            spawn_workers(rt, alloc, scope, engine, claim, book, unstarted, collected);
        }
    }
}

/// Runs each worker in a thread of its own, while this thread collects what they send.
pub(crate) fn run_workers<R: Threads + Wait + Sync, E: Engine>(
    rt: &R,
    alloc: Global,
    engine: &E,
    claim: &Claim,
    book: &Book,
    unstarted: UnstartedWorkers,
    collected: Collected,
) -> Collected
    requires limit { claim.now.limit ≡ E.units engine.now }
    requires ready { CanRunWorkers (shared_parts claim.now book.now (E.table engine.now)) unstarted
        collected }
    ensures { WorkersWereRun
        (run_units claim.now (E.may engine.now) (E.units engine.now) (E.fails engine.now))
        (vec_len unstarted.senders) collected result }
{
    thread::scope(
        thread::scope_env(),
        rt,
        move |scope| -> Collected
            requires { (claim.now.limit ≡ E.units engine.now)
                × CanRunWorkers (shared_parts claim.now book.now (E.table engine.now)) unstarted
                collected }
            ensures { WorkersWereRun
                (run_units claim.entry.now (E.may engine.entry.now) (E.units engine.entry.now)
                (E.fails engine.entry.now)) (vec_len unstarted.senders) collected result }
        {
            let mut unstarted = unstarted;
            let mut collected = collected;
            spawn_workers(
                rt,
                alloc,
                scope,
                engine,
                claim,
                book,
                &mut unstarted,
                &mut collected,
            );
            collected
        },
    )
}

//! What an engine is: a table, events before and after, and units with their needs.
ghost use Rattle.std.specs.Prelude.{◌≡◌, ℕ, ◌<◌, ◌≤◌, List, length, Some, IfOk, IfErr, OnOk, OnErr};
ghost use Rattle.std.specs.Arc.{arc_value};
ghost use Rattle.tk_ids.specs.declared.descriptors.Descriptor.{Descriptor};
ghost use Rattle.tk_events.specs.declared.events.Event.{Event};
ghost use Rattle.tk_locks.specs.NeedView.{NeedView};
ghost use Rattle.tk_engine_execute.specs.Engines.{IsSameSender, Extends, ExtendsAs, AreOfWorkerZero};

use crate::sinks::{Sink, SinkFault};
use std::alloc::{AllocError, Global};
use std::sync::{Arc, Wait};
use tk_events::Event;
use tk_ids::Table;
use tk_locks::{BookSeat, Need};

/// The most units that an engine may have.
pub const MAX_UNITS: u32 = 65_536;

/// The number of the fault [`Own`](UnitFault::Own) of a unit whose events would break the lifecycle
/// or leave a key without its turn. No plan that was tested leads to it.
pub const OUT_OF_ORDER: u32 = u32::MAX;

/// The number of the fault [`Own`](UnitFault::Own) of a unit that registers a dynamic descriptor
/// whose id is that of a static one, or of one that the unit registered.
pub const TWICE: u32 = u32::MAX - 1;

/// Why a unit stopped.
#[derive(Debug, Drop)]
pub enum UnitFault {
    /// The sink refused an event or a registration, or a segment for one can't be made.
    Sink(SinkFault),
    /// A request for memory was refused.
    Memory,
    /// A fault of the engine's own, such as a fixture that it can't set up.
    ///
    /// The engine chooses the number, for instance one for each cause. The caller of `execute`
    /// finds it in `RunFault::Engine`. `OUT_OF_ORDER` and `TWICE` have a meaning already.
    Own(u32),
    /// A fault of the engine's own, in its words, as `"the tape is missing"`.
    ///
    /// `Display` writes the text as it is, here `unit 3 failed: the tape is missing` of a run.
    Text(&'static str),
}

/// A test engine, whose units of work [`execute`](crate::execute) runs in parallel.
///
/// JUnit: a `HierarchicalTestEngine`; a unit is a subtree of nodes that one thread runs.
///
/// The meaning of an engine is its table, the events before and after the units, the number of the
/// units, each unit's need, which lists of events each unit may emit (`may`), and with which faults
/// it may fail (`fails`). The narrower `may` and `fails` are, the more is proved of a run of the
/// engine.
pub trait Engine: Sync {
    ghost use Rattle.tk_engine_execute.specs.declared.engines.UnitFault.{UnitFault};

    ghost table: { Self → List Descriptor };

    ghost units: { Self → ℕ };

    ghost before: { Self → List Event };

    ghost after: { Self → List Event };

    ghost need: { Self → ℕ → NeedView };

    // may e u w k l: unit u may emit l for worker w, which had registered k descriptors before
    ghost may: { Self → ℕ → ℕ → ℕ → List Event → Type 0 };

    // fails e u why: unit u may fail with why
    ghost fails: { Self → ℕ → UnitFault → Type 0 } = { λ _ _ _. Unit {0} };

    /// Returns the table of the static descriptors. A descriptor's key is its number in it.
    fn table(&self) -> &Arc<Table>
        ensures { arc_value result.now ≡ table self.now };

    /// Returns how many units there are, at most `MAX_UNITS`. They are numbered from 0.
    fn units(&self) -> u32
        ensures is { result ≡ units self.now }
        ensures limit { result ≤ MAX_UNITS };

    /// Makes the events before all units, which worker 0 emits.
    ///
    /// [`execute`](crate::execute) calls this once, before it starts a thread. There are at most `MAX_EVENTS`. Each is lawful, of a static descriptor and no registration.
    ///
    /// # Errors
    /// A request for memory was refused.
    fn before(&self, alloc: Global) -> Result<Vec<Event>, AllocError>
        ensures is { IfOk result (λ v. v.items ≡ before self.now) }
        ensures static_events { OnOk result
            (AreOfWorkerZero (length (table self.now)) (before self.now)) };

    /// Makes the events after all units, which worker 0 emits, with the limits of those before.
    ///
    /// [`execute`](crate::execute) calls this once, after every thread has ended, where each unit
    /// was run and the run has not failed.
    ///
    /// # Errors
    /// A request for memory was refused.
    fn after(&self, alloc: Global) -> Result<Vec<Event>, AllocError>
        ensures is { IfOk result (λ v. v.items ≡ after self.now) }
        ensures static_events { OnOk result
            (AreOfWorkerZero (length (table self.now)) (after self.now)) };

    /// Returns the resources that a unit reads and writes while it runs.
    ///
    /// JUnit: the `@ResourceLock`s of its nodes, and `@Isolated`.
    fn need(&self, unit: u32) -> Need
        requires { unit < units self.now }
        ensures { result ≡ need self.now unit };

    /// Runs one unit, and emits its events into `sink` in the order in which they happen.
    ///
    /// [`execute`](crate::execute) calls this from the thread of the worker that drew `unit`. All
    /// workers, up to `MAX_WORKERS` threads, may call it at once, each with another unit. `seat`
    /// holds the locks that `need` asked for, from before the call until after it.
    ///
    /// A static descriptor's key is its number in the table; the key of a dynamic one is what
    /// `sink.register` returned. JUnit: the body of a `HierarchicalTestEngine`'s node.
    ///
    /// # Errors
    /// `Sink` where the sink refused an event, `Memory`, or where the engine itself can't go on
    /// `Own(n)`, with a number of its choice, or `Text(text)`, with its words. The worker then
    /// stops, and `execute` answers `RunFault::Engine(unit, fault)` of the lowest worker that had a
    /// fault.
    fn run<R: Wait, S: Sink>(
        &self,
        rt: &R,
        alloc: Global,
        unit: u32,
        seat: &BookSeat,
        sink: &mut S,
    ) -> Result<(), UnitFault>
        requires unit { unit < units self.now }
        requires holds { seat.now.holds ≡ Some (need self.now unit) }
        requires table { (S.view sink.old).table ≡ table self.now }
        ensures same { IsSameSender (S.view sink.old) (S.view sink.new) }
        ensures ok { OnOk result
            (ExtendsAs (may self.now unit) (S.view sink.old) (S.view sink.new)) }
        ensures err { OnErr result (Extends (S.view sink.old) (S.view sink.new)) }
        ensures fails { IfErr result (fails self.now unit) };
}

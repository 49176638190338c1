//! Calls that emit one event each.
ghost use Rattle.std.specs.Prelude.{◌≡◌, [], ◌∷◌, IfOk, OnOk, IfErr, OnErr};
ghost use Rattle.tk_engine_execute.specs.Grown.{Grew};
ghost use Rattle.tk_engine_unit_events.specs.Emitted.{Emitted, IsOfSink, Registered, file_published, finished, reported, skipped, started};

use crate::events::{file_published, finished, reported, skipped, started};
use std::sync::Wait;
use tk_engine_execute::{Sink, UnitFault};
use tk_events::{Event, Outcome, Pairs};
use tk_ids::{DType, Segment, Text};

/// Emits an event of a static descriptor, or of one that the sink registered.
///
/// # Errors
/// `Sink` where the sink refuses the event, as [`Sink::emit`] says. Nothing is emitted then.
#[tactic(auto, using(crate::proofs::Emissions::emitted_one, tk_engine_execute::proofs::SinkGrowth::grew_same, tk_engine_execute::proofs::SinkGrowth::grew_one))]
pub fn emit<R: Wait, S: Sink>(rt: &R, event: Event, sink: &mut S) -> Result<(), UnitFault>
    ensures ok { OnOk result (Emitted (S.view sink.old) (S.view sink.new) (event ∷ [])) }
    ensures err { OnErr result (S.view sink.new ≡ S.view sink.old) }
    ensures fault { IfErr result IsOfSink }
    ensures grew { Grew (S.view sink.old) (S.view sink.new) }
{
    sink.emit(rt, event)?;
    Ok(())
}

/// Emits that a descriptor started. JUnit: `executionStarted`.
///
/// # Errors
/// As [`emit`].
pub fn start<R: Wait, S: Sink>(rt: &R, key: u32, stamp: u64, sink: &mut S) -> Result<(), UnitFault>
    ensures ok { OnOk result
        (Emitted (S.view sink.old) (S.view sink.new) (started key stamp ∷ [])) }
    ensures err { OnErr result (S.view sink.new ≡ S.view sink.old) }
    ensures fault { IfErr result IsOfSink }
    ensures grew { Grew (S.view sink.old) (S.view sink.new) }
{
    emit(rt, started(key, stamp), sink)
}

/// Emits that a descriptor finished with this outcome. JUnit: `executionFinished`.
///
/// # Errors
/// As [`emit`].
pub fn finish<R: Wait, S: Sink>(
    rt: &R,
    key: u32,
    stamp: u64,
    outcome: Outcome,
    sink: &mut S,
) -> Result<(), UnitFault>
    ensures ok { OnOk result
        (Emitted (S.view sink.old) (S.view sink.new) (finished key stamp outcome ∷ [])) }
    ensures err { OnErr result (S.view sink.new ≡ S.view sink.old) }
    ensures fault { IfErr result IsOfSink }
    ensures grew { Grew (S.view sink.old) (S.view sink.new) }
{
    emit(rt, finished(key, stamp, outcome), sink)
}

/// Emits that a descriptor is skipped, and why. JUnit: `executionSkipped`.
///
/// # Errors
/// As [`emit`].
pub fn skip<R: Wait, S: Sink>(
    rt: &R,
    key: u32,
    stamp: u64,
    reason: Text,
    sink: &mut S,
) -> Result<(), UnitFault>
    ensures ok { OnOk result
        (Emitted (S.view sink.old) (S.view sink.new) (skipped key stamp reason ∷ [])) }
    ensures err { OnErr result (S.view sink.new ≡ S.view sink.old) }
    ensures fault { IfErr result IsOfSink }
    ensures grew { Grew (S.view sink.old) (S.view sink.new) }
{
    emit(rt, skipped(key, stamp, reason), sink)
}

/// Emits an entry of these pairs. JUnit: `reportingEntryPublished`.
///
/// # Errors
/// As [`emit`].
pub fn report<R: Wait, S: Sink>(
    rt: &R,
    key: u32,
    stamp: u64,
    pairs: Pairs,
    sink: &mut S,
) -> Result<(), UnitFault>
    ensures ok { OnOk result
        (Emitted (S.view sink.old) (S.view sink.new) (reported key stamp pairs ∷ [])) }
    ensures err { OnErr result (S.view sink.new ≡ S.view sink.old) }
    ensures fault { IfErr result IsOfSink }
    ensures grew { Grew (S.view sink.old) (S.view sink.new) }
{
    emit(rt, reported(key, stamp, pairs), sink)
}

/// Emits that the file at this path was published. JUnit: `fileEntryPublished`.
///
/// # Errors
/// As [`emit`].
pub fn publish_file<R: Wait, S: Sink>(
    rt: &R,
    key: u32,
    stamp: u64,
    path: Text,
    sink: &mut S,
) -> Result<(), UnitFault>
    ensures ok { OnOk result
        (Emitted (S.view sink.old) (S.view sink.new) (file_published key stamp path ∷ [])) }
    ensures err { OnErr result (S.view sink.new ≡ S.view sink.old) }
    ensures fault { IfErr result IsOfSink }
    ensures grew { Grew (S.view sink.old) (S.view sink.new) }
{
    emit(rt, file_published(key, stamp, path), sink)
}

/// Registers a descriptor below its parent, and returns its key. JUnit: `dynamicTestRegistered`.
///
/// `parent` is the key of a static descriptor or of one that the sink registered; the new
/// descriptor's id is the parent's with `segment` appended.
///
/// # Errors
/// `Sink` where the sink refuses the registration, as [`Sink::register`] says. Nothing is emitted
/// then.
#[tactic(auto, using(crate::proofs::Emissions::registered_as, tk_engine_execute::proofs::SinkGrowth::grew_same))]
pub fn register<R: Wait, S: Sink>(
    rt: &R,
    parent: u32,
    segment: &Segment,
    name: &str,
    dtype: DType,
    stamp: u64,
    sink: &mut S,
) -> Result<u32, UnitFault>
    ensures ok { IfOk result (λ key.
        Registered (S.view sink.old) (S.view sink.new)
        (record {
          parent = parent;
          segment = segment.now;
          name = name.now;
          dtype = dtype;
          stamp = stamp;
        }) key) }
    ensures err { OnErr result (S.view sink.new ≡ S.view sink.old) }
    ensures fault { IfErr result IsOfSink }
    ensures grew { Grew (S.view sink.old) (S.view sink.new) }
{
    Ok(sink.register(rt, parent, segment, name, dtype, stamp)?)
}

//! The record of a run.
use engine_testkit::record::{ByteTarget, Record, write_record};
use engine_testkit::{Engine, RunFault, execute};
use std::alloc::Global;
use std::sync::Wait;
use std::thread::Threads;

// Whether a record has this text.
fn has_text(alloc: Global, record: &Record, text: &str) -> bool {
    let mut target = ByteTarget::new(alloc);
    write_record(alloc, record, &mut target).is_ok() && target.bytes() == text.as_bytes()
}

// Whether the record of a run by one worker has this text.
pub(crate) fn has_record<R: Threads + Wait + Sync, E: Engine>(
    rt: &R,
    alloc: Global,
    engine: &E,
    text: &str,
) -> Result<bool, RunFault> {
    let results = execute(rt, alloc, engine, 1, 16)?;
    Ok(has_text(alloc, results.recorded(), text))
}

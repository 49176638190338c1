//! Whether a record keeps the lifecycle that a listener of an engine may rely on.
ghost use Rattle.std.specs.Prelude.{IfOk};
ghost use Rattle.tk_query_lifecycle.specs.Lifecycle.{IsLifecycle};

use crate::lifecycle_rules::Lifecycle;
use crate::progress::Progress;
use std::alloc::{AllocError, Global};
use tk_record::Record;

/// Says whether the record keeps the lifecycle, and where it first doesn't.
///
/// # Errors
/// `AllocError` where a request for memory is refused.
pub fn lifecycle(alloc: Global, record: &Record) -> Result<Lifecycle, AllocError>
    ensures { IfOk result (IsLifecycle «record».now) }
{
    record.shows_record();
    record.table().shows_different_ids();
    let mut progress = Progress::new(alloc, record);
    let mut position = 0;
    'events: while let Some(event) = record.entry(position) {
        if let Some(rule) = progress.take(alloc, record, position, &event)? {
            return Ok(Lifecycle::Broken(position, rule));
        }
        position += 1;
    }
    if let Some(key) = progress.first_running() {
        return Ok(Lifecycle::Unfinished(key));
    }
    let never_ran = progress.first_never_run(alloc, record)?;
    match never_ran {
        Some(key) => Ok(Lifecycle::NeverRan(key)),
        None => Ok(Lifecycle::Kept),
    }
}

//! The capacity with which a plan is run, and the law of the record that is written of a run.
ghost use Rattle.std.specs.Prelude.{◌≡◌};
ghost use Rattle.tk_plan_runs.specs.Answers.{RunIsReadBack};

use crate::plan_runs::DEFAULT_CAPACITY;
use tk_record_text::laws::what_is_written_is_read;

/// A plan is run with a queue of 64 items.
pub fn limits()
    ensures capacity { DEFAULT_CAPACITY ≡ 64 }
{}

/// What [`write_run_record`](crate::write_run_record) wrote of the run of a plan is read by
/// `tk_record_text::read_record` as the record of that run, unless memory is refused, a device
/// breaks or the text has more than 16 MiB.
pub fn run_is_read_back()
    ensures { RunIsReadBack }
{
    what_is_written_is_read();
}

//! The words of a plan's JSON.
ghost use Rattle.std.specs.Prelude.{◌≡◌};
ghost use Rattle.tk_plan_nodes.specs.NodeJson as NodeJson;

use tk_events::Status;
use tk_ids::{DType, LockMode};

/// Gives the word of a type in a plan's text.
pub(crate) fn dtype_word(dtype: DType) -> &'static str
    ensures { result.now ≡ NodeJson.dtype_word dtype }
{
    match dtype {
        DType::Container => "container",
        DType::Test => "test",
        DType::Both => "both",
    }
}

/// Gives the word of a lock's mode in a plan's text.
pub(crate) fn lock_mode_word(mode: LockMode) -> &'static str
    ensures { result.now ≡ NodeJson.lock_mode_word mode }
{
    match mode {
        LockMode::Read => "read",
        LockMode::ReadWrite => "read_write",
    }
}

/// Gives the word of a status in a plan's text.
pub(crate) fn status_word(status: Status) -> &'static str
    ensures { result.now ≡ NodeJson.status_word status }
{
    match status {
        Status::Successful => "successful",
        Status::Aborted => "aborted",
        Status::Failed => "failed",
    }
}

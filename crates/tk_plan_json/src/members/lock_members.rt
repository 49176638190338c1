//! Readers of locks.
ghost use Rattle.std.specs.Prelude.{◌≡◌, Some, codes};
ghost use Rattle.serde_json.specs.Find.{get};
ghost use Rattle.serde_json.specs.View.{view};
ghost use Rattle.tk_plan_json.specs.Checks.{array_of, row};
ghost use Rattle.tk_plan_json.specs.Rows.{lock_mode_row, locks_row, lock as is_lock};
ghost use Rattle.tk_plan_json.specs.Pointers.{pointer, viewed, wrong_at};
ghost use Rattle.tk_plan_json.specs.Answers.{Reads};
ghost use Rattle.tk_plan_json.specs.Contents.{json_lock_mode, json_lock, json_locks};

use crate::faults::PlanFault;
use crate::members::json_members::{check_members, text_member};
use crate::members::json_paths::JsonPath;
use crate::members::json_values::items_in;
use crate::members::path_texts::{member_path, wrong_member, wrong_value};
use serde_json::Value;
use std::alloc::Global;
use tk_ids::{Lock, LockMode};
use tk_plan::NodeLocks;

/// Reads the member `mode` of a lock, which is for writing where it is absent.
fn lock_mode_member(alloc: Global, at: JsonPath<'_>, object: &Value) -> Result<LockMode, PlanFault>
    ensures { Reads (row (pointer at.entry) (view object.now) lock_mode_row)
        (λ m. m ≡ json_lock_mode (get (codes "mode") (view object.now))) result }
{
    let Some(value) = object.get("mode") else {
        return Ok(LockMode::ReadWrite);
    };
    match value.as_str() {
        Some("read") => Ok(LockMode::Read),
        Some("read_write") => Ok(LockMode::ReadWrite),
        _ => Err(wrong_member(alloc, at, "mode")),
    }
}

fn lock(alloc: Global, at: JsonPath<'_>, value: &Value) -> Result<Lock, PlanFault>
    ensures { Reads (is_lock (pointer at.entry) (view value.now))
        (λ l. l ≡ json_lock (view value.now)) result }
{
    check_members(alloc, at, value, &["key", "mode"])?;
    let name = text_member(alloc, at, "key", value.get("key"))?;
    let mode = lock_mode_member(alloc, at, value)?;
    Ok(Lock { name, mode })
}

fn locks(alloc: Global, at: &str, value: &Value) -> Result<NodeLocks, PlanFault>
    ensures { Reads (array_of is_lock at.now (view value.now))
        (λ l. l ≡ json_locks (Some (view value.now))) result }
{
    let Some(items) = items_in(value) else {
        return Err(wrong_value(alloc, JsonPath::Whole(at)));
    };
    let mut locks = Vec::new(alloc);
    for (index, item) in items.iter().enumerate() {
        locks.push(lock(alloc, JsonPath::Item(at, index), item)?)?;
    }
    Ok(NodeLocks::new(locks))
}

/// Reads the member `locks` of a node, which has none where it is absent.
///
/// # Errors
/// `Field` with the first place in the member where something is wrong or missing; `Memory` where a
/// request for memory is refused.
pub fn locks_member(
    alloc: Global,
    at: JsonPath<'_>,
    value: Option<&Value>,
) -> Result<NodeLocks, PlanFault>
    ensures { Reads (wrong_at at.entry locks_row value.entry)
        (λ l. l ≡ json_locks (viewed value.entry)) result }
{
    match value {
        Some(value) => {
            let path = member_path(alloc, at, "locks")?;
            locks(alloc, &path, value)
        }
        None => Ok(NodeLocks::new(Vec::new(alloc))),
    }
}

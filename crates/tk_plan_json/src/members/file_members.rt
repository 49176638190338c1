//! Readers of files.
ghost use Rattle.std.specs.Prelude.{◌≡◌, Some};
ghost use Rattle.serde_json.specs.View.{view};
ghost use Rattle.tk_plan_json.specs.Checks.{array_of, item_at, members_wrong};
ghost use Rattle.tk_plan_json.specs.Rows.{files_rows, nonempty_text};
ghost use Rattle.tk_plan_json.specs.Pointers.{pointer};
ghost use Rattle.tk_plan_json.specs.Answers.{Reads};
ghost use Rattle.tk_plan_json.specs.Contents.{json_path, json_files};
ghost use Rattle.tk_plan_json.specs.MemberValues.{AreFiles};

use crate::faults::PlanFault;
use crate::members::json_paths::JsonPath;
use crate::members::json_values::items_in;
use crate::members::path_texts::{member_path, wrong_item, wrong_value};
use serde_json::Value;
use std::alloc::Global;
use tk_ids::Text;
use tk_plan::Files;

/// The path of a file, an item of the array there.
fn path(alloc: Global, array: &str, index: usize, item: &Value) -> Result<Text, PlanFault>
    ensures { Reads (nonempty_text (item_at array.now index) (view item.now))
        (λ t. t ≡ json_path (view item.now)) result }
{
    match item.as_str() {
        Some(text) if !text.is_empty() => Ok(Text::copy(alloc, text)?),
        _ => Err(wrong_item(alloc, JsonPath::Whole(array), index)),
    }
}

fn files(alloc: Global, at: &str, value: &Value) -> Result<Files, PlanFault>
    ensures { Reads (array_of nonempty_text at.now (view value.now))
        (λ f. f ≡ json_files (Some (view value.now))) result }
{
    let Some(items) = items_in(value) else {
        return Err(wrong_value(alloc, JsonPath::Whole(at)));
    };
    let mut paths = Vec::new(alloc);
    for (index, item) in items.iter().enumerate() {
        paths.push(path(alloc, at, index, item)?)?;
    }
    Ok(Files::new(paths))
}

/// Reads the member `files`, which a node may have only in a plan of version 2.
///
/// # Errors
/// `Field` with the first place in the member where something is wrong or missing; `Memory` where a
/// request for memory is refused.
pub fn files_member(
    alloc: Global,
    at: JsonPath<'_>,
    object: &Value,
    takes_files: bool,
) -> Result<Files, PlanFault>
    ensures { Reads (members_wrong (files_rows takes_files) (pointer at.entry) (view object.now))
        (AreFiles takes_files (view object.now)) result }
{
    if !takes_files {
        return Ok(Files::new(Vec::new(alloc)));
    }
    match object.get("files") {
        Some(value) => {
            let path = member_path(alloc, at, "files")?;
            files(alloc, &path, value)
        }
        None => Ok(Files::new(Vec::new(alloc))),
    }
}

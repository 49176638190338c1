//! Readers of single members.
ghost use Rattle.std.specs.Prelude.{◌≡◌, ◌==◌, ℕ, List, Some, None, IfSome, flat_map, length, map};
ghost use Rattle.std.specs.List.{list_any};
ghost use Rattle.std.specs.Str.{bytes_eq};
ghost use Rattle.serde_json.specs.View.{view, members_view};
ghost use Rattle.tk_plan_json.specs.Checks.{escape, item_at, text as is_text, any_array, pair_of, must, may, unknown};
ghost use Rattle.tk_plan_json.specs.Rows.{dtype_row, segment_row, mode_row, isolated_row};
ghost use Rattle.tk_plan_json.specs.Pointers.{pointer, viewed, wrong_at, IsPairOf};
ghost use Rattle.tk_plan_json.specs.steps.Members.{IsFirstUnknown};
ghost use Rattle.tk_plan_json.specs.Answers.{Reads};
ghost use Rattle.tk_plan_json.specs.Contents.{json_text, json_optional, json_truth, json_dtype, json_concurrent, listed};

use crate::faults::PlanFault;
use crate::members::json_paths::JsonPath;
use crate::members::json_values::items_in;
use crate::members::member_values::TwoTexts;
use crate::members::path_texts::{
    escaped_path, field, member_path, wrong_item, wrong_member, wrong_value,
};
use serde_json::{Map, Value};
use std::alloc::Global;
use tk_ids::{DType, Text};

/// Reads a member that has to be there and to be a text.
///
/// # Errors
/// `Field` with the place of the member where it is missing or no text; `Memory` where a request
/// for memory is refused.
pub fn text_member(
    alloc: Global,
    at: JsonPath<'_>,
    name: &str,
    value: Option<&Value>,
) -> Result<Text, PlanFault>
    requires { flat_map escape name.now ≡ name.now }
    ensures { Reads (wrong_at at.entry (must name.now is_text) value.entry)
        (λ t. t ≡ json_text (viewed value.entry)) result }
{
    match value.and_then(Value::as_str) {
        Some(text) => Ok(Text::copy(alloc, text)?),
        None => Err(wrong_member(alloc, at, name)),
    }
}

/// Reads a member that may be missing, and else is a text.
///
/// # Errors
/// `Field` with the place of the member where it is there and no text; `Memory` where a request for
/// memory is refused.
pub fn optional_member(
    alloc: Global,
    at: JsonPath<'_>,
    name: &str,
    value: Option<&Value>,
) -> Result<Option<Text>, PlanFault>
    requires { flat_map escape name.now ≡ name.now }
    ensures { Reads (wrong_at at.entry (may name.now is_text) value.entry)
        (λ t. t ≡ json_optional (viewed value.entry)) result }
{
    let Some(value) = value else {
        return Ok(None);
    };
    match value.as_str() {
        Some(text) => Ok(Some(Text::copy(alloc, text)?)),
        None => Err(wrong_member(alloc, at, name)),
    }
}

/// Reads the member `type`.
///
/// # Errors
/// `Field` with the place of the member where it is missing or no name of a type; `Memory` where a
/// request for memory is refused.
pub fn dtype_member(
    alloc: Global,
    at: JsonPath<'_>,
    value: Option<&Value>,
) -> Result<DType, PlanFault>
    ensures { Reads (wrong_at at.entry dtype_row value.entry)
        (λ t. t ≡ json_dtype (viewed value.entry)) result }
{
    match value.and_then(Value::as_str) {
        Some("container") => Ok(DType::Container),
        Some("test") => Ok(DType::Test),
        Some("both") => Ok(DType::Both),
        _ => Err(wrong_member(alloc, at, "type")),
    }
}

/// Reads the member `mode`: whether it is `concurrent`.
///
/// # Errors
/// `Field` with the place of the member where it is there and no name of a mode; `Memory` where a
/// request for memory is refused.
pub fn mode_member(
    alloc: Global,
    at: JsonPath<'_>,
    value: Option<&Value>,
) -> Result<bool, PlanFault>
    ensures { Reads (wrong_at at.entry mode_row value.entry)
        (λ b. b ≡ json_concurrent (viewed value.entry)) result }
{
    let Some(value) = value else {
        return Ok(false);
    };
    match value.as_str() {
        Some("same_thread") => Ok(false),
        Some("concurrent") => Ok(true),
        _ => Err(wrong_member(alloc, at, "mode")),
    }
}

/// Reads the member `isolated`, which is false where it is missing.
///
/// # Errors
/// `Field` with the place of the member where it is there and neither true nor false; `Memory`
/// where a request for memory is refused.
pub fn isolated_member(
    alloc: Global,
    at: JsonPath<'_>,
    value: Option<&Value>,
) -> Result<bool, PlanFault>
    ensures { Reads (wrong_at at.entry isolated_row value.entry)
        (λ b. b ≡ json_truth (viewed value.entry)) result }
{
    let Some(value) = value else {
        return Ok(false);
    };
    match value.as_bool() {
        Some(is_isolated) => Ok(is_isolated),
        None => Err(wrong_member(alloc, at, "isolated")),
    }
}

/// Reads the item of this index of the array at `at`, which has to be a text.
fn item_text<'v>(
    alloc: Global,
    at: JsonPath<'_>,
    index: usize,
    item: &'v Value,
) -> Result<&'v str, PlanFault>
    ensures { Reads (is_text (item_at (pointer at.entry) index) (view item.now))
        (λ t. t.now ≡ json_text (Some (view item.now))) result }
{
    match item.as_str() {
        Some(text) => Ok(text),
        None => Err(wrong_item(alloc, at, index)),
    }
}

/// Reads an array of two texts.
pub(crate) fn two_texts<'v>(
    alloc: Global,
    at: JsonPath<'_>,
    value: &'v Value,
) -> Result<TwoTexts<'v>, PlanFault>
    ensures { Reads (pair_of is_text (pointer at.entry) (view value.now))
        (IsPairOf (Some (view value.now))) result }
{
    let Some([first, second]) = items_in(value) else {
        return Err(wrong_value(alloc, at));
    };
    let first = item_text(alloc, at, 0, first)?;
    let second = item_text(alloc, at, 1, second)?;
    Ok(TwoTexts { first, second })
}

/// The two texts of an array, or `None` where the value is anything else.
fn pair_in(value: &Value) -> Option<TwoTexts<'_>>
    ensures pair { IfSome result (IsPairOf (Some (view value.now))) }
    ensures fine { IfSome result (λ _. (at : List ℕ) → pair_of is_text at (view value.now) ≡ None) }
{
    match items_in(value)? {
        [first, second] => Some(TwoTexts {
            first: first.as_str()?,
            second: second.as_str()?,
        }),
        _ => None,
    }
}

/// Reads the member `segment`. The place of its value is written out only where it is wrong.
///
/// # Errors
/// `Field` with the place of the member where it is missing or not of two items, or with that of
/// its first item that is no text; `Memory` where a request for memory is refused.
pub fn segment_member<'v>(
    alloc: Global,
    at: JsonPath<'_>,
    value: Option<&'v Value>,
) -> Result<TwoTexts<'v>, PlanFault>
    ensures { Reads (wrong_at at.entry segment_row value.entry)
        (IsPairOf (viewed value.entry)) result }
{
    let Some(value) = value else {
        return Err(wrong_member(alloc, at, "segment"));
    };
    match pair_in(value) {
        Some(pair) => Ok(pair),
        None => {
            let path = member_path(alloc, at, "segment")?;
            two_texts(alloc, JsonPath::Whole(&path), value)
        }
    }
}

/// Refuses a member that is there and no array. Answers whether it has no items.
///
/// # Errors
/// `Field` with the place of the member where it is there and no array; `Memory` where a request
/// for memory is refused.
pub fn array_member(
    alloc: Global,
    at: JsonPath<'_>,
    name: &str,
    value: Option<&Value>,
) -> Result<bool, PlanFault>
    requires { flat_map escape name.now ≡ name.now }
    ensures { Reads (wrong_at at.entry (may name.now any_array) value.entry)
        (λ is_empty. is_empty ≡ (length (listed (viewed value.entry)) == 0)) result }
{
    match value {
        Some(value) => match items_in(value) {
            Some(items) => Ok(items.is_empty()),
            None => Err(wrong_member(alloc, at, name)),
        },
        None => Ok(true),
    }
}

/// Whether `name` is one of `names`.
fn is_among(names: &[&str], name: &str) -> bool
    ensures { result ≡ list_any (λ n. bytes_eq n name.now) (map (λ n. n.now) names.now) }
{
    names.contains(&name)
}

/// The first name, in byte order, of a member that has none of `names`.
fn first_unknown<'v>(members: &'v Map<String, Value>, names: &[&str]) -> Option<&'v str>
    ensures { IsFirstUnknown (map (λ n. n.now) names.now) (members_view members.now.entries)
        result }
{
    for name in members.keys() {
        if !is_among(names, name.as_str()) {
            return Some(name.as_str());
        }
    }
    None
}

/// Refuses a value that is no object, and an object with a member that is not one of `names`.
///
/// # Errors
/// `Field` with the place of the value where it is no object, else with that of the first such
/// member in the order of the names; `Memory` where a request for memory is refused.
pub fn check_members(
    alloc: Global,
    at: JsonPath<'_>,
    value: &Value,
    names: &[&str],
) -> Result<(), PlanFault>
    ensures { Reads (unknown (map (λ n. n.now) names.now) (pointer at.entry) (view value.now))
        (λ _. Unit {0}) result }
{
    let Some(members) = value.as_object() else {
        return Err(wrong_value(alloc, at));
    };
    match first_unknown(members, names) {
        Some(name) => Err(field(escaped_path(alloc, at, name)?)),
        None => Ok(()),
    }
}

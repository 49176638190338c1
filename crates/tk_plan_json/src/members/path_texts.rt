//! Places as JSON Pointers.
ghost use Rattle.std.specs.Prelude.{◌≡◌, ◌++◌, ℕ, List, IfOk, OnOk, Some, string_bytes, flat_map, encode_utf8};
ghost use Rattle.tk_plan_json.specs.Answers.{Refuses};
ghost use Rattle.tk_plan_json.specs.Checks.{escape, member_at, item_at};
ghost use Rattle.tk_plan_json.specs.Pointers.{pointer};

use crate::faults::PlanFault;
use crate::members::json_paths::JsonPath;
use std::alloc::{AllocError, Global};
use tk_ids::Text;

/// The place, written out.
fn whole_path(alloc: Global, at: JsonPath<'_>) -> Result<String, AllocError>
    ensures { IfOk result (λ p. string_bytes p ≡ pointer at.entry) }
{
    match at {
        JsonPath::Whole(text) => String::from_str(alloc, text),
        JsonPath::Item(array, index) => format!(in alloc; "{array}/{index}"),
        JsonPath::Inner(array, index, inner) => {
            let outer = format!(in alloc; "{array}/{index}")?;
            format!(in alloc; "{outer}/{inner}")
        }
    }
}

/// The place of a member whose name needs no escape.
///
/// # Errors
/// `AllocError` where a request for memory is refused.
pub fn member_path(alloc: Global, at: JsonPath<'_>, name: &str) -> Result<String, AllocError>
    requires { flat_map escape name.now ≡ name.now }
    ensures { IfOk result (λ p. string_bytes p ≡ member_at (pointer at.entry) name.now) }
{
    let object = whole_path(alloc, at)?;
    format!(in alloc; "{object}/{name}")
}

/// The place of an item.
fn item_path(alloc: Global, at: JsonPath<'_>, index: usize) -> Result<String, AllocError>
    ensures { IfOk result (λ p. string_bytes p ≡ item_at (pointer at.entry) index) }
{
    let array = whole_path(alloc, at)?;
    format!(in alloc; "{array}/{index}")
}

/// Adds a character of a member's name, escaped.
fn push_escaped(path: &mut String, character: char) -> Result<(), AllocError>
    ensures { OnOk result (string_bytes path.new
        ≡ string_bytes path.old ++ flat_map escape (encode_utf8 character)) }
{
    match character {
        '~' => path.push_str("~0"),
        '/' => path.push_str("~1"),
        _ => path.push(character),
    }
}

/// The place of any member.
pub(crate) fn escaped_path(
    alloc: Global,
    at: JsonPath<'_>,
    name: &str,
) -> Result<String, AllocError>
    ensures { IfOk result (λ p. string_bytes p ≡ member_at (pointer at.entry) name.now) }
{
    let mut path = whole_path(alloc, at)?;
    path.push('/')?;
    for character in name.chars() {
        push_escaped(&mut path, character)?;
    }
    Ok(path)
}

/// The fault at a place, or `Memory` where there was none to write the place out.
fn fault_at(path: Result<String, AllocError>) -> PlanFault
    ensures { (at : List ℕ) → IfOk path (λ p. string_bytes p ≡ at) → Refuses (Some at) result }
{
    match path {
        Ok(path) => field(path),
        Err(fault) => PlanFault::from(fault),
    }
}

/// The fault of a wrong value.
pub(crate) fn wrong_value(alloc: Global, at: JsonPath<'_>) -> PlanFault
    ensures { Refuses (Some (pointer at.entry)) result }
{
    fault_at(whole_path(alloc, at))
}

/// The fault of an array whose item of this index is wrong.
pub(crate) fn wrong_item(alloc: Global, at: JsonPath<'_>, index: usize) -> PlanFault
    ensures { Refuses (Some (item_at (pointer at.entry) index)) result }
{
    fault_at(item_path(alloc, at, index))
}

/// The fault of an object whose member of this name is wrong. The name needs no escape.
pub fn wrong_member(alloc: Global, at: JsonPath<'_>, name: &str) -> PlanFault
    requires { flat_map escape name.now ≡ name.now }
    ensures { Refuses (Some (member_at (pointer at.entry) name.now)) result }
{
    fault_at(member_path(alloc, at, name))
}

/// The fault at a place.
pub(crate) fn field(path: String) -> PlanFault
    ensures { result ≡ PlanFault.Field (string_bytes path) }
{
    PlanFault::Field(Text::from(path))
}

//! Readers of a node's result and of its entries.
ghost use Rattle.std.specs.Prelude.{◌≡◌, IfOk, OnOk, Some, codes, true};
ghost use Rattle.std.specs.BTreeMap.{insert_entry};
ghost use Rattle.std.specs.Cmp.Lexicographic.{slice_cmp};
ghost use Rattle.std.specs.Ordering.{nat_cmp};
ghost use Rattle.serde_json.specs.Find.{get};
ghost use Rattle.serde_json.specs.View.{view};
ghost use Rattle.tk_events.specs.Event.{is_strictly_increasing};
ghost use Rattle.tk_plan_json.specs.Checks.{array_of, item_at, pair_of, row, text as is_text};
ghost use Rattle.tk_plan_json.specs.Rows.{status_row, result_row, entries_row, entry as is_entry, result as is_result};
ghost use Rattle.tk_plan_json.specs.Pointers.{pointer, viewed, wrong_at};
ghost use Rattle.tk_plan_json.specs.Answers.{Reads};
ghost use Rattle.tk_plan_json.specs.Contents.{json_outcome, json_status, listed};
ghost use Rattle.tk_plan_json.specs.MemberValues.{AreReports};
ghost use Rattle.tk_plan_json.specs.steps.Members.{has_key, IsOnlyPair, IsReport};

use crate::faults::PlanFault;
use crate::members::json_members::{check_members, optional_member, two_texts};
use crate::members::json_paths::JsonPath;
use crate::members::json_values::items_in;
use crate::members::member_values::{Report, Reports, TwoTexts};
use crate::members::path_texts::{member_path, wrong_item, wrong_member, wrong_value};
use serde_json::Value;
use std::alloc::{AllocError, Global};
use std::collections::BTreeMap;
use tk_events::{Outcome, Pairs, Status};
use tk_ids::Text;
use tk_plan::Entries;

fn status_member(alloc: Global, at: JsonPath<'_>, object: &Value) -> Result<Status, PlanFault>
    ensures { Reads (row (pointer at.entry) (view object.now) status_row)
        (λ s. s ≡ json_status (get (codes "status") (view object.now))) result }
{
    match object.get("status").and_then(Value::as_str) {
        Some("successful") => Ok(Status::Successful),
        Some("aborted") => Ok(Status::Aborted),
        Some("failed") => Ok(Status::Failed),
        _ => Err(wrong_member(alloc, at, "status")),
    }
}

fn outcome(alloc: Global, at: JsonPath<'_>, value: &Value) -> Result<Outcome, PlanFault>
    ensures { Reads (is_result (pointer at.entry) (view value.now))
        (λ outcome. outcome ≡ json_outcome (Some (view value.now))) result }
{
    check_members(alloc, at, value, &["status", "message"])?;
    let status = status_member(alloc, at, value)?;
    let message = optional_member(alloc, at, "message", value.get("message"))?;
    match Outcome::with(status, message) {
        Some(outcome) => Ok(outcome),
        None => Err(wrong_member(alloc, at, "message")),
    }
}

/// Reads the member `result` of a node, which is successful where it is absent.
///
/// # Errors
/// `Field` with the first place in the member where something is wrong or missing; `Memory` where a
/// request for memory is refused.
pub fn result_member(
    alloc: Global,
    at: JsonPath<'_>,
    value: Option<&Value>,
) -> Result<Outcome, PlanFault>
    ensures { Reads (wrong_at at.entry result_row value.entry)
        (λ outcome. outcome ≡ json_outcome (viewed value.entry)) result }
{
    match value {
        Some(value) => {
            let path = member_path(alloc, at, "result")?;
            outcome(alloc, JsonPath::Whole(&path), value)
        }
        None => Ok(Outcome::Successful),
    }
}

/// The pairs in the order of their keys, kept so that the events of an entry share them.
fn pairs_of(alloc: Global, map: BTreeMap<Text, Text>) -> Result<Pairs, AllocError>
    ensures pairs { IfOk result (λ pairs. pairs ≡ map.entries) }
    ensures increasing { OnOk result (is_strictly_increasing map.entries ≡ true) }
{
    let mut pairs = Vec::with_capacity(alloc, map.len())?;
    for pair in map {
        pairs.push(pair)?;
    }
    Ok(Pairs::of(pairs).shared(alloc)?)
}

/// Puts a pair into the map, in place of one with its key; answers whether there was one.
fn insert_pair(
    alloc: Global,
    map: &mut BTreeMap<Text, Text>,
    pair: TwoTexts<'_>,
) -> Result<bool, AllocError>
    ensures pair { OnOk result (map.new.entries ≡ insert_entry (slice_cmp nat_cmp)
        map.old.entries pair.entry.first.now pair.entry.second.now) }
    ensures repeats { IfOk result (λ repeats.
        repeats ≡ has_key pair.entry.first.now map.old.entries) }
{
    let key = Text::copy(alloc, pair.first)?;
    let value = Text::copy(alloc, pair.second)?;
    Ok(map.insert(key, value)?.is_some())
}

/// Reads the pair of an entry that has no other: it needs no map.
fn only_pair(alloc: Global, array: &str, index: usize, item: &Value) -> Result<Report, PlanFault>
    ensures { Reads (pair_of is_text (item_at (item_at array.now index) 0) (view item.now))
        (IsOnlyPair (view item.now)) result }
{
    let pair = two_texts(alloc, JsonPath::Inner(array, index, 0), item)?;
    let key = Text::copy(alloc, pair.first)?;
    let value = Text::copy(alloc, pair.second)?;
    Ok(Report {
        pairs: Pairs::shared_pair(alloc, key, value)?,
        repeats: false,
    })
}

fn entry(alloc: Global, array: &str, index: usize, value: &Value) -> Result<Report, PlanFault>
    ensures { Reads (is_entry (item_at array.now index) (view value.now))
        (IsReport (view value.now)) result }
{
    let Some(items) = items_in(value) else {
        return Err(wrong_item(alloc, JsonPath::Whole(array), index));
    };
    if let [item] = items {
        return only_pair(alloc, array, index, item);
    }
    let mut map = BTreeMap::new(alloc);
    let mut repeats = false;
    for (inner, item) in items.iter().enumerate() {
        let pair = two_texts(alloc, JsonPath::Inner(array, index, inner), item)?;
        repeats |= insert_pair(alloc, &mut map, pair)?;
    }
    let pairs = pairs_of(alloc, map)?;
    Ok(Report { pairs, repeats })
}

fn entries(alloc: Global, at: &str, value: &Value) -> Result<Reports, PlanFault>
    ensures { Reads (array_of is_entry at.now (view value.now))
        (AreReports (listed (Some (view value.now)))) result }
{
    let Some(items) = items_in(value) else {
        return Err(wrong_value(alloc, JsonPath::Whole(at)));
    };
    let mut entries = Vec::with_capacity(alloc, items.len())?;
    let mut repeats = false;
    for (index, item) in items.iter().enumerate() {
        let report = entry(alloc, at, index, item)?;
        repeats |= report.repeats;
        entries.push(report.pairs)?;
    }
    Ok(Reports {
        entries: Entries::new(entries),
        repeats,
    })
}

/// Reads the member `entries` of a node, which has none where it is absent.
///
/// # Errors
/// `Field` with the first place in the member where something is wrong or missing; `Memory` where a
/// request for memory is refused.
pub fn entries_member(
    alloc: Global,
    at: JsonPath<'_>,
    value: Option<&Value>,
) -> Result<Reports, PlanFault>
    ensures { Reads (wrong_at at.entry entries_row value.entry)
        (AreReports (listed (viewed value.entry))) result }
{
    match value {
        Some(value) => {
            let path = member_path(alloc, at, "entries")?;
            entries(alloc, &path, value)
        }
        None => Ok(Reports {
            entries: Entries::new(Vec::new(alloc)),
            repeats: false,
        }),
    }
}

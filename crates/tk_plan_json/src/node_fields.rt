//! The members of a node.
ghost use Rattle.std.specs.Prelude.{◌≡◌, [], true, false, map};
ghost use Rattle.serde_json.specs.View.{view};
ghost use Rattle.tk_plan_json.specs.Checks.{members_wrong, unknown};
ghost use Rattle.tk_plan_json.specs.Rows.{static_rows, dynamic_rows, static_node, dynamic_node};
ghost use Rattle.tk_plan_json.specs.NodeInputs.{children_of, dynamic_of};
ghost use Rattle.tk_plan_json.specs.Pointers.{pointer};
ghost use Rattle.tk_plan_json.specs.Answers.{Reads};
ghost use Rattle.tk_plan_json.specs.steps.Fields.{heading_rows, concurrency_rows, content_rows, below_rows, has_no_below, AreMembers, IsHeading, IsConcurrency, IsContent, HasFields};

use crate::faults::PlanFault;
use crate::members::file_members::files_member;
use crate::members::json_members::{
    array_member, check_members, dtype_member, isolated_member, mode_member, optional_member,
    segment_member, text_member,
};
use crate::members::json_paths::JsonPath;
use crate::members::json_values::{into_items, into_members};
use crate::members::lock_members::locks_member;
use crate::members::member_values::{Reports, TwoTexts};
use crate::members::result_members::{entries_member, result_member};
use crate::node_members::NodeMembers;
use serde_json::Value;
use std::alloc::Global;
use tk_events::Outcome;
use tk_ids::{DType, Text};
use tk_plan::{Files, NodeLocks};

/// What the members `type`, `segment` and `name` of a node say.
#[derive(Drop)]
pub(crate) struct Heading<'v> {
    pub dtype: DType,
    pub segment: TwoTexts<'v>,
    pub name: Text,
}

/// What the members `mode`, `isolated` and `locks` of a node say.
#[derive(Drop)]
pub(crate) struct Concurrency {
    pub is_concurrent: bool,
    pub is_isolated: bool,
    pub locks: NodeLocks,
}

/// What the members `skip`, `result`, `entries` and `files` of a node say.
#[derive(Drop)]
pub(crate) struct Content {
    pub skip: Option<Text>,
    pub outcome: Outcome,
    pub reports: Reports,
    pub files: Files,
}

/// What the members of a node say.
#[derive(Drop)]
pub(crate) struct Fields<'v> {
    pub heading: Heading<'v>,
    pub concurrency: Concurrency,
    pub content: Content,
    /// Whether no node stands below it.
    pub is_leaf: bool,
}

/// Reads the members `type`, `segment` and `name`.
fn heading_members<'v>(
    alloc: Global,
    at: JsonPath<'_>,
    members: NodeMembers<'v>,
) -> Result<Heading<'v>, PlanFault>
    requires { AreMembers members }
    ensures { let d = view members.entry.value.now in
        Reads (members_wrong heading_rows (pointer at.entry) d) (IsHeading d) result }
{
    let dtype = dtype_member(alloc, at, members.dtype)?;
    let segment = segment_member(alloc, at, members.segment)?;
    let name = text_member(alloc, at, "name", members.name)?;
    Ok(Heading {
        dtype,
        segment,
        name,
    })
}

/// Reads the members `mode`, `isolated` and `locks`, which only a static node has.
fn concurrency_members(
    alloc: Global,
    at: JsonPath<'_>,
    members: NodeMembers<'_>,
) -> Result<Concurrency, PlanFault>
    requires { AreMembers members }
    ensures { let d = view members.entry.value.now in
        Reads (members_wrong concurrency_rows (pointer at.entry) d) (IsConcurrency true d) result }
{
    let is_concurrent = mode_member(alloc, at, members.mode)?;
    let is_isolated = isolated_member(alloc, at, members.isolated)?;
    let locks = locks_member(alloc, at, members.locks)?;
    Ok(Concurrency {
        is_concurrent,
        is_isolated,
        locks,
    })
}

/// Reads the members `skip`, `result` and `entries`, and `files` where a node may have it.
fn content_members(
    alloc: Global,
    at: JsonPath<'_>,
    members: NodeMembers<'_>,
    takes_files: bool,
) -> Result<Content, PlanFault>
    requires { AreMembers members }
    ensures { let d = view members.entry.value.now in
        Reads (members_wrong (content_rows takes_files) (pointer at.entry) d)
        (IsContent takes_files d) result }
{
    let skip = optional_member(alloc, at, "skip", members.skip)?;
    let outcome = result_member(alloc, at, members.result)?;
    let reports = entries_member(alloc, at, members.entries)?;
    let files = files_member(alloc, at, members.value, takes_files)?;
    Ok(Content {
        skip,
        outcome,
        reports,
        files,
    })
}

/// Refuses a value that is no object, and an object with a member that a static node doesn't have.
fn check_static_members(
    alloc: Global,
    at: JsonPath<'_>,
    value: &Value,
    takes_files: bool,
) -> Result<(), PlanFault>
    ensures { Reads
        (unknown (map (λ r. r.name) (static_rows takes_files)) (pointer at.entry) (view value.now))
        (λ _. Unit {0}) result }
{
    if takes_files {
        let names = [
            "type", "segment", "name", "mode", "isolated", "locks", "skip", "result", "entries",
            "files", "children", "dynamic",
        ];
        check_members(alloc, at, value, &names)
    } else {
        let names = [
            "type", "segment", "name", "mode", "isolated", "locks", "skip", "result", "entries",
            "children", "dynamic",
        ];
        check_members(alloc, at, value, &names)
    }
}

/// Refuses a value that is no object, and an object with a member that no dynamic node has.
fn check_dynamic_members(
    alloc: Global,
    at: JsonPath<'_>,
    value: &Value,
    takes_files: bool,
) -> Result<(), PlanFault>
    ensures { Reads
        (unknown (map (λ r. r.name) (dynamic_rows takes_files)) (pointer at.entry) (view value.now))
        (λ _. Unit {0}) result }
{
    if takes_files {
        let names = [
            "type", "segment", "name", "skip", "result", "entries", "files", "dynamic",
        ];
        check_members(alloc, at, value, &names)
    } else {
        let names = [
            "type", "segment", "name", "skip", "result", "entries", "dynamic",
        ];
        check_members(alloc, at, value, &names)
    }
}

/// Refuses the members `children` and `dynamic` of a static node where they are no arrays. Answers
/// whether no node stands below it.
fn below_members(
    alloc: Global,
    at: JsonPath<'_>,
    members: NodeMembers<'_>,
) -> Result<bool, PlanFault>
    requires { AreMembers members }
    ensures { let d = view members.entry.value.now in
        Reads (members_wrong below_rows (pointer at.entry) d)
        (λ is_leaf. is_leaf ≡ has_no_below true d) result }
{
    let has_no_children = array_member(alloc, at, "children", members.children)?;
    let has_no_dynamic = array_member(alloc, at, "dynamic", members.dynamic)?;
    Ok(has_no_children && has_no_dynamic)
}

impl Concurrency {
    /// What a node says that has none of these members, as each dynamic one.
    fn none(alloc: Global) -> Concurrency
        ensures concurrent { result.is_concurrent ≡ false }
        ensures isolated { result.is_isolated ≡ false }
        ensures locks { result.locks ≡ [] }
    {
        Concurrency {
            is_concurrent: false,
            is_isolated: false,
            locks: NodeLocks::new(Vec::new(alloc)),
        }
    }
}

/// Reads the members of a static node.
pub(crate) fn static_fields<'v>(
    alloc: Global,
    at: JsonPath<'_>,
    members: NodeMembers<'v>,
    takes_files: bool,
) -> Result<Fields<'v>, PlanFault>
    requires { AreMembers members }
    ensures { let d = view members.entry.value.now in
        Reads (static_node takes_files (pointer at.entry) d) (HasFields true takes_files d) result }
{
    check_static_members(alloc, at, members.value, takes_files)?;
    let heading = heading_members(alloc, at, members)?;
    let concurrency = concurrency_members(alloc, at, members)?;
    let content = content_members(alloc, at, members, takes_files)?;
    let is_leaf = below_members(alloc, at, members)?;
    Ok(Fields {
        heading,
        concurrency,
        content,
        is_leaf,
    })
}

/// Reads the members of a dynamic node, which has no `mode`, `isolated`, `locks` and `children`.
pub(crate) fn dynamic_fields<'v>(
    alloc: Global,
    at: JsonPath<'_>,
    members: NodeMembers<'v>,
    takes_files: bool,
) -> Result<Fields<'v>, PlanFault>
    requires { AreMembers members }
    ensures { let d = view members.entry.value.now in
        Reads (dynamic_node takes_files (pointer at.entry) d) (HasFields false takes_files d)
        result }
{
    check_dynamic_members(alloc, at, members.value, takes_files)?;
    let heading = heading_members(alloc, at, members)?;
    let content = content_members(alloc, at, members, takes_files)?;
    let is_leaf = array_member(alloc, at, "dynamic", members.dynamic)?;
    Ok(Fields {
        heading,
        concurrency: Concurrency::none(alloc),
        content,
        is_leaf,
    })
}

/// Takes the values of the nodes below a node out of its value, and drops all else of it: those in
/// its `children`, which only a static node has, and those in its `dynamic`.
pub(crate) fn into_below(alloc: Global, is_static: bool, value: Value) -> (Vec<Value>, Vec<Value>)
    ensures children { map view result.0.items ≡ children_of is_static (view value) }
    ensures dynamic { map view result.1.items ≡ dynamic_of (view value) }
{
    let (children, dynamic) = into_members(value, "children", "dynamic");
    let children = if is_static { children } else { None };
    (into_items(alloc, children), into_items(alloc, dynamic))
}

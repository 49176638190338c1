//! The JSON values of nodes.
ghost use Rattle.std.specs.Prelude.{◌≡◌, ◌++◌, map, IfOk, OnOk};
ghost use Rattle.serde_json.specs.Data.{no_members, string};
ghost use Rattle.serde_json.specs.View.{view, members_view};
ghost use Rattle.tk_plan_nodes.specs.NodeJson.{with_members, lock_json, result_json, entry_json, heading_members, concurrency_members, content_members, node_json, plan_data};
ghost use Rattle.tk_plan_nodes.specs.NodeViews.{node_view, texts_of, pairs_of};

use crate::json_members::{Members, pair_value, put_array, put_isolated, put_mode, put_text};
use crate::plan_nodes::{PlanLock, PlanNode};
use crate::words::{dtype_word, lock_mode_word, status_word};
use serde_json::{Map, Number, Value, put};
use std::alloc::{AllocError, Global};
use tk_events::Outcome;

fn lock_value(alloc: Global, lock: &PlanLock<'_>) -> Result<Value, AllocError>
    ensures { IfOk result (λ v. view v ≡ lock_json lock.now) }
{
    let mut members = Map::new(alloc);
    put(
        &mut members,
        alloc,
        "key",
        Value::try_from_str(alloc, lock.key)?,
    )?;
    let mode = Value::try_from_str(alloc, lock_mode_word(lock.mode))?;
    put(&mut members, alloc, "mode", mode)?;
    Ok(Value::Object(members))
}

fn lock_values(alloc: Global, locks: &[PlanLock<'_>]) -> Result<Vec<Value>, AllocError>
    ensures { IfOk result (λ vs. map view vs.items ≡ map lock_json locks.now) }
{
    let mut values = Vec::new(alloc);
    for lock in locks {
        values.push(lock_value(alloc, lock)?)?;
    }
    Ok(values)
}

fn result_value(alloc: Global, outcome: &Outcome) -> Result<Value, AllocError>
    ensures { IfOk result (λ v. view v ≡ result_json outcome.now) }
{
    let mut members = Map::new(alloc);
    let status = Value::try_from_str(alloc, status_word(outcome.status()))?;
    put(&mut members, alloc, "status", status)?;
    let message = outcome.message().map(|message| message.as_str());
    put_text(alloc, &mut members, "message", message)?;
    Ok(Value::Object(members))
}

fn entry_value(alloc: Global, pairs: &[(&str, &str)]) -> Result<Value, AllocError>
    ensures { IfOk result (λ v. view v ≡ entry_json (pairs_of pairs.now)) }
{
    let mut values = Vec::new(alloc);
    for pair in pairs {
        values.push(pair_value(alloc, pair.0, pair.1)?)?;
    }
    Ok(Value::Array(values))
}

fn entry_values(alloc: Global, entries: &[Vec<(&str, &str)>]) -> Result<Vec<Value>, AllocError>
    ensures { IfOk result (λ vs. map view vs.items
        ≡ map entry_json (map (λ e. pairs_of e.items) entries.now)) }
{
    let mut values = Vec::new(alloc);
    for entry in entries {
        values.push(entry_value(alloc, entry.as_slice())?)?;
    }
    Ok(values)
}

fn text_values(alloc: Global, texts: &[&str]) -> Result<Vec<Value>, AllocError>
    ensures { IfOk result (λ vs. map view vs.items ≡ map string (texts_of texts.now)) }
{
    let mut values = Vec::new(alloc);
    for text in texts {
        values.push(Value::try_from_str(alloc, *text)?)?;
    }
    Ok(values)
}

/// The members `type`, `segment` and `name`.
fn heading(alloc: Global, node: &PlanNode<'_>) -> Result<Members, AllocError>
    ensures { IfOk result (λ ms. members_view ms.entries
        ≡ with_members no_members (heading_members (node_view node.now))) }
{
    let mut members = Map::new(alloc);
    let dtype = Value::try_from_str(alloc, dtype_word(node.dtype))?;
    put(&mut members, alloc, "type", dtype)?;
    let segment = pair_value(alloc, node.tag, node.value)?;
    put(&mut members, alloc, "segment", segment)?;
    let name = Value::try_from_str(alloc, node.name)?;
    put(&mut members, alloc, "name", name)?;
    Ok(members)
}

/// Adds the members that say when the node may run.
#[tactic(auto, using(crate::proofs::JsonObjects::members_append))]
fn put_concurrency(
    alloc: Global,
    members: &mut Members,
    node: &PlanNode<'_>,
) -> Result<(), AllocError>
    ensures { OnOk result (members_view members.new.entries
        ≡ with_members (members_view members.old.entries)
        (concurrency_members (node_view node.now))) }
{
    put_mode(alloc, members, node.mode)?;
    put_isolated(alloc, members, node.is_isolated)?;
    let locks = lock_values(alloc, node.locks.as_slice())?;
    put_array(alloc, members, "locks", locks)
}

/// Adds the members that say what the node emits.
#[tactic(auto, using(crate::proofs::JsonObjects::members_append))]
fn put_content(alloc: Global, members: &mut Members, node: &PlanNode<'_>) -> Result<(), AllocError>
    ensures { OnOk result (members_view members.new.entries
        ≡ with_members (members_view members.old.entries)
        (content_members (node_view node.now))) }
{
    put_text(alloc, members, "skip", node.skip)?;
    let result = result_value(alloc, &node.outcome)?;
    put(members, alloc, "result", result)?;
    let entries = entry_values(alloc, node.entries.as_slice())?;
    put_array(alloc, members, "entries", entries)?;
    let files = text_values(alloc, node.files.as_slice())?;
    put_array(alloc, members, "files", files)
}

/// The members of the node alone.
#[tactic(auto, using(crate::proofs::JsonObjects::members_append))]
fn own_members(alloc: Global, node: &PlanNode<'_>) -> Result<Members, AllocError>
    ensures { IfOk result (λ ms. members_view ms.entries ≡ with_members no_members
        (heading_members (node_view node.now) ++ concurrency_members (node_view node.now)
        ++ content_members (node_view node.now))) }
{
    let mut members = heading(alloc, node)?;
    put_concurrency(alloc, &mut members, node)?;
    put_content(alloc, &mut members, node)?;
    Ok(members)
}

/// The value of a node and all below it.
#[cycle(values)]
fn node_value(alloc: Global, node: &PlanNode<'_>) -> Result<Value, AllocError>
    ensures { IfOk result (λ v. view v ≡ node_json node.now) }
{
    let mut members = own_members(alloc, node)?;
    let children = node_values(alloc, node.children.as_slice())?;
    put_array(alloc, &mut members, "children", children)?;
    let dynamic = node_values(alloc, node.dynamic.as_slice())?;
    put_array(alloc, &mut members, "dynamic", dynamic)?;
    Ok(Value::Object(members))
}

#[cycle(values)]
fn node_values(alloc: Global, nodes: &[PlanNode<'_>]) -> Result<Vec<Value>, AllocError>
    ensures { IfOk result (λ vs. map view vs.items ≡ map node_json nodes.now) }
{
    let mut values = Vec::new(alloc);
    for node in nodes {
        values.push(node_value(alloc, node)?)?;
    }
    Ok(values)
}

/// The JSON value, of version 2, of the plan with this root.
///
/// # Errors
/// `AllocError` where a request for memory is refused.
pub fn plan_value(alloc: Global, root: &PlanNode<'_>) -> Result<Value, AllocError>
    ensures { IfOk result (λ v. view v ≡ plan_data root.now) }
{
    let root = node_value(alloc, root)?;
    let mut members = Map::new(alloc);
    let version = Value::Number(Number::from(2u64));
    put(&mut members, alloc, "version", version)?;
    put(&mut members, alloc, "root", root)?;
    Ok(Value::Object(members))
}

//! Members of JSON objects.
ghost use Rattle.std.specs.Prelude.{◌≡◌, map, OnOk, IfOk};
ghost use Rattle.serde_json.specs.View.{view, members_view};
ghost use Rattle.tk_plan_nodes.specs.NodeJson.{with_members, array_members, text_members, mode_members, isolated_members, json_pair};
ghost use Rattle.tk_plan_nodes.specs.NodeViews.{text_of};

use crate::modes::ExecutionMode;
use serde_json::{Map, Value, put};
use std::alloc::{AllocError, Global};

/// The members of an object, each by its name.
pub(crate) type Members = Map<String, Value>;

/// Adds a member with these items, unless there are none.
pub(crate) fn put_array(
    alloc: Global,
    members: &mut Members,
    name: &'static str,
    items: Vec<Value>,
) -> Result<(), AllocError>
    ensures { OnOk result (members_view members.new.entries
        ≡ with_members (members_view members.old.entries)
        (array_members name.now (map view items.items))) }
{
    if items.is_empty() {
        return Ok(());
    }
    put(members, alloc, name, Value::Array(items))
}

/// Adds a member with this text, if there is one.
pub(crate) fn put_text(
    alloc: Global,
    members: &mut Members,
    name: &'static str,
    text: Option<&str>,
) -> Result<(), AllocError>
    ensures { OnOk result (members_view members.new.entries
        ≡ with_members (members_view members.old.entries)
        (text_members name.now (text_of text.entry))) }
{
    match text {
        Some(text) => put(members, alloc, name, Value::try_from_str(alloc, text)?),
        None => Ok(()),
    }
}

/// Adds the member `mode`, unless it is that of a node without one.
pub(crate) fn put_mode(
    alloc: Global,
    members: &mut Members,
    mode: ExecutionMode,
) -> Result<(), AllocError>
    ensures { OnOk result (members_view members.new.entries
        ≡ with_members (members_view members.old.entries) (mode_members mode)) }
{
    match mode {
        ExecutionMode::SameThread => Ok(()),
        ExecutionMode::Concurrent => {
            let mode = Value::try_from_str(alloc, "concurrent")?;
            put(members, alloc, "mode", mode)
        }
    }
}

/// Adds the member `isolated`, if the node is.
pub(crate) fn put_isolated(
    alloc: Global,
    members: &mut Members,
    is_isolated: bool,
) -> Result<(), AllocError>
    ensures { OnOk result (members_view members.new.entries
        ≡ with_members (members_view members.old.entries) (isolated_members is_isolated)) }
{
    if !is_isolated {
        return Ok(());
    }
    put(members, alloc, "isolated", Value::Bool(true))
}

/// The array of two texts.
pub(crate) fn pair_value(alloc: Global, first: &str, second: &str) -> Result<Value, AllocError>
    ensures { IfOk result (λ v. view v ≡ json_pair (first.now, second.now)) }
{
    let mut texts = Vec::with_capacity(alloc, 2)?;
    texts.push(Value::try_from_str(alloc, first)?)?;
    texts.push(Value::try_from_str(alloc, second)?)?;
    Ok(Value::Array(texts))
}

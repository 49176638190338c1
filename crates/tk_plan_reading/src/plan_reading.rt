//! Reading a plan.
ghost use Rattle.std.specs.Prelude.{◌≡◌, ◌≤◌, ◌<◌, ◌++◌, ◌∷◌, [], Some, codes, length, IfErr, IfOk, OnOk, option_map};
ghost use Rattle.serde_json.specs.Find.{get};
ghost use Rattle.serde_json.specs.View.{view};
ghost use Rattle.tk_plan_json.specs.Answers.{Reads};
ghost use Rattle.tk_plan_json.specs.Checks.{member_at, member_wrong, must};
ghost use Rattle.tk_plan_reading.specs.PlanOf.{PlanOf, one_or_two, is_two, takes_files_in, anything, top};
ghost use Rattle.tk_plan_reading.specs.FaultyNodes.{HasNode, faulty_node};
ghost use Rattle.tk_plan_reading.specs.PlanAnswers.{plan_in, Answered};
ghost use Rattle.tk_plan_json.specs.Progress.{IsNoted};
ghost use Rattle.tk_plan_reading.specs.steps.{IsReadFrom, Follow};
ghost use Rattle.tk_plan.specs.Numbers.{numbered};
ghost use Rattle.tk_plan.specs.Planned.{IsPlanned};
ghost use Rattle.std.specs.Arc.{arc_value};
ghost use Rattle.tk_ids.specs.declared.tables.TheConstants.{MAX_DESCRIPTORS};

use indexmap::IndexSet;
use serde_json::Value;
use std::alloc::{AllocError, Global};
use std::sync::Arc;
use tk_ids::{Descriptor, Table, Text};
use tk_plan::{Plan, count_events};
use tk_plan_json::members::json_members::check_members;
use tk_plan_json::members::json_paths::JsonPath;
use tk_plan_json::members::json_values::into_members;
use tk_plan_json::members::path_texts::wrong_member;
use tk_plan_json::node_reading::read_nodes;
use tk_plan_json::read_nodes::ReadNodes;
use tk_plan_json::{NodeFault, PlanFault};

/// Reads the member `version`, which is 1 or 2: whether it is 2, so that nodes may have files.
fn version_member(alloc: Global, version: Option<Value>) -> Result<bool, PlanFault>
    ensures { Reads (member_wrong (must (codes "version") one_or_two)
        (member_at [] (codes "version")) (option_map view version))
        (λ b. b ≡ is_two (option_map view version)) result }
{
    match version.as_ref().and_then(Value::as_u64) {
        Some(1) => Ok(false),
        Some(2) => Ok(true),
        _ => Err(wrong_member(alloc, JsonPath::Whole(""), "version")),
    }
}

/// Reads the member `root`.
fn root_member(alloc: Global, root: Option<Value>) -> Result<Value, PlanFault>
    ensures { Reads (member_wrong (must (codes "root") anything)
        (member_at [] (codes "root")) (option_map view root))
        (λ v. option_map view root ≡ Some (view v)) result }
{
    match root {
        Some(root) => Ok(root),
        None => Err(wrong_member(alloc, JsonPath::Whole(""), "root")),
    }
}

/// Reads the members of the whole value: whether nodes may have files, and the root.
fn top_members(alloc: Global, value: Value) -> Result<(bool, Value), PlanFault>
    ensures { Reads (top [] (view value))
        (λ t. (t.0 ≡ takes_files_in (view value))
        × (get (codes "root") (view value) ≡ Some (view t.1))) result }
{
    check_members(alloc, JsonPath::Whole(""), &value, &["version", "root"])?;
    let (version, root) = into_members(value, "version", "root");
    let takes_files = version_member(alloc, version)?;
    let root = root_member(alloc, root)?;
    Ok((takes_files, root))
}

/// The lock keys, in their order.
fn key_list(alloc: Global, keys: IndexSet<Text>) -> Result<Vec<Text>, AllocError>
    ensures { IfOk result (λ list. list.items ≡ keys.keys) }
{
    let mut list = Vec::new(alloc);
    for key in keys {
        list.push(key)?;
    }
    Ok(list)
}

/// Makes the table of descriptors that were read.
fn table_of(alloc: Global, descriptors: Vec<Descriptor>) -> Result<Arc<Table>, AllocError>
    requires follow { Follow [] descriptors.items }
    requires few { length descriptors.items ≤ MAX_DESCRIPTORS }
    ensures { IfOk result (λ table. arc_value table ≡ descriptors.items) }
{
    let mut table = Table::with_capacity(alloc, descriptors.len())?;
    for descriptor in descriptors {
        table.append(descriptor)?;
    }
    Ok(Arc::new(alloc, table)?)
}

/// Makes the plan of the nodes that were read.
pub(crate) fn plan_from(alloc: Global, read: ReadNodes) -> Result<Plan, AllocError>
    requires follow { Follow [] read.descriptors.items }
    requires noted { IsNoted read }
    requires planned { IsPlanned read.nodes.items read.descriptors.items }
    ensures { IfOk result (λ plan.
        plan ≡ record { nodes = numbered read.nodes.items; table = read.descriptors.items }) }
{
    let ReadNodes {
        nodes,
        descriptors,
        dynamics: _,
        keys,
    } = read;
    let keys = key_list(alloc, keys)?;
    let table = table_of(alloc, descriptors)?;
    Plan::new(alloc, nodes, table, keys.as_slice())
}

/// Reads the nodes of the plan that a value stands for.
pub(crate) fn nodes_of(alloc: Global, value: Value) -> Result<ReadNodes, NodeFault>
    ensures plan { IsReadFrom (PlanOf (view value)) result }
    ensures node { IfErr result (λ e. HasNode (faulty_node (view value)) e.fault e.node) }
{
    let (takes_files, root) = top_members(alloc, value)?;
    let read = read_nodes(alloc, takes_files, root)?;
    match count_events(read.nodes.as_slice()) {
        None => Err(NodeFault::from(PlanFault::TooManyEvents)),
        Some(_) => Ok(read),
    }
}

/// Reads the nodes of a plan from its text.
fn read_text(alloc: Global, bytes: &[u8]) -> Result<ReadNodes, NodeFault>
    ensures { IsReadFrom (plan_in bytes.now) result }
{
    match Value::from_slice(alloc, bytes) {
        Ok(value) => nodes_of(alloc, value),
        Err(error) if error.is_memory() => Err(NodeFault::from(PlanFault::Memory)),
        Err(_) => Err(NodeFault::from(PlanFault::Json)),
    }
}

/// Reads a plan from its JSON text, of version 1 or 2 (docs/FORMATS.md, Plan JSON).
///
/// # Errors
/// `Json` where `bytes` are no JSON. Else the first fault of the value's own members, then of its
/// nodes in preorder, then `TooManyEvents`. Where a request for memory is refused, the fault is
/// `Memory`.
pub fn read_plan(alloc: Global, bytes: &[u8]) -> Result<Plan, PlanFault>
    ensures { Answered (plan_in bytes.now) result }
{
    let read = read_text(alloc, bytes)?;
    Ok(plan_from(alloc, read)?)
}

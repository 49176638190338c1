//! Reading a plan's nodes.
ghost use Rattle.std.specs.Prelude.{◌≡◌, ◌≤◌, ◌<◌, ◌+◌, ◌-◌, ◌++◌, ◌∷◌, [], length, map, IfOk, OnOk};
ghost use Rattle.serde_json.specs.View.{view};
ghost use Rattle.tk_plan.specs.Trees.{flat, contents};
ghost use Rattle.tk_plan.specs.Ids.{descriptors};
ghost use Rattle.tk_plan_json.specs.Checks.{first};
ghost use Rattle.tk_plan_json.specs.Verdicts.{checks, located, MeetsAt};
ghost use Rattle.tk_ids.specs.declared.tables.TheConstants.{MAX_DESCRIPTORS};
ghost use Rattle.tk_plan_json.specs.declared.limits.TheConstants.{MAX_LEVELS};
ghost use Rattle.tk_plan_json.specs.steps.Progress.{AddsGroup, AddsTree, NodeGroup, located_of_group, located_of_node, levels_below, levels_from, state, IsDescribed, IsAdded, IsStarted, IsSpanned};
ghost use Rattle.tk_plan_json.specs.Progress.{IsNoted, HasRead};
ghost use Rattle.tk_plan_json.specs.steps.Fields.{Meets};
ghost use Rattle.tk_plan_json.specs.steps.CodeValues.{seen, node_at, array_at};
ghost use Rattle.tk_plan_json.specs.NodeInputs.{node_inputs, node_inputs_in, root_at, below, grown, id_of, segment_in, segment_of};

use crate::faults::PlanFault;
use crate::members::json_paths::JsonPath;
use crate::members::path_texts::member_path;
use crate::node_checks::check_node;
use crate::node_faults::NodeFault;
use crate::node_fields::into_below;
use crate::node_inputs::{BelowMember, NodeInput, NodePlace};
use crate::read_nodes::ReadNodes;
use crate::siblings::Siblings;
use serde_json::Value;
use std::alloc::{AllocError, Global};
use tk_ids::{Descriptor, UniqueId};
use tk_plan::{Node, NumberedNode};

/// Puts the descriptor of a static node at the end, or counts a dynamic node.
fn add_descriptor(
    alloc: Global,
    read: &mut ReadNodes,
    node: &Node,
    id: UniqueId,
) -> Result<(), AllocError>
    requires { read.old.dynamics ≤ MAX_DESCRIPTORS }
    ensures { OnOk result (IsDescribed read.old read.new node.now id) }
{
    if node.is_static {
        let descriptor = Descriptor {
            id,
            name: node.name.try_clone()?,
            dtype: node.dtype,
            locks: node.declared_locks(alloc)?,
        };
        read.descriptors.push(descriptor)?;
    } else {
        read.dynamics += 1;
    }
    Ok(())
}

/// Puts a node at the end.
fn add_node(alloc: Global, read: &mut ReadNodes, node: Node, id: UniqueId) -> Result<(), AllocError>
    requires { read.old.dynamics ≤ MAX_DESCRIPTORS }
    ensures { OnOk result (IsAdded read.old read.new node id) }
{
    let described = add_descriptor(alloc, read, &node, id);
    // Nodes without a descriptor are given up, so the node may follow in any case.
    // It gets its number when all nodes were read, and its span when those below it were.
    read.nodes.push(NumberedNode {
        node,
        number: 0,
        span: 1,
    })?;
    described
}

/// Puts a node that other nodes stand below at the end. Answers its id.
fn add_parent(
    alloc: Global,
    read: &mut ReadNodes,
    node: Node,
    id: UniqueId,
) -> Result<UniqueId, AllocError>
    requires { read.old.dynamics ≤ MAX_DESCRIPTORS }
    ensures added { OnOk result (IsAdded read.old read.new node id) }
    ensures id { IfOk result (λ i. i ≡ id) }
{
    let copied = id.try_clone();
    add_node(alloc, read, node, id)?;
    copied
}

/// Checks a node and puts it at the end. Answers its id where nodes stand below it.
fn start_node(
    alloc: Global,
    read: &mut ReadNodes,
    siblings: &mut Siblings,
    node_input: NodeInput<'_>,
) -> Result<Option<UniqueId>, PlanFault>
    requires { IsNoted read.old }
    ensures { let s = seen siblings.old node_input.entry in
        Meets (first (checks (contents read.old.nodes.items) s))
        (IsStarted (state read.old siblings.old) (state read.new siblings.new) s) result }
{
    let checked = check_node(alloc, read, siblings, node_input)?;
    // Most nodes are leaves, and only nodes below one need its id once more.
    if checked.is_leaf {
        add_node(alloc, read, checked.node, checked.id)?;
        return Ok(None);
    }
    Ok(Some(add_parent(alloc, read, checked.node, checked.id)?))
}

/// Lets the node at `at` span all nodes from there to the last one.
fn end_node(read: &mut ReadNodes, at: usize)
    requires { at < length read.old.nodes.items }
    ensures { IsSpanned read.old read.new at }
{
    let span = read.nodes.len() - at;
    read.nodes[at].span = span;
}

/// Reads a node and all below it. As soon as the node itself was read its value is dropped, save
/// the values of the nodes below it, which are read next.
#[cycle(reading)]
fn read_node(
    alloc: Global,
    read: &mut ReadNodes,
    siblings: &mut Siblings,
    place: NodePlace<'_>,
    value: Value,
) -> Result<(), NodeFault>
    requires noted { IsNoted read.old }
    requires level { place.level ≤ MAX_LEVELS + 1 }
    ensures { let s = node_at siblings.old place.entry (view value) in
        let levels = levels_from place.entry.level in
        MeetsAt (located_of_node read.old levels s)
        (λ _. AddsTree read.old read.new levels s
        × (siblings.new ≡ siblings.old ++ segment_of s ∷ [])) result }
{
    let at = read.nodes.len();
    let node_input = NodeInput {
        place,
        value: &value,
    };
    match start_node(alloc, read, siblings, node_input) {
        Ok(Some(id)) => {
            read_below(alloc, read, place, &id, value)?;
            end_node(read, at);
            Ok(())
        }
        Ok(None) => Ok(()),
        Err(fault) => Err(NodeFault::of_node(fault, at)),
    }
}

/// Reads all nodes below the node at `place`, whose id is `id`.
#[cycle(reading)]
fn read_below(
    alloc: Global,
    read: &mut ReadNodes,
    place: NodePlace<'_>,
    id: &UniqueId,
    value: Value,
) -> Result<(), NodeFault>
    requires noted { IsNoted read.old }
    requires level { place.level ≤ MAX_LEVELS }
    requires id { id.now ≡ id_of (node_at [] place (view value)) }
    ensures { let s = node_at [] place.entry (view value) in
        let levels = levels_below place.entry.level in
        let group : NodeGroup = record { above = id_of s; levels = levels; nodes = below s } in
        MeetsAt (located_of_group read.old group) (λ _. AddsGroup read.old read.new group)
        result }
{
    let (children, dynamic) = into_below(alloc, place.is_static, value);
    let count = children.len().saturating_add(dynamic.len());
    let mut siblings = Siblings::with_capacity(alloc, count)?;
    read_all(
        alloc,
        read,
        &mut siblings,
        place,
        BelowMember::Children,
        id,
        children,
    )?;
    read_all(
        alloc,
        read,
        &mut siblings,
        place,
        BelowMember::Dynamic,
        id,
        dynamic,
    )
}

/// Reads the nodes in a member of the node at `parent`, whose id is `id`.
#[cycle(reading)]
fn read_all(
    alloc: Global,
    read: &mut ReadNodes,
    siblings: &mut Siblings,
    parent: NodePlace<'_>,
    member: BelowMember,
    id: &UniqueId,
    values: Vec<Value>,
) -> Result<(), NodeFault>
    requires noted { IsNoted read.old }
    requires level { parent.level ≤ MAX_LEVELS }
    ensures { let array = array_at parent.entry member id.now in
        let ss = node_inputs_in array 0 siblings.old (map view values.items) in
        let levels = levels_below parent.entry.level in
        let group : NodeGroup = record { above = id.now; levels = levels; nodes = ss } in
        MeetsAt (located_of_group read.old group) (λ _. AddsGroup read.old read.new group
        × (siblings.new ≡ siblings.old ++ map segment_in (map view values.items))) result }
{
    if values.is_empty() {
        return Ok(());
    }
    let array = member_path(alloc, parent.path, member.name())?;
    for (index, value) in values.into_iter().enumerate() {
        let place = NodePlace {
            path: JsonPath::Item(&array, index),
            level: parent.level + 1,
            is_static: member.is_static(),
            takes_files: parent.takes_files,
            above: Some(id),
        };
        read_node(alloc, read, siblings, place, value)?;
    }
    Ok(())
}

/// Reads the root and all below it, where no node was read yet.
fn read_root(
    alloc: Global,
    read: &mut ReadNodes,
    takes_files: bool,
    root: Value,
) -> Result<(), NodeFault>
    requires nodes { read.old.nodes.items ≡ [] }
    requires descriptors { read.old.descriptors.items ≡ [] }
    requires noted { IsNoted read.old }
    ensures { let s = root_at takes_files (view root) in
        MeetsAt (located [] (node_inputs MAX_LEVELS s)) (λ _. HasRead s read.new) result }
{
    let mut siblings = Siblings::with_capacity(alloc, 1)?;
    let place = NodePlace {
        path: JsonPath::Whole("/root"),
        level: 1,
        is_static: true,
        takes_files,
        above: None,
    };
    read_node(alloc, read, &mut siblings, place, root)
}

/// Reads the nodes of a plan: the root and all below it.
///
/// # Errors
/// The first fault of the nodes in preorder, with the number of the node that has it; of each node
/// in this order: `Deep`, `Field`, `EntryKeyTwice`, `Id`, `Table`, `TooManyResources`. Where a
/// request for memory is refused, the fault is `Memory`, and no node has it.
pub fn read_nodes(alloc: Global, takes_files: bool, root: Value) -> Result<ReadNodes, NodeFault>
    ensures { let s = root_at takes_files (view root) in
        MeetsAt (located [] (node_inputs MAX_LEVELS s)) (HasRead s) result }
{
    let mut read = ReadNodes::new(alloc);
    read_root(alloc, &mut read, takes_files, root)?;
    Ok(read)
}

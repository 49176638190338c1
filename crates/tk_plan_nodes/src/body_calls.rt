//! Which nodes of a plan have a body that is called.
ghost use Rattle.std.specs.Prelude.{◌≡◌, ◌≢◌, ◌++◌, ◌∷◌, ◌&&◌, [], All, IfErr, IfOk, None, OnOk, flat_map, is_some, option_map, string_bytes};
ghost use Rattle.tk_ids.specs.Characters.{slash};
ghost use Rattle.std.specs.List.{find, list_all};
ghost use Rattle.tk_ids.specs.DTypes.{is_container, is_test};
ghost use Rattle.tk_plan_nodes.specs.BodyCalls.{AreCalled, IsBodiesFault, call_of, calls, calls_of, first_id, is_concurrent, is_free, is_on_spine, place_of, place_off_spine, same_call};
ghost use Rattle.tk_plan_nodes.specs.NodeIds.{own_id};
ghost use Rattle.tk_plan_nodes.specs.NodeViews.{node_view};

use crate::bodies_faults::BodiesFault;
use crate::modes::ExecutionMode;
use crate::node_ids::push_segment;
use crate::plan_nodes::PlanNode;
use std::alloc::{AllocError, Global};
use tk_ids::Text;

/// Where a node of a plan stands.
#[derive(Clone, Copy)]
pub(crate) enum Place {
    /// Where no node is: the root stands below it.
    AboveRoot,
    /// On the spine.
    Spine,
    /// In a unit.
    InUnit,
    /// In a unit, at or below a node that is skipped.
    Skipped,
    /// Among the nodes that are registered as others run.
    Dynamic,
}

/// What holds of the body of a node.
#[derive(Clone, Copy)]
pub(crate) enum BodyCall {
    /// It has one, which is called.
    Called,
    /// It has one, which is never called.
    NeverCalled,
    /// It has none, and would be asked for it.
    Missing,
    /// It has none.
    NotNeeded,
}

/// The id of a node, and what holds of its body.
#[derive(Drop)]
pub(crate) struct NodeBody {
    pub(crate) id: Text,
    pub(crate) call: BodyCall,
}

fn is_concurrent(mode: ExecutionMode) -> bool
    ensures { result ≡ is_concurrent mode }
{
    matches!(mode, ExecutionMode::Concurrent)
}

fn are_concurrent(nodes: &[PlanNode<'_>]) -> bool
    ensures { result ≡ list_all (λ n. is_concurrent (node_view n).mode) nodes.now }
{
    nodes.iter().all(|node| is_concurrent(node.mode))
}

fn is_free(node: &PlanNode<'_>) -> bool
    ensures { result ≡ is_free (node_view node.now)
        (list_all (λ n. is_concurrent (node_view n).mode) (node_view node.now).children) }
{
    !node.children.is_empty()
        && node.dynamic.is_empty()
        && node.skip.is_none()
        && node.locks.is_empty()
        && !node.is_isolated
        && are_concurrent(node.children.as_slice())
}

// Whether a node stands on the spine, given the place above it.
fn is_on_spine(above: Place, is_concurrent_container: bool, is_free: bool) -> bool
    ensures { result ≡ is_on_spine above is_concurrent_container is_free }
{
    match above {
        Place::AboveRoot => is_free,
        Place::Spine => is_concurrent_container && is_free,
        _ => false,
    }
}

// The place of a node off the spine.
fn place_off_spine(above: Place, is_skipped: bool) -> Place
    ensures { result ≡ place_off_spine above is_skipped }
{
    match (above, is_skipped) {
        (Place::Skipped, _) => Place::Skipped,
        (Place::Dynamic, _) => Place::Dynamic,
        (_, true) => Place::Skipped,
        (_, false) => Place::InUnit,
    }
}

// The place of a node, given the one above it.
fn place_of(above: Place, node: &PlanNode<'_>) -> Place
    ensures { result ≡ place_of above (node_view node.now)
        (list_all (λ n. is_concurrent (node_view n).mode) (node_view node.now).children) }
{
    let is_concurrent_container = is_concurrent(node.mode) && node.dtype.is_container();
    if is_on_spine(above, is_concurrent_container, is_free(node)) {
        return Place::Spine;
    }
    place_off_spine(above, node.skip.is_some())
}

// What holds of the body of a node at this place.
fn call_of(place: Place, node: &PlanNode<'_>) -> BodyCall
    ensures { result ≡ call_of place (is_test (node_view node.now).dtype)
        (is_some (node_view node.now).body) }
{
    match (place, node.dtype.is_test(), node.body.is_some()) {
        (Place::InUnit, true, true) => BodyCall::Called,
        (Place::Skipped, true, true) => BodyCall::Called,
        (_, _, true) => BodyCall::NeverCalled,
        (Place::InUnit, true, false) => BodyCall::Missing,
        (_, _, false) => BodyCall::NotNeeded,
    }
}

// The text of a node's id. The text before its own segment is `prefix`.
fn own_id(alloc: Global, prefix: &str, node: &PlanNode<'_>) -> Result<String, AllocError>
    ensures { IfOk result (λ id. string_bytes id ≡ own_id (node_view node.now) prefix.now) }
{
    let mut id = String::from_str(alloc, prefix)?;
    push_segment(&mut id, node.tag, node.value)?;
    Ok(id)
}

// The text before the segments of the nodes below a node.
fn prefix_below(alloc: Global, prefix: &str, node: &PlanNode<'_>) -> Result<String, AllocError>
    ensures { IfOk result (λ below.
        string_bytes below ≡ own_id (node_view node.now) prefix.now ++ slash ∷ []) }
{
    let mut id = own_id(alloc, prefix, node)?;
    id.push('/')?;
    Ok(id)
}

// What holds of the body of a node at this place, with the node's id.
fn node_body(
    alloc: Global,
    prefix: &str,
    place: Place,
    node: &PlanNode<'_>,
) -> Result<NodeBody, AllocError>
    ensures { IfOk result (λ own. own ≡ record {
      id = own_id (node_view node.now) prefix.now;
      call = call_of place (is_test (node_view node.now).dtype)
          (is_some (node_view node.now).body);
    }) }
{
    let id = Text::from(own_id(alloc, prefix, node)?);
    let call = call_of(place, node);
    Ok(NodeBody { id, call })
}

// Adds a node and all below it.
#[cycle(adding)]
fn push_node(
    alloc: Global,
    nodes: &mut Vec<NodeBody>,
    above: Place,
    prefix: &str,
    node: &PlanNode<'_>,
) -> Result<(), AllocError>
    ensures { OnOk result
        (nodes.new.items ≡ nodes.old.items ++ (calls node.now).nodes above prefix.now) }
{
    let place = place_of(above, node);
    nodes.push(node_body(alloc, prefix, place, node)?)?;
    let below = prefix_below(alloc, prefix, node)?;
    push_nodes(
        alloc,
        nodes,
        place,
        below.as_str(),
        node.children.as_slice(),
    )?;
    push_nodes(
        alloc,
        nodes,
        Place::Dynamic,
        below.as_str(),
        node.dynamic.as_slice(),
    )
}

#[cycle(adding)]
fn push_nodes(
    alloc: Global,
    nodes: &mut Vec<NodeBody>,
    above: Place,
    prefix: &str,
    added: &[PlanNode<'_>],
) -> Result<(), AllocError>
    ensures { OnOk result (nodes.new.items
        ≡ nodes.old.items ++ flat_map (λ n. (calls n).nodes above prefix.now) added.now) }
{
    for node in added {
        push_node(alloc, nodes, above, prefix, node)?;
    }
    Ok(())
}

fn same_call(one: BodyCall, other: BodyCall) -> bool
    ensures { result ≡ same_call one other }
{
    matches!(
        (one, other),
        (BodyCall::Called, BodyCall::Called)
            | (BodyCall::NeverCalled, BodyCall::NeverCalled)
            | (BodyCall::Missing, BodyCall::Missing)
            | (BodyCall::NotNeeded, BodyCall::NotNeeded)
    )
}

// The first node of whose body this holds.
fn first(nodes: &[NodeBody], call: BodyCall) -> Option<&NodeBody>
    ensures { option_map (λ n. n.now) result ≡ find (λ n. same_call n.call call) nodes.now }
{
    nodes.iter().find(|node| same_call(node.call, call))
}

// The id of the first node of whose body this holds.
fn first_id(nodes: &[NodeBody], call: BodyCall) -> Option<&Text>
    ensures id { option_map (λ id. id.now) result ≡ first_id call nodes.now }
    ensures none { result ≡ None → All (λ n. n.call ≢ call) nodes.now }
{
    match first(nodes, call) {
        Some(node) => Some(&node.id),
        None => None,
    }
}

// Each node of the tree with this root, with what holds of its body.
fn bodies_of_nodes(alloc: Global, root: &PlanNode<'_>) -> Result<Vec<NodeBody>, AllocError>
    ensures { IfOk result (λ nodes. nodes.items ≡ calls_of root.now) }
{
    let mut nodes = Vec::new(alloc);
    push_node(alloc, &mut nodes, Place::AboveRoot, "", root)?;
    Ok(nodes)
}

// Checks some nodes.
fn check_nodes(nodes: &[NodeBody]) -> Result<(), BodiesFault>
    ensures called { OnOk result (AreCalled nodes.now) }
    ensures fault { IfErr result (IsBodiesFault nodes.now) }
{
    if let Some(id) = first_id(nodes, BodyCall::NeverCalled) {
        return Err(BodiesFault::NeverCalled(id.try_clone()?));
    }
    let Some(_) = first_id(nodes, BodyCall::Called) else {
        return Ok(());
    };
    match first_id(nodes, BodyCall::Missing) {
        Some(id) => Err(BodiesFault::Missing(id.try_clone()?)),
        None => Ok(()),
    }
}

/// Checks that each body of the tree with this root is called, and that no body is missing.
///
/// # Errors
/// As [`PlanNode::bodies`].
pub(crate) fn check_calls(alloc: Global, root: &PlanNode<'_>) -> Result<(), BodiesFault>
    ensures called { OnOk result (AreCalled (calls_of root.now)) }
    ensures fault { IfErr result (IsBodiesFault (calls_of root.now)) }
{
    let nodes = bodies_of_nodes(alloc, root)?;
    check_nodes(nodes.as_slice())
}

//! How many events a plan has.
ghost use Rattle.std.specs.Prelude.{◌≡◌, ◌+◌, ◌≤◌, ◌<◌, ◌^◌, min, MatchOption, length};
ghost use Rattle.tk_plan.specs.Trees.{IsForest, forest, tree_of};
ghost use Rattle.tk_plan.specs.Script.{moves_below};
ghost use Rattle.tk_plan.specs.Weights.{publications, weight, weights};
ghost use Rattle.tk_plan.specs.steps.{own};

use crate::trees::nodes::{Node, NumberedNode};
use tk_base::MAX_EVENTS;

/// How many entries and files a node publishes.
pub(crate) fn count_publications(node: &Node) -> u64
    ensures { result ≡ publications node.now }
{
    node.entries.as_slice().len() as u64 + node.files.as_slice().len() as u64
}

/// How many events a node emits by itself, counted up to the limit of a plan.
fn own_events(node: &Node) -> u64
    ensures same { min result (MAX_EVENTS + 1) ≡ min (own node.now) (MAX_EVENTS + 1) }
    ensures bound { result ≤ MAX_EVENTS + 4 }
{
    let registration = if node.is_static { 0 } else { 1 };
    if node.skip.is_some() {
        return registration + 1;
    }
    registration + 2 + count_publications(node).min(MAX_EVENTS + 1)
}

/// How many events some trees have, counted up to the limit of a plan.
fn count_all(nodes: &[NumberedNode]) -> u64
    requires { IsForest nodes.now }
    ensures { min result (MAX_EVENTS + 1) ≡ min (weights (forest nodes.now)) (MAX_EVENTS + 1) }
{
    let mut count = 0;
    let mut rest = nodes;
    while let [numbered_node, after @ ..] = rest {
        count += own_events(&numbered_node.node);
        if count > MAX_EVENTS {
            return count;
        }
        let (_, others) = numbered_node.split(after);
        if numbered_node.node.skip.is_some() {
            rest = others;
        } else {
            rest = after;
        }
    }
    count
}

/// How many events the script of a plan's root has, or `None` where it has more than `MAX_EVENTS`.
///
/// `nodes` are the plan's nodes in preorder.
pub fn count_events(nodes: &[NumberedNode]) -> Option<u32>
    requires { IsForest nodes.now }
    ensures { MatchOption result (MAX_EVENTS < length (moves_below 0 (forest nodes.now)))
        (λ n. (n ≡ length (moves_below 0 (forest nodes.now))) × (n ≤ MAX_EVENTS)) }
{
    let count = count_all(nodes);
    if count > MAX_EVENTS {
        None
    } else {
        Some(count as u32)
    }
}

/// How many events a tree has.
pub(crate) fn count_tree(numbered_node: &NumberedNode, below: &[NumberedNode]) -> u64
    requires below { IsForest below.now }
    requires limit { weight (tree_of numbered_node.now below.now) ≤ MAX_EVENTS }
    ensures { result ≡ weight (tree_of numbered_node.now below.now) }
{
    if numbered_node.node.skip.is_some() {
        return 1;
    }
    2 + count_publications(&numbered_node.node) + count_all(below)
}

//! Which nodes stand on the spine.
ghost use Rattle.std.specs.Prelude.{◌≡◌, ◌&&◌};
ghost use Rattle.tk_plan.specs.Trees.{IsForest, forest};
ghost use Rattle.tk_plan.specs.Cutting.{all_concurrent, on_spine};
ghost use Rattle.tk_plan.specs.Cutting as Cutting;

use crate::trees::nodes::{Node, NumberedNode};

fn is_concurrent_child(node: &Node) -> bool
    ensures { result ≡ (node.now.is_static && node.now.is_concurrent) }
{
    node.is_static && node.is_concurrent
}

fn are_concurrent(below: &[NumberedNode]) -> bool
    requires { IsForest below.now }
    ensures { result ≡ all_concurrent (forest below.now) }
{
    let mut rest = below;
    while let [numbered_node, after @ ..] = rest {
        let (_, others) = numbered_node.split(after);
        if !is_concurrent_child(&numbered_node.node) {
            return false;
        }
        rest = others;
    }
    true
}

fn is_leaf(below: &[NumberedNode]) -> bool
    ensures { result ≡ Cutting.is_leaf (forest below.now) }
{
    below.is_empty()
}

fn is_free(node: &Node, below: &[NumberedNode]) -> bool
    requires { IsForest below.now }
    ensures { result ≡ Cutting.is_free node.now (forest below.now) }
{
    !is_leaf(below)
        && node.skip.is_none()
        && node.locks.as_slice().is_empty()
        && !node.is_isolated
        && are_concurrent(below)
}

/// Whether a node stands on the spine, given the nodes below it.
pub(crate) fn is_on_spine(is_root: bool, node: &Node, below: &[NumberedNode]) -> bool
    requires { IsForest below.now }
    ensures { result ≡ on_spine is_root node.now (forest below.now) }
{
    (is_root || (node.is_concurrent && node.dtype.is_container())) && is_free(node, below)
}

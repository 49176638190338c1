//! The trees of units, among the nodes of a plan.
ghost use Rattle.std.specs.Prelude.{◌≡◌, ◌∷◌, ◌++◌, List, suc, length, drop};
ghost use Rattle.tk_plan.specs.steps.{HasTreeAt};

use crate::trees::nodes::NumberedNode;

/// A unit of a plan.
#[derive(Clone, Copy)]
pub struct UnitTree<'p> {
    /// The unit's first node, above all others of it.
    pub top: &'p NumberedNode,
    /// The nodes below it, in preorder.
    pub below: &'p [NumberedNode],
    /// How many events of the root's script come before those of the unit.
    pub first: u64,
}

/// The node at a position, and the nodes below it.
pub(crate) fn tree_at<'p>(
    nodes: &'p [NumberedNode],
    position: usize,
) -> (&'p NumberedNode, &'p [NumberedNode])
    requires { HasTreeAt nodes.now position }
    ensures { (top : NumberedNode) → (below rest : List NumberedNode)
        → drop position nodes.now ≡ top ∷ (below ++ rest) → top.span ≡ suc (length below)
        → (result.0.now ≡ top) × (result.1.now ≡ below) }
{
    let numbered_node = &nodes[position];
    let (_, after) = nodes.split_at(position + 1);
    let (below, _) = after.split_at(numbered_node.span - 1);
    (numbered_node, below)
}

//! Which static nodes stand below which.
ghost use Rattle.std.specs.Prelude.{◌≡◌, ◌++◌, OnOk};
ghost use Rattle.tk_plan.specs.Parents.{parents_below};
ghost use Rattle.tk_plan.specs.Trees.{IsForest, forest};

use crate::trees::nodes::NumberedNode;
use std::alloc::AllocError;

/// Adds for each static node of some trees, in preorder, the number of the node above it. The trees
/// stand below the node with the number `above`.
#[cycle(parents)]
pub(crate) fn push_parents(
    above: u32,
    nodes: &[NumberedNode],
    parents: &mut Vec<u32>,
) -> Result<(), AllocError>
    requires { IsForest nodes.now }
    ensures { OnOk result (parents.new.items ≡ parents.old.items
        ++ parents_below above (forest nodes.now)) }
{
    let mut rest = nodes;
    while let [numbered_node, after @ ..] = rest {
        let (below, others) = numbered_node.split(after);
        if numbered_node.node.is_static {
            parents.push(above)?;
        }
        push_parents(numbered_node.number, below, parents)?;
        rest = others;
    }
    Ok(())
}

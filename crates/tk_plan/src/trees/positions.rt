//! Nodes by their numbers.
ghost use Rattle.std.specs.Prelude.{◌≡◌, ◌++◌, ◌<◌, IfOk, OnOk, All, length};
ghost use Rattle.tk_plan.specs.Numbers.{at_positions, of_kind, ArePositionsByNumber};

use crate::trees::nodes::NumberedNode;
use std::alloc::{AllocError, Global};

/// Adds the positions of the static nodes, or of the others.
fn push_positions(
    nodes: &[NumberedNode],
    is_static: bool,
    positions: &mut Vec<usize>,
) -> Result<(), AllocError>
    requires { All (λ i. i < length nodes.now) positions.old.items }
    ensures nodes { OnOk result (at_positions nodes.now positions.new.items
        ≡ at_positions nodes.now positions.old.items ++ of_kind is_static nodes.now) }
    ensures within { OnOk result (All (λ i. i < length nodes.now) positions.new.items) }
{
    for (index, numbered_node) in nodes.iter().enumerate() {
        if numbered_node.node.is_static == is_static {
            positions.push(index)?;
        }
    }
    Ok(())
}

/// The positions of the nodes, in the order of their numbers.
pub(crate) fn positions_of(alloc: Global, nodes: &[NumberedNode]) -> Result<Vec<usize>, AllocError>
    ensures { IfOk result (λ positions. ArePositionsByNumber nodes.now positions.items) }
{
    let mut positions = Vec::new(alloc);
    push_positions(nodes, true, &mut positions)?;
    push_positions(nodes, false, &mut positions)?;
    Ok(positions)
}

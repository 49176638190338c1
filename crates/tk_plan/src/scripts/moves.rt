//! What a tree of nodes does.
ghost use Rattle.std.specs.Prelude.{◌≡◌, ◌++◌, ◌+◌, ◌≤◌, ◌<◌, ◌^◌, OnOk, IfOk, IsTrue, ◌↔◌, length};
ghost use Rattle.tk_plan.specs.Trees.{IsForest, forest, tree_of};
ghost use Rattle.tk_plan.specs.Script as Script;
ghost use Rattle.tk_plan.specs.Script.{moves_below, stamped};
ghost use Rattle.tk_plan.specs.steps.{IsShort};
ghost use Rattle.tk_plan.specs.Weights.{publications, weight, weights};
ghost use Rattle.tk_base.specs.declared.limits.TheConstants.{MAX_EVENTS};

use crate::scripts::steps::{Act, Move, Step};
use crate::trees::nodes::{Node, NumberedNode};
use std::alloc::{AllocError, Global};

fn push_opening(node: &Node, number: u32, moves: &mut Vec<Move>) -> Result<(), AllocError>
    requires { publications node.now ≤ MAX_EVENTS }
    ensures { OnOk result (moves.new.items ≡ moves.old.items ++ Script.opening node.now number) }
{
    moves.push(Move {
        node: number,
        act: Act::Start,
    })?;
    'entries: for index in 0..node.entries.as_slice().len() as u32 {
        moves.push(Move {
            node: number,
            act: Act::Report(index),
        })?;
    }
    'files: for index in 0..node.files.as_slice().len() as u32 {
        moves.push(Move {
            node: number,
            act: Act::File(index),
        })?;
    }
    Ok(())
}

/// Adds what a node and those below it do, in order.
#[cycle(moving)]
pub(crate) fn push_tree(
    numbered_node: &NumberedNode,
    below: &[NumberedNode],
    moves: &mut Vec<Move>,
) -> Result<(), AllocError>
    requires below { IsForest below.now }
    requires limit { weight (tree_of numbered_node.now below.now) ≤ MAX_EVENTS }
    ensures { OnOk result (moves.new.items ≡ moves.old.items
        ++ Script.moves (tree_of numbered_node.now below.now)) }
{
    let node = numbered_node.number;
    if numbered_node.node.skip.is_some() {
        moves.push(Move {
            node,
            act: Act::Skip,
        })?;
        return Ok(());
    }
    push_opening(&numbered_node.node, node, moves)?;
    push_all(node, below, moves)?;
    moves.push(Move {
        node,
        act: Act::Finish,
    })?;
    Ok(())
}

/// Adds what some trees do below a parent.
#[cycle(moving)]
fn push_all(parent: u32, nodes: &[NumberedNode], moves: &mut Vec<Move>) -> Result<(), AllocError>
    requires nodes { IsForest nodes.now }
    requires limit { weights (forest nodes.now) ≤ MAX_EVENTS }
    ensures { OnOk result (moves.new.items ≡ moves.old.items
        ++ moves_below parent (forest nodes.now)) }
{
    let mut rest = nodes;
    while let [numbered_node, after @ ..] = rest {
        let (below, others) = numbered_node.split(after);
        if !numbered_node.node.is_static {
            moves.push(Move {
                node: numbered_node.number,
                act: Act::Register { parent },
            })?;
        }
        push_tree(numbered_node, below, moves)?;
        rest = others;
    }
    Ok(())
}

/// Whether a node starts, finishes and does nothing else: it isn't skipped, publishes nothing, and
/// no node stands below it.
pub(crate) fn is_short(node: &Node, below: &[NumberedNode]) -> bool
    ensures { IsTrue result ↔ IsShort node.now below.now }
{
    below.is_empty()
        && node.skip.is_none()
        && node.entries.as_slice().is_empty()
        && node.files.as_slice().is_empty()
}

/// Gives moves their stamps.
pub(crate) fn stamp_all(alloc: Global, first: u64, moves: &[Move]) -> Result<Vec<Step>, AllocError>
    requires { first + length moves.now ≤ 2 ^ 63 }
    ensures { IfOk result (λ steps. steps.items ≡ stamped first moves.now) }
{
    let mut steps = Vec::new(alloc);
    for (index, moved) in moves.iter().enumerate() {
        steps.push(Step {
            node: moved.node,
            stamp: first + index as u64,
            act: moved.act,
        })?;
    }
    Ok(steps)
}

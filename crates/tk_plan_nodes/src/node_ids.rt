//! The ids of nodes, written also where a plan refuses them.
ghost use Rattle.std.specs.Prelude.{◌≡◌, ◌++◌, ◌∷◌, [], IfOk, OnOk, string_bytes, encode_utf8};
ghost use Rattle.tk_ids.specs.Characters.{slash};
ghost use Rattle.tk_ids.specs.IdText.{escaped, segment_text};
ghost use Rattle.tk_plan_nodes.specs.NodeIds.{id_at, ids_after};
ghost use Rattle.tk_plan_nodes.specs.steps.{ids_of_all, search_in};

use crate::plan_nodes::PlanNode;
use std::alloc::{AllocError, Global};
use tk_ids::Text;

/// What a search for a node by its number finds.
#[derive(Drop)]
pub(crate) enum Search {
    /// The node's id.
    Found(Text),
    /// How many nodes are still to be passed over.
    Left(usize),
}

fn push_character(out: &mut String, character: char) -> Result<(), AllocError>
    ensures { OnOk result (string_bytes out.new
        ≡ string_bytes out.old ++ escaped (encode_utf8 character)) }
{
    match character {
        '%' => out.push_str("%25"),
        '+' => out.push_str("%2B"),
        '[' => out.push_str("%5B"),
        ']' => out.push_str("%5D"),
        ':' => out.push_str("%3A"),
        '/' => out.push_str("%2F"),
        _ => out.push(character),
    }
}

/// Writes a tag or a value with its escapes.
fn push_escaped(out: &mut String, text: &str) -> Result<(), AllocError>
    ensures { OnOk result (string_bytes out.new ≡ string_bytes out.old ++ escaped text.now) }
{
    for character in text.chars() {
        push_character(out, character)?;
    }
    Ok(())
}

/// Writes `[tag:value]`.
pub(crate) fn push_segment(out: &mut String, tag: &str, value: &str) -> Result<(), AllocError>
    ensures { OnOk result (string_bytes out.new ≡ string_bytes out.old
        ++ segment_text (record { tag = tag.now; value = value.now })) }
{
    out.push('[')?;
    push_escaped(out, tag)?;
    out.push(':')?;
    push_escaped(out, value)?;
    out.push(']')
}

/// Searches a node and all below it. The text before the node's own segment is `prefix`.
#[cycle(searching)]
fn search_node(
    alloc: Global,
    prefix: &str,
    node: &PlanNode<'_>,
    left: usize,
) -> Result<Search, AllocError>
    ensures { IfOk result (λ found. found ≡ search_in (ids_after node.now prefix.now) left) }
{
    let mut id = String::from_str(alloc, prefix)?;
    push_segment(&mut id, node.tag, node.value)?;
    if left == 0 {
        return Ok(Search::Found(Text::from(id)));
    }
    id.push('/')?;
    match search_nodes(alloc, id.as_str(), node.children.as_slice(), left - 1)? {
        Search::Left(left) => search_nodes(alloc, id.as_str(), node.dynamic.as_slice(), left),
        Search::Found(id) => Ok(Search::Found(id)),
    }
}

#[cycle(searching)]
fn search_nodes(
    alloc: Global,
    prefix: &str,
    nodes: &[PlanNode<'_>],
    mut left: usize,
) -> Result<Search, AllocError>
    ensures { IfOk result (λ found. found ≡ search_in (ids_of_all nodes.now prefix.now) left) }
{
    for node in nodes {
        match search_node(alloc, prefix, node, left)? {
            Search::Left(still) => left = still,
            Search::Found(id) => return Ok(Search::Found(id)),
        }
    }
    Ok(Search::Left(left))
}

/// Writes the id of the node with this number in preorder, the dynamic nodes below a node after the
/// static ones. The answer is `None` where no node of the tree has the number.
///
/// The text is that of an id where a plan takes the node; else it may have an empty tag or value, or
/// be too long.
///
/// # Errors
/// `AllocError` where a request for memory is refused.
pub fn write_id(
    alloc: Global,
    root: &PlanNode<'_>,
    number: usize,
) -> Result<Option<Text>, AllocError>
    ensures { IfOk result (λ id. id ≡ id_at root.now number) }
{
    match search_node(alloc, "", root, number)? {
        Search::Found(id) => Ok(Some(id)),
        Search::Left(_) => Ok(None),
    }
}

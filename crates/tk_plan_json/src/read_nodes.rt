//! What is kept as a plan is read.
ghost use Rattle.std.specs.Prelude.{◌≡◌, []};

use indexmap::IndexSet;
use std::alloc::Global;
use tk_ids::{Descriptor, Segment, Text, UniqueId};
use tk_plan::{Node, NumberedNode};

/// The nodes that were read, in preorder, and what they have.
#[derive(Drop)]
pub struct ReadNodes {
    /// The nodes, with no number yet.
    pub nodes: Vec<NumberedNode>,
    /// The descriptors of the static nodes.
    pub descriptors: Vec<Descriptor>,
    /// How many nodes are dynamic.
    pub dynamics: usize,
    /// The lock keys, save `global`.
    pub keys: IndexSet<Text>,
}

impl ReadNodes {
    /// Makes what is kept before any node was read.
    pub fn new(alloc: Global) -> ReadNodes
        ensures nodes { result.nodes.items ≡ [] }
        ensures descriptors { result.descriptors.items ≡ [] }
        ensures dynamics { result.dynamics ≡ 0 }
        ensures keys { result.keys.keys ≡ [] }
    {
        ReadNodes {
            nodes: Vec::new(alloc),
            descriptors: Vec::new(alloc),
            dynamics: 0,
            keys: IndexSet::new(alloc),
        }
    }
}

/// The last segment of an id, and the id.
#[derive(Drop)]
pub(crate) struct Named {
    pub segment: Segment,
    pub id: UniqueId,
}

/// A node that was checked.
#[derive(Drop)]
pub(crate) struct Checked {
    pub node: Node,
    pub id: UniqueId,
    /// Whether no node stands below it.
    pub is_leaf: bool,
}

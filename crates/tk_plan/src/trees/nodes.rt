//! What a plan says of its nodes.
ghost use Rattle.std.specs.Prelude.{◌≡◌, ◌∷◌};

use std::marker::Model;
use tk_events::{Outcome, Pairs};
use tk_ids::{DType, Lock, Segment, Text};

/// The locks that a node asks for, in the plan's order.
#[derive(Debug, Drop)]
pub struct NodeLocks {
    items: Vec<Lock>,
}

impl Model for NodeLocks {
    ghost use Rattle.std.specs.Prelude.{List};
    ghost use Rattle.tk_ids.specs.declared.locks.Lock.{Lock};

    ghost Value = { List Lock };

    ghost view = { λ l. l.items.items };
}

impl NodeLocks {
    /// These locks, in their order.
    pub fn new(items: Vec<Lock>) -> NodeLocks
        ensures { result ≡ items.items }
    {
        NodeLocks { items }
    }

    /// The locks, in their order.
    pub fn as_slice(&self) -> &[Lock]
        ensures { result.now ≡ self.now }
    {
        self.items.as_slice()
    }
}

/// The entries that a node publishes.
#[derive(Debug, Drop)]
pub struct Entries {
    items: Vec<Pairs>,
}

impl Model for Entries {
    ghost use Rattle.std.specs.Prelude.{List, ℕ};

    ghost Value = { List (List (List ℕ × List ℕ)) };

    ghost view = { λ e. e.items.items };
}

impl Entries {
    /// These entries, in their order.
    pub fn new(items: Vec<Pairs>) -> Entries
        ensures { result ≡ items.items }
    {
        Entries { items }
    }

    /// The entries, in their order.
    pub fn as_slice(&self) -> &[Pairs]
        ensures { result.now ≡ self.now }
    {
        self.items.as_slice()
    }
}

/// The paths of the files that a node publishes.
#[derive(Debug, Drop)]
pub struct Files {
    paths: Vec<Text>,
}

impl Model for Files {
    ghost use Rattle.std.specs.Prelude.{List, ℕ};

    ghost Value = { List (List ℕ) };

    ghost view = { λ f. f.paths.items };
}

impl Files {
    /// The files of these paths, in their order.
    pub fn new(paths: Vec<Text>) -> Files
        ensures { result ≡ paths.items }
    {
        Files { paths }
    }

    /// The paths, in their order.
    pub fn as_slice(&self) -> &[Text]
        ensures { result.now ≡ self.now }
    {
        self.paths.as_slice()
    }
}

/// What a plan says of one node.
#[derive(Debug, Drop)]
pub struct Node {
    /// Whether the node stands in the table. Any other is registered as it runs.
    pub is_static: bool,
    /// Whether the node is a container, a test, or both.
    pub dtype: DType,
    /// The last segment of the node's id.
    pub segment: Segment,
    /// The display name.
    pub name: Text,
    /// Whether the node may run beside its siblings.
    pub is_concurrent: bool,
    /// Whether nothing else may run beside the node.
    pub is_isolated: bool,
    /// The locks that the node asks for, in the plan's order.
    pub locks: NodeLocks,
    /// Why the node is skipped, if it is.
    pub skip: Option<Text>,
    /// How the node finishes, if it isn't skipped.
    pub outcome: Outcome,
    /// The entries that it publishes after its start.
    pub entries: Entries,
    /// The files that it publishes after its entries.
    pub files: Files,
}

/// A node in preorder.
#[derive(Debug, Drop)]
pub struct NumberedNode {
    /// What the plan says of the node.
    pub node: Node,
    /// A static node's number is its key in the table. The dynamic nodes' numbers follow.
    pub number: u32,
    /// How many nodes there are from this one down.
    pub span: usize,
}

impl NumberedNode {
    ghost use Rattle.tk_plan.specs.Trees.{IsForest, IsSplit};

    /// What comes after the node in preorder, split into the nodes below it and the others.
    pub fn split<'p>(&self, after: &'p [NumberedNode]) -> (&'p [NumberedNode], &'p [NumberedNode])
        requires { IsForest (self.now ∷ after.now) }
        ensures { IsSplit self.now after.now result.0.now result.1.now }
    {
        after.split_at(self.span - 1)
    }
}

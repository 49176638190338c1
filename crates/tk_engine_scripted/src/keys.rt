//! The keys of the nodes that a unit has registered.
ghost use Rattle.std.specs.Prelude.{◌≡◌, ◌⊎◌, ◌<◌, ℕ, None, Some, IsSome, OnOk};
ghost use Rattle.tk_engine_scripted.specs.steps.{kept, noted, key_found};

use indexmap::IndexMap;
use std::alloc::{AllocError, Global};

/// The keys of registered nodes, by the nodes' numbers.
#[derive(Drop)]
pub(crate) struct Keys {
    by_node: IndexMap<u32, u32>,
}

impl Keys {
    /// Makes keys in which no node has one.
    pub fn new(alloc: Global) -> Keys
        ensures { (node : ℕ) → kept result node ≡ None }
    {
        Keys {
            by_node: IndexMap::new(alloc),
        }
    }

    /// Notes the key of a node, unless it has one.
    ///
    /// # Errors
    /// `AllocError` where a request for memory is refused.
    pub fn note(&mut self, node: u32, key: u32) -> Result<(), AllocError>
        ensures { OnOk result ((other : ℕ)
            → kept self.new other ≡ noted (kept self.old) node key other) }
    {
        if self.by_node.get(&node).is_none() {
            self.by_node.insert(node, key)?;
        }
        Ok(())
    }

    /// Returns the key of a node that is static, so that its number is its key, or whose key was
    /// noted.
    pub fn key_of(&self, statics: usize, node: u32) -> u32
        requires { (node < statics) ⊎ IsSome (kept self.now node) }
        ensures { key_found statics (kept self.now) node ≡ Some result }
    {
        if (node as usize) < statics {
            return node;
        }
        match self.by_node.get(&node) {
            Some(key) => *key,
            None => unreachable!(),
        }
    }
}

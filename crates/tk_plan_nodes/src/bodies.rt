//! The numbers of the bodies that run for the nodes of a plan.
ghost use Rattle.std.specs.Prelude.{◌≡◌, ◌++◌, IfOk, OnOk};
ghost use Rattle.tk_plan_nodes.specs.Bodies.{bodies_of, body_at};

use crate::plan_nodes::PlanNode;
use std::alloc::{AllocError, Global};
use std::marker::Model;

/// The number of the body of each static node of a plan, by the node's key.
#[derive(Debug, Drop)]
pub struct Bodies {
    numbers: Vec<Option<u32>>,
}

impl Model for Bodies {
    ghost use Rattle.std.specs.Prelude.{ℕ, List, Option};

    ghost Value = { List (Option ℕ) };

    ghost view = { λ b. b.numbers.items };
}

impl Bodies {
    /// Collects the numbers of the tree with this root.
    pub(crate) fn of(alloc: Global, root: &PlanNode<'_>) -> Result<Bodies, AllocError>
        ensures { IfOk result (λ bodies. bodies ≡ bodies_of root.now) }
    {
        let mut numbers = Vec::new(alloc);
        push_bodies(&mut numbers, root)?;
        Ok(Bodies { numbers })
    }

    /// Returns the number that [`PlanNode::body`] set for the static node with this key.
    ///
    /// The answer is `None` where none was set, and where no static node has the key.
    pub fn at(&self, key: u32) -> Option<u32>
        ensures { result ≡ body_at self.now key }
    {
        match self.numbers.get(key as usize) {
            Some(number) => *number,
            None => None,
        }
    }
}

/// Adds the numbers of a node and of the static nodes below it.
#[tactic(auto, using(crate::proofs::BodyNumbers::own_then_below))]
fn push_bodies(numbers: &mut Vec<Option<u32>>, node: &PlanNode<'_>) -> Result<(), AllocError>
    ensures { OnOk result (numbers.new.items ≡ numbers.old.items ++ bodies_of node.now) }
{
    numbers.push(node.body)?;
    for child in &node.children {
        push_bodies(numbers, child)?;
    }
    Ok(())
}

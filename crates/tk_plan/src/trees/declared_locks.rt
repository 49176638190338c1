//! The locks that the descriptor of a node declares.
ghost use Rattle.std.specs.Prelude.{◌≡◌, ℕ, List, IfOk};
ghost use Rattle.tk_ids.specs.Locks.{mode_of};
ghost use Rattle.tk_plan.specs.DeclaredLocks as DeclaredLocks;

use crate::trees::nodes::Node;
use std::alloc::{AllocError, Global};
use tk_ids::{Lock, LockMode, Locks, Text};

/// The lock that a node asks for where it is isolated.
fn isolation(alloc: Global, is_isolated: bool) -> Result<Locks, AllocError>
    ensures modes { IfOk result (λ locks. (name : List ℕ) →
        mode_of locks name ≡ mode_of (DeclaredLocks.isolation is_isolated) name) }
{
    let mut locks = Locks::new();
    if is_isolated {
        let name = Text::copy(alloc, "global")?;
        let mode = LockMode::ReadWrite;
        locks.add(alloc, Lock { name, mode })?;
    }
    Ok(locks)
}

impl Node {
    /// Makes the locks that the node's descriptor declares.
    ///
    /// Of two of one name the stronger stays, and one without a name is left out. An isolated node
    /// declares `global` for writing.
    ///
    /// # Errors
    /// `AllocError` where a request for memory is refused.
    pub fn declared_locks(&self, alloc: Global) -> Result<Locks, AllocError>
        ensures locks { IfOk result (λ locks. locks ≡ DeclaredLocks.declared_locks self.now) }
    {
        let mut locks = isolation(alloc, self.is_isolated)?;
        for lock in self.locks.as_slice() {
            if !lock.name.is_empty() {
                locks.add(alloc, lock.try_clone()?)?;
            }
        }
        // For the proof: their order.
        locks.shows_order();
        Ok(locks)
    }
}

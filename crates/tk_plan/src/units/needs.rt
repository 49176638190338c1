//! What a unit needs.
ghost use Rattle.std.specs.Prelude.{◌≡◌, ◌≤◌, ◌<◌, ℕ, ◌∷◌, length, IfSome, Some};
ghost use Rattle.std.specs.Int.{bit_at};
ghost use Rattle.tk_locks.specs.Needs.{access_of};
ghost use Rattle.tk_plan.specs.LockNeeds as LockNeeds;
ghost use Rattle.tk_plan.specs.LockNeeds.{over, at_resource, access_for, lock_asks, node_asks, IsNeed};
ghost use Rattle.tk_plan.specs.Trees.{contents};
ghost use Rattle.tk_plan.specs.steps.{access_of_masks};

use crate::trees::nodes::{Node, NumberedNode};
use tk_ids::{Lock, LockMode, Text};
use tk_locks::Need;

/// How many lock keys a plan has at most, save `global`.
pub const MAX_KEYS: usize = 15;

/// The resources that are read, and those that are written.
#[derive(Clone, Copy)]
pub(crate) struct NeedMasks {
    pub reads: u16,
    pub writes: u16,
}

fn key_index(keys: &[Text], key: &str) -> Option<usize>
    ensures key_index { result ≡ LockNeeds.key_index keys.now key.now }
    ensures within { IfSome result (λ i. i < length keys.now) }
{
    match keys {
        [] => None,
        [first, rest @ ..] => {
            if first.as_str() == key {
                return Some(0);
            }
            Some(key_index(rest, key)? + 1)
        }
    }
}

/// The resource of a lock's key.
fn resource(keys: &[Text], key: &str) -> Option<usize>
    ensures resource { result ≡ LockNeeds.resource keys.now key.now }
    ensures within { IfSome result (λ i. i ≤ length keys.now) }
{
    if key == "global" {
        return Some(0);
    }
    Some(key_index(keys, key)? + 1)
}

/// How a node holds the resource of `global`.
fn global_mode(is_isolated: bool) -> LockMode
    ensures mode { result ≡ LockNeeds.global_mode is_isolated }
{
    if is_isolated {
        LockMode::ReadWrite
    } else {
        LockMode::Read
    }
}

impl NeedMasks {
    fn mark(&mut self, resource: usize, mode: LockMode)
        requires { resource < 16 }
        ensures { (r : ℕ) → r < 16 → access_of_masks self.new r
            ≡ over (access_of_masks self.old r)
            (at_resource (Some resource) (access_for mode) r) }
    {
        let bit = 1u16 << resource;
        match mode {
            LockMode::Read => self.reads |= bit,
            LockMode::ReadWrite => self.writes |= bit,
        }
    }

    fn mark_locks(&mut self, keys: &[Text], locks: &[Lock])
        requires { length keys.now ≤ MAX_KEYS }
        ensures { (r : ℕ) → r < 16 → access_of_masks self.new r
            ≡ over (access_of_masks self.old r) (lock_asks keys.now locks.now r) }
    {
        for lock in locks {
            if let Some(resource) = resource(keys, lock.name.as_str()) {
                self.mark(resource, lock.mode);
            }
        }
    }

    fn mark_node(&mut self, keys: &[Text], node: &Node)
        requires { length keys.now ≤ MAX_KEYS }
        ensures { (r : ℕ) → r < 16 → access_of_masks self.new r
            ≡ over (access_of_masks self.old r) (node_asks keys.now node.now r) }
    {
        self.mark(0, global_mode(node.is_isolated));
        self.mark_locks(keys, node.locks.as_slice());
    }
}

/// What a tree of nodes needs.
pub(crate) fn need_of(keys: &[Text], numbered_node: &NumberedNode, below: &[NumberedNode]) -> Need
    requires { length keys.now ≤ MAX_KEYS }
    ensures { IsNeed keys.now (contents (numbered_node.now ∷ below.now)) result }
{
    let mut masks = NeedMasks {
        reads: 0,
        writes: 0,
    };
    masks.mark_node(keys, &numbered_node.node);
    for other in below {
        masks.mark_node(keys, &other.node);
    }
    Need::of(masks.reads, masks.writes)
}

//! Which static keys of a plan belong to which unit.
ghost use Rattle.std.specs.Prelude.{◌≡◌, ◌<◌, ◌≤◌, ◌+◌, ◌-◌, ◌^◌, ◌∷◌, ℕ, [], IfOk, IfSome, IsTrue, Some, true, get_or, length, min, slice_get};
ghost use Rattle.std.specs.Arc.{arc_value};
ghost use Rattle.tk_ids.specs.Table.{AreDifferent};
ghost use Rattle.tk_queue_session.specs.Emission.{entries_by};
ghost use Rattle.tk_query_lifecycle.specs.Lifecycle.{runs};
ghost use Rattle.tk_run_laws.specs.Spines.{count_static, end_of};
ghost use Rattle.tk_engine_lifecycle.specs.Units.{KeepsAround};
ghost use Rattle.tk_plan.specs.Parents.{HasParentAt};
ghost use Rattle.tk_plan.specs.Planned.{IsPlanned};
ghost use Rattle.tk_plan.specs.Trees.{IsForest, tree_of};
ghost use Rattle.tk_engine_unit_events.specs.Owners.{AreOwners};
ghost use Rattle.tk_engine_unit_events.specs.Shapes.{HavePlaces, count_units, frame, keys_in};

use std::alloc::{AllocError, Global};
use std::marker::Model;
use std::sync::Arc;
use tk_ids::{MAX_DESCRIPTORS, Table};
use tk_plan::{NumberedNode, Plan, UnitTree};
use tk_run_laws::laws::spine;

/// A plan, with the unit and the parent of each static key.
#[derive(Drop)]
pub struct Shape {
    plan: Plan,
    /// The number of the units stands for a key on the spine.
    owners: Vec<u32>,
    parents: Vec<u32>,
}

impl Model for Shape {
    ghost use Rattle.tk_plan.specs.Parents.{AreParents};
    ghost use Rattle.tk_engine_unit_events.specs.Owners.{AreOwners};
    ghost use Rattle.tk_engine_unit_events.specs.Shapes.{ShapeView};

    ghost Value = { ShapeView };

    ghost view = { λ s. record { plan = s.plan; owners = s.owners.items } };

    ghost invariant = { λ s. AreOwners s.plan s.owners.items
        × AreParents s.plan.table s.parents.items };
}

// The key that follows the one of a node: the next one where the node is static.
fn key_after(key: u32, numbered_node: &NumberedNode) -> u32
    ensures { result ≡ min (key + count_static (numbered_node.now ∷ [])) (2 ^ 32 - 1) }
{
    if numbered_node.node.is_static {
        key.saturating_add(1)
    } else {
        key
    }
}

// The end of the keys of a unit's static nodes.
fn end_of_keys(tree: UnitTree<'_>) -> u32
    requires { IsForest tree.below.now }
    ensures { result ≡ min (end_of (tree_of tree.entry.top.now tree.entry.below.now)) (2 ^ 32 - 1) }
{
    let mut end = key_after(tree.top.number, tree.top);
    for numbered_node in tree.below {
        end = key_after(end, numbered_node);
    }
    end
}

// Gives a unit the keys from a first one on and below an end.
fn set_owner(owners: &mut Vec<u32>, unit: u32, first: u32, end: u32)
    requires order { first ≤ end }
    requires within { end ≤ length owners.old.items }
    ensures count { length owners.new.items ≡ length owners.old.items }
    ensures own { (key : ℕ) → first ≤ key → key < end
        → slice_get owners.new.items key ≡ Some unit }
    ensures before { (key : ℕ) → key < first
        → slice_get owners.new.items key ≡ slice_get owners.old.items key }
    ensures after { (key : ℕ) → end ≤ key
        → slice_get owners.new.items key ≡ slice_get owners.old.items key }
{
    for key in first..end {
        owners[key as usize] = unit;
    }
}

// The unit of each static key, or the number of the units where the key stands on the spine.
fn owners_of(alloc: Global, plan: &Plan) -> Result<Vec<u32>, AllocError>
    ensures { IfOk result (λ owners. AreOwners plan.now owners.items) }
{
    // For the proof: each static key stands on the spine or in one unit.
    spine();
    let units = plan.units().len() as u32;
    let mut owners = Vec::from_elem(alloc, units, plan.table().len())?;
    for unit in 0..units {
        let tree = plan.unit_tree(unit);
        set_owner(&mut owners, unit, tree.top.number, end_of_keys(tree));
    }
    Ok(owners)
}

impl Shape {
    /// Makes the shape of a plan.
    pub fn new(alloc: Global, plan: Plan) -> Result<Shape, AllocError>
        ensures { IfOk result (λ s. s.plan ≡ plan) }
    {
        let owners = owners_of(alloc, &plan)?;
        let parents = plan.parents(alloc)?;
        Ok(Shape {
            plan,
            owners,
            parents,
        })
    }

    /// The plan.
    pub fn plan(&self) -> &Plan
        ensures { result.now ≡ self.now.plan }
    {
        &self.plan
    }

    /// The table of the static descriptors.
    pub fn table(&self) -> &Arc<Table>
        ensures { arc_value result.now ≡ self.now.plan.table }
    {
        self.plan.table()
    }

    /// Counts the units.
    pub fn count_units(&self) -> u32
        ensures count { result ≡ count_units self.now }
        ensures few { result ≤ MAX_DESCRIPTORS }
    {
        self.plan.units().len() as u32
    }

    /// The unit to which a static key belongs, or the number of the units.
    pub(crate) fn owner(&self, key: u32) -> u32
        ensures { result ≡ get_or self.now.owners key (count_units self.now) }
    {
        match self.owners.get(key as usize) {
            Some(unit) => *unit,
            None => self.count_units(),
        }
    }

    /// The static key of the parent of another.
    pub(crate) fn parent_of(&self, key: u32) -> Option<u32>
        ensures { IfSome result (λ parent.
            0 < key → HasParentAt self.now.plan.table key parent) }
    {
        let parent = *self.parents.get(key as usize)?;
        if (parent as usize) < self.table().len() {
            Some(parent)
        } else {
            None
        }
    }

    /// The first static key of a unit, and the end of its keys.
    pub(crate) fn keys_of(&self, unit: u32) -> (u32, u32)
        requires { unit < count_units self.now }
        ensures { record { unit = unit; first = result.0; end = result.1 }
            ≡ keys_in self.now unit }
    {
        // For the proof: the keys of units end where the table does, or before.
        spine();
        let _table = self.plan.table();
        let tree = self.plan.unit_tree(unit);
        (tree.top.number, end_of_keys(tree))
    }

    /// Whether a static key runs after the events before the units.
    pub(crate) fn runs_before(&self, key: u32) -> bool
        ensures { IsTrue result → runs key (entries_by 0 (frame self.now).before) ≡ true }
    {
        // For the proof: each key on the spine does.
        spine();
        match self.owners.get(key as usize) {
            Some(unit) => self.count_units() <= *unit,
            None => false,
        }
    }

    /// Shows what holds of each shape.
    pub fn shows_shape(&self)
        ensures around { KeepsAround (frame self.now) }
        ensures places { HavePlaces self.now }
        ensures different { AreDifferent self.now.plan.table }
        ensures planned { IsPlanned self.now.plan.nodes self.now.plan.table }
    {
        spine();
        self.plan.table().shows_different_ids();
    }
}

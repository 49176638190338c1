//! Cutting a plan.
ghost use Rattle.std.specs.Prelude.{◌≡◌, ◌≤◌, ◌+◌, ◌*◌, ◌^◌, ℕ, List, suc, true, ◌∷◌, [], IfOk, OnOk, length};
ghost use Rattle.tk_plan.specs.Trees.{IsForest, forest, tree_of, contents};
ghost use Rattle.tk_plan.specs.Weights.{publications, weight, weights};
ghost use Rattle.tk_plan.specs.Cutting.{spine_begins, whole_unit, spine_ends, parts, parts_below, all_static};
ghost use Rattle.tk_plan.specs.steps.{AddsPartsAt, placed};
ghost use Rattle.tk_plan.specs.CutPlans.{IsCut};
ghost use Rattle.tk_plan.specs.Keys.{lock_keys};
ghost use Rattle.tk_ids.specs.declared.tables.TheConstants.{MAX_DESCRIPTORS};
ghost use Rattle.tk_base.specs.declared.limits.TheConstants.{MAX_EVENTS};
ghost use Rattle.tk_plan.specs.declared.units.needs.TheConstants.{MAX_KEYS};

use crate::scripts::counts::{count_publications, count_tree};
use crate::trees::nodes::NumberedNode;
use crate::units::needs::need_of;
use crate::units::spines::is_on_spine;
use std::alloc::{AllocError, Global};
use tk_ids::Text;
use tk_locks::Need;

/// A unit: the position of its first node, how many events come before it, and its need.
#[derive(Clone, Copy)]
pub(crate) struct PlanUnit {
    pub position: usize,
    pub first: u64,
    pub need: Need,
}

/// The position of a node of the spine, and the stamp of its first event there.
#[derive(Clone, Copy)]
pub(crate) struct SpineStamp {
    pub position: usize,
    pub stamp: u64,
}

/// The spine and the units of the nodes that were cut so far.
#[derive(Drop)]
pub(crate) struct Cutting {
    /// The numbers of the spine's nodes.
    pub spine: Vec<u32>,
    /// The numbers of the units' top nodes.
    pub unit_keys: Vec<u32>,
    pub units: Vec<PlanUnit>,
    /// The spine's nodes with the stamps of their starts, in preorder.
    pub starts: Vec<SpineStamp>,
    /// The spine's nodes with the stamps of their finishes, in postorder.
    pub finishes: Vec<SpineStamp>,
    /// How many events there are so far.
    pub event_count: u64,
}

impl Cutting {
    /// Makes the cutting of no node.
    pub(crate) fn new(alloc: Global) -> Cutting
        ensures spine { result.spine.items ≡ [] }
        ensures unit_keys { result.unit_keys.items ≡ [] }
        ensures units { result.units.items ≡ [] }
        ensures starts { result.starts.items ≡ [] }
        ensures finishes { result.finishes.items ≡ [] }
        ensures event_count { result.event_count ≡ 0 }
    {
        Cutting {
            spine: Vec::new(alloc),
            unit_keys: Vec::new(alloc),
            units: Vec::new(alloc),
            starts: Vec::new(alloc),
            finishes: Vec::new(alloc),
            event_count: 0,
        }
    }

    /// Adds a start on the spine with its entries and its files.
    fn begin(&mut self, numbered_node: &NumberedNode, position: usize) -> Result<(), AllocError>
        requires { self.old.event_count + (1 + publications numbered_node.now.node) ≤ MAX_EVENTS }
        ensures event_count { OnOk result
            (self.new.event_count ≡ self.old.event_count
            + (1 + publications numbered_node.now.node)) }
        ensures adds { OnOk result ((keys : List (List ℕ))
            → AddsPartsAt (placed position (numbered_node.now ∷ []) keys) self.old self.new
            (spine_begins numbered_node.now.node numbered_node.now.number ∷ [])) }
    {
        self.spine.push(numbered_node.number)?;
        self.starts.push(SpineStamp {
            position,
            stamp: self.event_count,
        })?;
        self.event_count += 1 + count_publications(&numbered_node.node);
        Ok(())
    }

    /// Adds a finish on the spine.
    fn end(&mut self, numbered_node: &NumberedNode, position: usize) -> Result<(), AllocError>
        requires { self.old.event_count ≤ MAX_EVENTS }
        ensures event_count { OnOk result (self.new.event_count ≡ self.old.event_count + 1) }
        ensures adds { OnOk result ((keys : List (List ℕ))
            → AddsPartsAt (placed position (numbered_node.now ∷ []) keys) self.old self.new
            (spine_ends numbered_node.now.node numbered_node.now.number ∷ [])) }
    {
        self.finishes.push(SpineStamp {
            position,
            stamp: self.event_count,
        })?;
        self.event_count += 1;
        Ok(())
    }

    /// Adds a unit.
    fn add(
        &mut self,
        keys: &[Text],
        numbered_node: &NumberedNode,
        below: &[NumberedNode],
        position: usize,
    ) -> Result<(), AllocError>
        requires keys { length keys.now ≤ MAX_KEYS }
        requires below { IsForest below.now }
        requires span { numbered_node.now.span ≡ suc (length below.now) }
        requires limit { self.old.event_count + weight (tree_of numbered_node.now below.now)
            ≤ MAX_EVENTS }
        ensures event_count { OnOk result
            (self.new.event_count ≡ self.old.event_count
            + weight (tree_of numbered_node.now below.now)) }
        ensures adds { OnOk result
            (AddsPartsAt (placed position (numbered_node.now ∷ below.now) keys.now)
            self.old self.new
            (whole_unit (tree_of numbered_node.now below.now) ∷ [])) }
    {
        self.unit_keys.push(numbered_node.number)?;
        self.units.push(PlanUnit {
            position,
            first: self.event_count,
            need: need_of(keys, numbered_node, below),
        })?;
        self.event_count += count_tree(numbered_node, below);
        Ok(())
    }
}

#[cycle(cutting)]
fn cut_tree(
    keys: &[Text],
    numbered_node: &NumberedNode,
    below: &[NumberedNode],
    position: usize,
    is_root: bool,
    cutting: &mut Cutting,
) -> Result<(), AllocError>
    requires keys { length keys.now ≤ MAX_KEYS }
    requires below { IsForest below.now }
    requires span { numbered_node.now.span ≡ suc (length below.now) }
    requires position { position + 1 + length below.now ≤ 2 ^ 32 }
    requires limit { cutting.old.event_count + weight (tree_of numbered_node.now below.now)
        ≤ MAX_EVENTS }
    ensures event_count { OnOk result
        (cutting.new.event_count ≡ cutting.old.event_count
        + weight (tree_of numbered_node.now below.now)) }
    ensures adds { OnOk result
        (AddsPartsAt (placed position (numbered_node.now ∷ below.now) keys.now)
        cutting.old cutting.new (parts is_root (tree_of numbered_node.now below.now))) }
{
    if !is_on_spine(is_root, &numbered_node.node, below) {
        cutting.add(keys, numbered_node, below, position)?;
        return Ok(());
    }
    cutting.begin(numbered_node, position)?;
    cut_all(keys, below, position + 1, false, cutting)?;
    cutting.end(numbered_node, position)?;
    Ok(())
}

/// Cuts trees that stand side by side; the first begins at `position`.
#[cycle(cutting)]
fn cut_all(
    keys: &[Text],
    nodes: &[NumberedNode],
    position: usize,
    is_root: bool,
    cutting: &mut Cutting,
) -> Result<(), AllocError>
    requires keys { length keys.now ≤ MAX_KEYS }
    requires nodes { IsForest nodes.now }
    requires statics { all_static (forest nodes.now) ≡ true }
    requires position { position + length nodes.now ≤ 2 ^ 32 }
    requires limit { cutting.old.event_count + weights (forest nodes.now) ≤ MAX_EVENTS }
    ensures event_count { OnOk result
        (cutting.new.event_count ≡ cutting.old.event_count + weights (forest nodes.now)) }
    ensures adds { OnOk result (AddsPartsAt (placed position nodes.now keys.now)
        cutting.old cutting.new (parts_below is_root (forest nodes.now))) }
{
    let mut rest = nodes;
    let mut at = position;
    while let [numbered_node, after @ ..] = rest {
        let (below, others) = numbered_node.split(after);
        cut_tree(keys, numbered_node, below, at, is_root, cutting)?;
        at += numbered_node.span;
        rest = others;
    }
    Ok(())
}

/// Cuts a plan's nodes.
pub(crate) fn cut(
    alloc: Global,
    keys: &[Text],
    nodes: &[NumberedNode],
) -> Result<Cutting, AllocError>
    requires keys { keys.now ≡ lock_keys (contents nodes.now) }
    requires few_keys { length keys.now ≤ MAX_KEYS }
    requires trees { IsForest nodes.now }
    requires statics { all_static (forest nodes.now) ≡ true }
    requires few { length nodes.now ≤ 2 * MAX_DESCRIPTORS }
    requires limit { weights (forest nodes.now) ≤ MAX_EVENTS }
    ensures { IfOk result (λ cutting. IsCut nodes.now cutting) }
{
    let mut cutting = Cutting::new(alloc);
    cut_all(keys, nodes, 0, true, &mut cutting)?;
    Ok(cutting)
}

//! Plans.
ghost use Rattle.std.specs.Prelude.{◌≡◌, ◌≢◌, ◌≤◌, ◌<◌, ◌^◌, length, true, IfOk, IfSome, IfNone, Some, IsSome, All, slice_get, option_map};
ghost use Rattle.std.specs.Arc.{arc_value};
ghost use Rattle.tk_ids.specs.declared.tables.TheConstants.{MAX_DESCRIPTORS};

use crate::scripts::events::{payload, push_finish_event, push_opening_events};
use crate::scripts::moves::{is_short, push_tree, stamp_all};
use crate::scripts::steps::{Act, Step};
use crate::trees::nodes::{Node, NumberedNode};
use crate::trees::numbering::set_numbers;
use crate::trees::parents::push_parents;
use crate::trees::positions::positions_of;
use crate::units::cuttings::{Cutting, cut};
use crate::units::unit_trees::{UnitTree, tree_at};
use std::alloc::{AllocError, Global};
use std::marker::Model;
use std::sync::Arc;
use tk_events::{Event, Outcome, Payload};
use tk_ids::{DType, Segment, Table, Text};
use tk_locks::Need;

/// A plan: a tree of nodes, of which the static ones stand in a table, and how it is cut.
#[derive(Drop)]
pub struct Plan {
    nodes: Vec<NumberedNode>,
    table: Arc<Table>,
    cutting: Cutting,
    /// The nodes' positions, in the order of their numbers.
    positions: Vec<usize>,
}

impl Model for Plan {
    ghost use Rattle.std.specs.Arc.{arc_value};
    ghost use Rattle.tk_plan.specs.Planned.{Outline};
    ghost use Rattle.tk_plan.specs.CutPlans.{IsPlan};

    ghost Value = { Outline };

    ghost view = { λ p. record { nodes = p.nodes.items; table = arc_value p.table } };

    ghost invariant = { λ p. IsPlan p.nodes.items (arc_value p.table) p.cutting p.positions.items };
}

impl Plan {
    ghost use Rattle.tk_plan.specs.Trees.{IsForest, forest, tree_of, contents};
    ghost use Rattle.tk_plan.specs.Script.{moves_below};
    ghost use Rattle.tk_plan.specs.Cutting.{spine_of, units_of, pieces_of, script_of, root_script, before_of, after_of};
    ghost use Rattle.tk_plan.specs.Keys.{lock_keys};
    ghost use Rattle.tk_plan.specs.Parents.{AreParents, parents_below};
    ghost use Rattle.tk_locks.specs.Needs.{word_of};
    ghost use Rattle.tk_plan.specs.Events.{AreStatic};
    ghost use Rattle.tk_plan.specs.Known.{IsKnown};
    ghost use Rattle.tk_plan.specs.StepEvents.{payload_of};
    ghost use Rattle.tk_plan.specs.Planned.{IsPlanned, IsNeedOf, need_word, IsWithin};
    ghost use Rattle.tk_plan.specs.Masks.{need_of};
    ghost use Rattle.tk_plan.specs.Numbers.{in_order, entry_of, path_of, numbered, IsNumbered};

    /// Makes the plan of nodes in preorder, and sets their numbers.
    ///
    /// `table` has the descriptors of the static nodes, and `keys` are the lock keys without
    /// `global`, in the order of their first appearance.
    ///
    /// # Errors
    /// `AllocError` where a request for memory is refused.
    pub fn new(
        alloc: Global,
        mut nodes: Vec<NumberedNode>,
        table: Arc<Table>,
        keys: &[Text],
    ) -> Result<Plan, AllocError>
        requires planned { IsPlanned nodes.items (arc_value table) }
        requires keys { keys.now ≡ lock_keys (contents nodes.items) }
        ensures { IfOk result (λ plan.
            plan ≡ record { nodes = numbered nodes.items; table = arc_value table }) }
    {
        let statics = table.len() as u32;
        set_numbers(statics, nodes.as_mut_slice());
        let cutting = cut(alloc, keys, nodes.as_slice())?;
        let positions = positions_of(alloc, nodes.as_slice())?;
        Ok(Plan {
            nodes,
            table,
            cutting,
            positions,
        })
    }

    /// The table of the static nodes.
    pub fn table(&self) -> &Arc<Table>
        ensures table { arc_value result.now ≡ self.now.table }
        // What every plan is.
        ensures planned { IsPlanned self.now.nodes self.now.table }
        ensures numbered { IsNumbered self.now.nodes }
    {
        &self.table
    }

    /// For each static node, in the order of the keys, the number of the node above it, and 0 for
    /// the root.
    ///
    /// # Errors
    /// `AllocError` where a request for memory is refused.
    pub fn parents(&self, alloc: Global) -> Result<Vec<u32>, AllocError>
        ensures parents { IfOk result (λ parents.
            parents.items ≡ parents_below 0 (forest self.now.nodes)) }
        ensures related { IfOk result (λ parents. AreParents self.now.table parents.items) }
    {
        let mut parents = Vec::with_capacity(alloc, self.table.len())?;
        push_parents(0, self.nodes.as_slice(), &mut parents)?;
        Ok(parents)
    }

    /// The keys of the spine's nodes, in preorder.
    pub fn spine(&self) -> &[u32]
        ensures { result.now ≡ spine_of (forest self.now.nodes) }
    {
        self.cutting.spine.as_slice()
    }

    /// The keys of the units, in preorder.
    pub fn units(&self) -> &[u32]
        ensures units { result.now ≡ units_of (forest self.now.nodes) }
        ensures few { length result.now ≤ MAX_DESCRIPTORS }
    {
        self.cutting.unit_keys.as_slice()
    }

    /// The resources that a unit reads and writes. Units count from 0.
    pub fn need(&self, unit: u32) -> Need
        requires { unit < length (units_of (forest self.now.nodes)) }
        ensures need { IsNeedOf self.now.nodes unit result }
        ensures word { word_of result ≡ need_word self.now.nodes unit }
        ensures value { result ≡ need_of self.now.nodes unit }
    {
        let need = self.cutting.units[unit as usize].need;
        // For the proof: what is read is not written.
        let _masks = (need.reads(), need.writes());
        need
    }

    /// The nodes of a unit, and how many events of the root's script come before it.
    pub fn unit_tree(&self, unit: u32) -> UnitTree<'_>
        requires { unit < length (units_of (forest self.now.nodes)) }
        ensures below { IsForest result.below.now }
        ensures piece { slice_get (pieces_of (forest self.now.nodes)) unit ≡ Some (record {
          tree = tree_of result.top.now result.below.now;
          first = result.first;
        }) }
    {
        let plan_unit = self.cutting.units[unit as usize];
        let (top, below) = tree_at(self.nodes.as_slice(), plan_unit.position);
        UnitTree {
            top,
            below,
            first: plan_unit.first,
        }
    }

    /// The steps of a unit, in their order.
    ///
    /// # Errors
    /// `AllocError` where a request for memory is refused.
    pub fn script(&self, alloc: Global, unit: u32) -> Result<Vec<Step>, AllocError>
        requires { unit < length (units_of (forest self.now.nodes)) }
        ensures steps { IfOk result (λ steps.
            steps.items ≡ script_of (forest self.now.nodes) unit) }
        // With its stamps it stands in the root's script.
        ensures within { IfOk result (λ steps.
            IsWithin steps.items (root_script (forest self.now.nodes))) }
        ensures known { IfOk result (λ steps.
            All (λ s. IsKnown self.now.nodes s.node s.act) steps.items) }
    {
        // For the proof: what every plan is.
        let _nodes = &self.nodes;
        let UnitTree { top, below, first } = self.unit_tree(unit);
        let mut moves = Vec::new(alloc);
        push_tree(top, below, &mut moves)?;
        stamp_all(alloc, first, moves.as_slice())
    }

    /// The two steps of a unit that is one node, which only starts and finishes, or `None` of any
    /// other unit. They are those of [`Plan::script`], and take no memory.
    pub fn short_script(&self, unit: u32) -> Option<[Step; 2]>
        requires { unit < length (units_of (forest self.now.nodes)) }
        ensures steps { IfSome result (λ steps. steps ≡ script_of (forest self.now.nodes) unit) }
        ensures known { IfSome result (λ steps.
            All (λ s. IsKnown self.now.nodes s.node s.act) steps) }
        ensures other { IfNone result (length (script_of (forest self.now.nodes) unit) ≢ 2) }
    {
        // For the proof: what every plan is.
        let _nodes = &self.nodes;
        let UnitTree { top, below, first } = self.unit_tree(unit);
        if !is_short(&top.node, below) {
            return None;
        }
        let start = Step {
            node: top.number,
            stamp: first,
            act: Act::Start,
        };
        let finish = Step {
            node: top.number,
            stamp: first + 1,
            act: Act::Finish,
        };
        Some([start, finish])
    }

    /// The starts of the spine's nodes with their entries and their files, in preorder.
    ///
    /// # Errors
    /// `AllocError` where a request for memory is refused.
    pub fn before(&self, alloc: Global) -> Result<Vec<Event>, AllocError>
        ensures events { IfOk result (λ events. events.items ≡ before_of (forest self.now.nodes)) }
        ensures lawful { IfOk result (λ events. AreStatic self.now.table events.items) }
    {
        let mut events = Vec::new(alloc);
        for spine in self.cutting.starts.as_slice() {
            push_opening_events(alloc, &self.nodes[spine.position], spine.stamp, &mut events)?;
        }
        Ok(events)
    }

    /// The finishes of the spine's nodes, in postorder.
    ///
    /// # Errors
    /// `AllocError` where a request for memory is refused.
    pub fn after(&self, alloc: Global) -> Result<Vec<Event>, AllocError>
        ensures events { IfOk result (λ events. events.items ≡ after_of (forest self.now.nodes)) }
        ensures lawful { IfOk result (λ events. AreStatic self.now.table events.items) }
    {
        let mut events = Vec::new(alloc);
        for spine in self.cutting.finishes.as_slice() {
            push_finish_event(&self.nodes[spine.position], spine.stamp, &mut events)?;
        }
        Ok(events)
    }

    /// How many events the root's script has.
    pub fn total_events(&self) -> u32
        ensures { result ≡ length (moves_below 0 (forest self.now.nodes)) }
    {
        self.cutting.event_count as u32
    }

    /// What the plan says of the node with this number.
    fn node(&self, number: u32) -> &Node
        requires { number < length self.now.nodes }
        ensures { slice_get (in_order self.now.nodes) number ≡ Some result.now }
    {
        let position = self.positions[number as usize];
        &self.nodes[position].node
    }

    /// Makes the payload of a step's event.
    ///
    /// A registration has none: the sink makes its descriptor.
    ///
    /// # Errors
    /// `AllocError` where a request for memory is refused.
    pub fn payload(&self, alloc: Global, step: Step) -> Result<Payload, AllocError>
        requires { IsKnown self.now.nodes step.node step.act }
        ensures { IfOk result (λ p.
            option_map (λ n. payload_of n step.act) (slice_get (in_order self.now.nodes) step.node)
            ≡ Some p) }
    {
        payload(alloc, self.node(step.node), step.act)
    }

    /// The name of the node with this number.
    pub fn name(&self, node: u32) -> &str
        requires { node < length self.now.nodes }
        ensures { option_map (λ n. n.name) (slice_get (in_order self.now.nodes) node)
            ≡ Some result.now }
    {
        self.node(node).name.as_str()
    }

    /// The last segment of the id of the node with this number.
    pub fn segment(&self, node: u32) -> &Segment
        requires { node < length self.now.nodes }
        ensures { option_map (λ n. n.segment) (slice_get (in_order self.now.nodes) node)
            ≡ Some result.now }
    {
        &self.node(node).segment
    }

    /// Whether the node with this number is a container, a test, or both.
    pub fn dtype(&self, node: u32) -> DType
        requires { node < length self.now.nodes }
        ensures { option_map (λ n. n.dtype) (slice_get (in_order self.now.nodes) node)
            ≡ Some result }
    {
        self.node(node).dtype
    }

    /// Why the node with this number is skipped, or `None` where it is not.
    pub fn reason(&self, node: u32) -> Option<&str>
        requires { node < length self.now.nodes }
        ensures { option_map (λ n. n.skip) (slice_get (in_order self.now.nodes) node)
            ≡ Some (option_map (λ r. r.now) result) }
    {
        self.node(node).skip.as_ref().map(|reason| reason.as_str())
    }

    /// The pairs of one of the node's entries, which count from 0.
    pub fn pairs(&self, node: u32, entry: u32) -> &[(Text, Text)]
        requires node { node < length self.now.nodes }
        requires entry { IsSome (entry_of (slice_get (in_order self.now.nodes) node) entry) }
        ensures { entry_of (slice_get (in_order self.now.nodes) node) entry ≡ Some result.now }
    {
        self.node(node).entries.as_slice()[entry as usize].as_slice()
    }

    /// The path of one of the node's files, which count from 0.
    pub fn path(&self, node: u32, file: u32) -> &str
        requires node { node < length self.now.nodes }
        requires file { IsSome (path_of (slice_get (in_order self.now.nodes) node) file) }
        ensures { path_of (slice_get (in_order self.now.nodes) node) file ≡ Some result.now }
    {
        self.node(node).files.as_slice()[file as usize].as_str()
    }

    /// How the node with this number finishes.
    pub fn outcome(&self, node: u32) -> &Outcome
        requires { node < length self.now.nodes }
        ensures { option_map (λ n. n.outcome) (slice_get (in_order self.now.nodes) node)
            ≡ Some result.now }
    {
        &self.node(node).outcome
    }
}

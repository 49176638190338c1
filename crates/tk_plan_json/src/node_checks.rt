//! The checks of a node.
ghost use Rattle.std.specs.Prelude.{◌≡◌, ◌≤◌, ◌++◌, ◌∷◌, [], None, option_map, nat_le};
ghost use Rattle.std.specs.List.{count_by};
ghost use Rattle.serde_json.specs.View.{view};
ghost use Rattle.tk_ids.specs.Answer.{IsMadeOf};
ghost use Rattle.tk_ids.specs.declared.tables.TheConstants.{MAX_DESCRIPTORS};
ghost use Rattle.tk_plan.specs.Keys.{note_locks};
ghost use Rattle.tk_plan.specs.Trees.{contents};
ghost use Rattle.tk_plan_json.specs.Answers.{Reads};
ghost use Rattle.tk_plan_json.specs.Checks.{first};
ghost use Rattle.tk_plan_json.specs.steps.Fields.{HasFields, checked_of, Meets};
ghost use Rattle.tk_plan_json.specs.Verdicts.{id_fault, node_check, is_kind, checks};
ghost use Rattle.tk_plan_json.specs.declared.limits.TheConstants.{MAX_LEVELS};
ghost use Rattle.tk_plan_json.specs.steps.CodeValues.{seen, above_of, json_segment_text, as_plan_fault, IsNamed};
ghost use Rattle.tk_plan_json.specs.Progress.{IsNoted};
ghost use Rattle.tk_plan_json.specs.steps.Progress.{state, addition, IsEntered, IsAdmitted, IsChecked, room_checks};

use crate::faults::PlanFault;
use crate::limits::MAX_LEVELS;
use crate::lock_keys::note_all;
use crate::members::member_values::TwoTexts;
use crate::node_fields::{Fields, dynamic_fields, static_fields};
use crate::node_inputs::NodeInput;
use crate::node_members::NodeMembers;
use crate::read_nodes::{Checked, Named, ReadNodes};
use crate::siblings::Siblings;
use std::alloc::Global;
use tk_ids::{IdFault, Lock, MAX_DESCRIPTORS, Segment, TableFault, UniqueId};
use tk_plan::{MAX_KEYS, Node};

/// Reads the members of a node by its kind.
fn fields_of<'v>(alloc: Global, node_input: NodeInput<'v>) -> Result<Fields<'v>, PlanFault>
    ensures { Reads (node_check (seen [] node_input.entry))
        (HasFields node_input.entry.place.is_static node_input.entry.place.takes_files
        (view node_input.entry.value.now)) result }
{
    let NodeInput { place, value } = node_input;
    let members = NodeMembers::of(value);
    if place.is_static {
        static_fields(alloc, place.path, members, place.takes_files)
    } else {
        dynamic_fields(alloc, place.path, members, place.takes_files)
    }
}

/// The fault of a plan in which an id is refused for this fault.
fn refused(fault: IdFault) -> PlanFault
    ensures { result ≡ as_plan_fault fault }
{
    match fault {
        IdFault::Memory => PlanFault::Memory,
        fault => PlanFault::Id(fault),
    }
}

/// The id of a child of the node with the id `above`, or of the root.
fn id_below(alloc: Global, above: Option<&UniqueId>, segment: &Segment) -> Result<UniqueId, IdFault>
    ensures { IsMadeOf (above_of above.entry ++ segment.now ∷ []) result }
{
    match above {
        Some(id) => id.append(alloc, segment),
        None => UniqueId::of(alloc, segment),
    }
}

/// The segment of these texts, and the id that ends in it.
fn named(alloc: Global, above: Option<&UniqueId>, texts: TwoTexts<'_>) -> Result<Named, PlanFault>
    ensures { Meets (option_map PlanFault.Id
        (id_fault (above_of above.entry) (json_segment_text texts.entry)))
        (IsNamed (above_of above.entry) (json_segment_text texts.entry)) result }
{
    let segment = Segment::new(alloc, texts.first, texts.second).map_err(refused)?;
    let id = id_below(alloc, above, &segment).map_err(refused)?;
    Ok(Named { segment, id })
}

/// Whether `MAX_DESCRIPTORS` nodes of the kind were read.
fn is_full(read: &ReadNodes, is_static: bool) -> bool
    requires { IsNoted read.now }
    ensures { result
        ≡ nat_le MAX_DESCRIPTORS (count_by (is_kind is_static) (contents read.now.nodes.items)) }
{
    let count = if is_static {
        read.descriptors.len()
    } else {
        read.dynamics
    };
    count >= MAX_DESCRIPTORS
}

/// Makes the node that these fields describe, with its id.
fn into_checked(is_static: bool, named: Named, fields: Fields<'_>) -> Checked
    ensures { result ≡ checked_of is_static named fields.entry }
{
    let Fields {
        heading,
        concurrency,
        content,
        is_leaf,
    } = fields;
    let node = Node {
        is_static,
        dtype: heading.dtype,
        segment: named.segment,
        name: heading.name,
        is_concurrent: concurrency.is_concurrent,
        is_isolated: concurrency.is_isolated,
        locks: concurrency.locks,
        skip: content.skip,
        outcome: content.outcome,
        entries: content.reports.entries,
        files: content.files,
    };
    Checked {
        node,
        id: named.id,
        is_leaf,
    }
}

/// Notes a node's segment among its siblings' and its lock keys among the plan's, where there is
/// room for them.
fn note_node(
    alloc: Global,
    read: &mut ReadNodes,
    siblings: &mut Siblings,
    is_static: bool,
    segment: TwoTexts<'_>,
    locks: &[Lock],
) -> Result<(), PlanFault>
    requires { IsNoted read.old }
    ensures { let added = addition is_static (json_segment_text segment.entry)
        (note_locks read.old.keys.keys locks.now) in
        Meets (first (room_checks (contents read.old.nodes.items) siblings.old added))
        (λ _. IsEntered (state read.old siblings.old) (state read.new siblings.new) added)
        result }
{
    if !siblings.insert(alloc, segment)? {
        return Err(PlanFault::Table(TableFault::Twice));
    }
    if is_full(read, is_static) {
        return Err(PlanFault::Table(TableFault::Full));
    }
    note_all(alloc, &mut read.keys, locks)?;
    if read.keys.len() > MAX_KEYS {
        return Err(PlanFault::TooManyResources);
    }
    Ok(())
}

/// Checks what a node's members say, given the nodes before it, and notes its segment and its lock
/// keys. Answers its segment and its id.
fn check_fields(
    alloc: Global,
    read: &mut ReadNodes,
    siblings: &mut Siblings,
    node_input: NodeInput<'_>,
    fields: &Fields<'_>,
) -> Result<Named, PlanFault>
    requires noted { IsNoted read.old }
    requires level { node_input.place.level ≤ MAX_LEVELS }
    requires members { node_check (seen siblings.old node_input) ≡ None }
    requires fields { HasFields node_input.place.is_static node_input.place.takes_files
        (view node_input.value.now) fields.now }
    ensures { let s = seen siblings.old node_input.entry in
        Meets (first (checks (contents read.old.nodes.items) s))
        (IsAdmitted (state read.old siblings.old) (state read.new siblings.new) s) result }
{
    if fields.content.reports.repeats {
        return Err(PlanFault::EntryKeyTwice);
    }
    let named = named(alloc, node_input.place.above, fields.heading.segment)?;
    note_node(
        alloc,
        read,
        siblings,
        node_input.place.is_static,
        fields.heading.segment,
        fields.concurrency.locks.as_slice(),
    )?;
    Ok(named)
}

/// Checks one node, given the nodes before it, and notes its segment and its lock keys.
pub(crate) fn check_node(
    alloc: Global,
    read: &mut ReadNodes,
    siblings: &mut Siblings,
    node_input: NodeInput<'_>,
) -> Result<Checked, PlanFault>
    requires { IsNoted read.old }
    ensures { let s = seen siblings.old node_input.entry in
        Meets (first (checks (contents read.old.nodes.items) s))
        (IsChecked (state read.old siblings.old) (state read.new siblings.new) s) result }
{
    if node_input.place.level > MAX_LEVELS {
        return Err(PlanFault::Deep);
    }
    let fields = fields_of(alloc, node_input)?;
    let named = check_fields(alloc, read, siblings, node_input, &fields)?;
    Ok(into_checked(node_input.place.is_static, named, fields))
}

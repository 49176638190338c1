//! Laws of plans, which hold of the definitions alone.
ghost use Rattle.std.specs.Prelude.{◌≡◌};
ghost use Rattle.tk_plan.specs.declared.units.needs.TheConstants.{MAX_KEYS};
ghost use Rattle.tk_plan.specs.Laws.{LosesNothing, KeepsStamps, SpineEventsAreSteps, FindsNodes, HasKeys};

/// Cutting loses nothing and adds nothing: the parts into which a tree is cut, one after another,
/// are what the tree does.
pub fn loses_nothing()
    ensures { LosesNothing }
{}

/// The parts of a root, with stamps that count on from part to part, are the root's script.
pub fn keeps_stamps()
    ensures { KeepsStamps }
{}

/// What a node of the spine emits before its children and after them are its steps.
pub fn spine_events_are_steps()
    ensures { SpineEventsAreSteps }
{}

/// The node of number k is item k of the static nodes and then the others, each in preorder.
pub fn finds_nodes()
    ensures { FindsNodes }
{}

/// A static node's number is the key of its descriptor in the table, and no other node's id is in
/// the table.
pub fn has_keys()
    ensures { HasKeys }
{}

/// A plan has at most 15 lock keys besides `global`.
pub fn limits()
    ensures { MAX_KEYS ≡ 15 }
{}

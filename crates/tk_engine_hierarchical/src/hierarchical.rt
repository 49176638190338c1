//! How a unit runs the tree of its nodes.
ghost use Rattle.std.specs.Prelude.{◌≡◌, ◌⊎◌, ◌<◌, All, Err, IsTrue, None, OnOk, is_some, length};
ghost use Rattle.tk_engine_execute.specs.declared.engines.UnitFault.{UnitFault};
ghost use Rattle.tk_engine_execute.specs.declared.engines.UnitFault.TheVariants.{Own};
ghost use Rattle.tk_engine_execute.specs.Engines.{Extends, IsSameSender};
ghost use Rattle.tk_events.specs.declared.events.Event.{Event};
ghost use Rattle.tk_plan.specs.Cutting.{units_of};
ghost use Rattle.tk_plan.specs.Trees.{IsForest, forest, tree_of};
ghost use Rattle.tk_engine_unit_events.specs.Shapes.{count_units, frame, keys_in};
ghost use Rattle.tk_engine_unit_events.specs.Standing.{IsComplete};
ghost use Rattle.tk_engine_hierarchical.specs.StaticSteps.{FitsPlan};
ghost use Rattle.tk_engine_hierarchical.specs.steps.{MayRun};
ghost use Rattle.tk_engine_hierarchical.specs.TreeRuns.{RunsForest, RunsNode, RunsTree, RunsUnitTree, test_rules};

use crate::clocks::EventClock;
use crate::planned_units::PlannedUnit;
use crate::tests::Tests;
use std::alloc::Global;
use std::sync::Wait;
use tk_engine_execute::{OUT_OF_ORDER, Sink, UnitFault};
use tk_engine_unit_events::{Lease, Shape, UnitEvents, UnitRun};
use tk_plan::{NumberedNode, Plan};

// Runs a node that isn't skipped, and what stands below it, from its start to its finish.
#[cycle(running)]
fn run_started<R: Wait, S: Sink, K: UnitRun, T: Tests, C: EventClock>(
    rt: &R,
    alloc: Global,
    tests: &T,
    numbered_node: &NumberedNode,
    below: &[NumberedNode],
    unit: &mut PlannedUnit<'_, S, K, C>,
) -> Result<(), UnitFault>
    requires below { IsForest below.now }
    requires runs { numbered_node.now.node.skip ≡ None }
    requires may { MayRun K.unit (T.may_end tests.now) numbered_node.now }
    requires may_below { All (MayRun K.unit (T.may_end tests.now)) below.now }
    ensures { OnOk result (RunsNode K.unit.frame.table (T.may_run tests.now)
        numbered_node.now.node numbered_node.now.number
        (RunsForest K.unit.frame.table (T.may_run tests.now) (forest below.now))
        unit.old unit.new) }
{
    let node = &numbered_node.node;
    let key = unit.start(rt, alloc, numbered_node)?;
    let ended = unit.run_body(rt, alloc, tests, key)?;
    unit.publish(rt, alloc, key, node)?;
    run_all(rt, alloc, tests, below, unit)?;
    unit.finish(rt, key, node, ended)
}

// Runs the trees that some nodes in preorder are, one after another.
#[cycle(running)]
fn run_all<R: Wait, S: Sink, K: UnitRun, T: Tests, C: EventClock>(
    rt: &R,
    alloc: Global,
    tests: &T,
    nodes: &[NumberedNode],
    unit: &mut PlannedUnit<'_, S, K, C>,
) -> Result<(), UnitFault>
    requires nodes { IsForest nodes.now }
    requires may { All (MayRun K.unit (T.may_end tests.now)) nodes.now }
    ensures { OnOk result (RunsForest K.unit.frame.table (T.may_run tests.now) (forest nodes.now)
        unit.old unit.new) }
{
    let mut rest = nodes;
    while let [numbered_node, after @ ..] = rest {
        let (below, others) = numbered_node.split(after);
        run_tree(rt, alloc, tests, numbered_node, below, unit)?;
        rest = others;
    }
    Ok(())
}

// Runs or skips a node, and what stands below it.
#[cycle(running)]
fn run_tree<R: Wait, S: Sink, K: UnitRun, T: Tests, C: EventClock>(
    rt: &R,
    alloc: Global,
    tests: &T,
    numbered_node: &NumberedNode,
    below: &[NumberedNode],
    unit: &mut PlannedUnit<'_, S, K, C>,
) -> Result<(), UnitFault>
    requires below { IsForest below.now }
    requires may { MayRun K.unit (T.may_end tests.now) numbered_node.now }
    requires may_below { All (MayRun K.unit (T.may_end tests.now)) below.now }
    ensures { OnOk result (RunsTree K.unit.frame.table (T.may_run tests.now)
        (tree_of numbered_node.now below.now) unit.old unit.new) }
{
    match &numbered_node.node.skip {
        Some(reason) => unit.skip(rt, alloc, numbered_node, reason),
        None => run_started(rt, alloc, tests, numbered_node, below, unit),
    }
}

// Answers the fault at which the unit stopped, or `OUT_OF_ORDER` where it isn't complete.
fn unit_result(played: Result<(), UnitFault>, is_complete: bool) -> Result<(), UnitFault>
    ensures complete { OnOk result (IsTrue is_complete) }
    ensures fault { (why : UnitFault) → played ≡ Err why → result ≡ Err why }
    ensures own { (why : UnitFault) → result ≡ Err why
        → (played ≡ Err why) ⊎ (why ≡ Own OUT_OF_ORDER) }
{
    played?;
    if is_complete {
        Ok(())
    } else {
        Err(UnitFault::Own(OUT_OF_ORDER))
    }
}

// Runs a unit into a sink that is lent, and gives the sink back. How the unit ended is left in
// `ran`: in a pair with it the proof would lose that the sink is the one that was lent.
pub(crate) fn run_unit<'a, R: Wait, S: Sink, K: UnitRun, T: Tests, C: EventClock>(
    rt: &R,
    alloc: Global,
    tests: &T,
    clock: Option<&'a C>,
    shape: &'a Shape,
    unit: u32,
    lease: Lease<'a, S>,
    ran: &mut Result<(), UnitFault>,
) -> Lease<'a, S>
    requires script { unit < length (units_of (forest shape.now.plan.nodes)) }
    requires name { lease.sink.ghost_name ≡ K.name }
    requires start { S.view lease.sink.now ≡ K.unit.start }
    requires since { K.since ≡ K.unit.start }
    requires frame { frame shape.now ≡ K.unit.frame }
    requires keys { keys_in shape.now unit ≡ K.unit.keys }
    requires may { (e : Event) → FitsPlan shape.now.plan (T.may_end tests.now) e
        → K.unit.may_step e }
    requires is_unit { unit < count_units shape.now }
    requires table { K.unit.start.table ≡ K.unit.frame.table }
    ensures name { result.sink.ghost_name ≡ K.name }
    ensures same { IsSameSender K.unit.start (S.view result.sink.now) }
    ensures some { Extends K.unit.start (S.view result.sink.now) }
    ensures run { OnOk ran.new
        (IsComplete K.unit (S.view result.sink.now)) }
    ensures tree { OnOk ran.new (RunsUnitTree shape.now.plan
        (test_rules (is_some clock.entry) (T.may_end tests.now) (T.may_run tests.now)) unit
        K.unit.start (S.view result.sink.now)) }
{
    let plan = shape.plan();
    // For the proof: what every plan is.
    let _table = plan.table();
    let tree = plan.unit_tree(unit);
    let mut planned: PlannedUnit<'a, S, K, C> = PlannedUnit {
        events: UnitEvents::begin(alloc, lease, shape, unit),
        next: tree.first,
        clock,
    };
    let played = run_tree(rt, alloc, tests, tree.top, tree.below, &mut planned);
    let PlannedUnit { events, .. } = planned;
    let (lease, is_complete) = events.end();
    *ran = unit_result(played, is_complete);
    lease
}

//! The numbers of bodies: which static node has which one, and which numbers are refused.
use std::alloc::{AllocError, Global};
use tk_ids::{LockMode, UniqueId};
use tk_plan::Plan;
use tk_plan_nodes::{ExecutionMode, PlanNode};
use tk_plan_reading::build_plan;

type Node = Result<PlanNode<'static>, AllocError>;

// A test with the number of its body.
fn numbered(alloc: Global, value: &'static str, body: u32) -> PlanNode<'static> {
    PlanNode::test(alloc, ("t", value), value).body(body)
}

// The root, with these nodes below it.
fn rooted(alloc: Global, nodes: Vec<PlanNode<'static>>) -> Node {
    PlanNode::container(alloc, ("engine", "e"), "e").children(nodes)
}

/// A plan whose nodes have numbers of bodies that are not in their order.
pub fn with_bodies(alloc: Global) -> Node {
    let tests = vec![in alloc; numbered(alloc, "1", 8), numbered(alloc, "2", 3)]?;
    let a = PlanNode::container(alloc, ("class", "A"), "A")
        .children(tests)?
        .dynamic(PlanNode::test(alloc, ("t", "3"), "3"))?;
    let b = PlanNode::container_and_test(alloc, ("class", "B"), "B").body(0);
    rooted(alloc, vec![in alloc; a, b]?)
}

// The key of the static node with this id.
fn key_of(alloc: Global, plan: &Plan, id: &str) -> Option<u32> {
    match UniqueId::read(alloc, id) {
        Ok(id) => plan.table().find(&id),
        Err(_) => None,
    }
}

// The number of the body of the node with this id; nothing where there is no plan.
fn body_of(alloc: Global, id: &str) -> Option<Option<u32>> {
    let root = with_bodies(alloc).ok()?;
    let bodies = root.bodies(alloc).ok()?;
    let plan = build_plan(alloc, &root).ok()?;
    Some(key_of(alloc, &plan, id).and_then(|key| bodies.at(key)))
}

#[test]
fn bodies_of_nodes(rt: HostRuntime) {
    for (id, body) in [
        ("[engine:e]/[class:A]", None),
        ("[engine:e]/[class:A]/[t:1]", Some(8)),
        ("[engine:e]/[class:A]/[t:2]", Some(3)),
        ("[engine:e]/[class:B]", Some(0)),
    ] {
        assert!(rt; body_of(rt.alloc(), id) == Some(body), "{id}");
    }
}

// A node with a number of a body, below the root.
fn case(alloc: Global, number: usize) -> Node {
    let node = match number {
        0 => PlanNode::container(alloc, ("b", "1"), "b")
            .body(1)
            .mode(ExecutionMode::Concurrent),
        1 => PlanNode::container(alloc, ("c", "1"), "c").dynamic(numbered(alloc, "1", 1))?,
        2 => PlanNode::container(alloc, ("c", "1"), "c")
            .child(numbered(alloc, "1", 1))?
            .child(PlanNode::test(alloc, ("t", "2"), "2"))?,
        _ => PlanNode::container(alloc, ("c", "1"), "c")
            .child(numbered(alloc, "1", 1))?
            .child(PlanNode::test(alloc, ("t", "2"), "2").skip("off"))?,
    };
    rooted(alloc, vec![in alloc; node]?)
}

// What is said of the bodies of a case.
fn said(alloc: Global, number: usize) -> Result<String, AllocError> {
    match case(alloc, number)?.bodies(alloc) {
        Ok(_) => String::from_str(alloc, "taken"),
        Err(fault) => format!(in alloc; "{fault}"),
    }
}

#[test]
fn bodies_never_called_and_none(rt: HostRuntime) {
    for (number, expected) in [
        "body of [engine:e]/[b:1] is never called",
        "body of [engine:e]/[c:1]/[t:1] is never called",
        "no body for [engine:e]/[c:1]/[t:2]",
        "taken",
    ]
    .iter()
    .enumerate()
    {
        let found = said(rt.alloc(), number);
        assert!(rt;
            matches!(&found, Ok(text) if text.as_str() == *expected),
            "{number}"
        );
    }
}

// A concurrent container and test with a concurrent child; both have a number.
fn with_child(alloc: Global) -> Node {
    let child = numbered(alloc, "1", 1).mode(ExecutionMode::Concurrent);
    PlanNode::container_and_test(alloc, ("b", "1"), "b")
        .mode(ExecutionMode::Concurrent)
        .body(3)
        .child(child)
}

// The root, and below it that container: on the spine, or in a unit for one reason.
fn near_spine(alloc: Global, number: usize) -> Node {
    let node = with_child(alloc)?;
    let node = match number {
        0 => node,
        1 => node.mode(ExecutionMode::SameThread),
        2 => node.isolated(),
        3 => node.skip("off"),
        4 => node.lock("db", LockMode::Read)?,
        5 => node.dynamic(PlanNode::test(alloc, ("t", "2"), "2"))?,
        _ => node.child(numbered(alloc, "2", 2))?,
    };
    rooted(alloc, vec![in alloc; node]?)
}

// Whether the container's body is taken, and whether the plan has the container in a unit.
fn taken_and_in_unit(alloc: Global, number: usize) -> Option<(bool, bool)> {
    let root = near_spine(alloc, number).ok()?;
    let plan = build_plan(alloc, &root).ok()?;
    let key = key_of(alloc, &plan, "[engine:e]/[b:1]")?;
    Some((root.bodies(alloc).is_ok(), !plan.spine().contains(&key)))
}

/// `bodies` cuts a tree as `build_plan` does.
#[test]
fn bodies_of_units(rt: HostRuntime) {
    for number in 0..7 {
        let is_in_unit = number > 0;
        let found = taken_and_in_unit(rt.alloc(), number);
        assert!(rt; found == Some((is_in_unit, is_in_unit)), "{number}");
    }
}

//! The node that a fault of a plan in code names: the first one in preorder that has a fault.
use crate::answers::is_refused;
use std::alloc::{AllocError, Global};
use tk_plan_nodes::{ExecutionMode, PlanNode};

type Node = Result<PlanNode<'static>, AllocError>;

fn root(alloc: Global) -> PlanNode<'static> {
    PlanNode::container(alloc, ("engine", "e"), "e")
}

fn test(alloc: Global, value: &'static str) -> PlanNode<'static> {
    PlanNode::test(alloc, ("t", value), "t")
}

// A class with one test.
fn class(alloc: Global, name: &'static str, below: PlanNode<'static>) -> Node {
    PlanNode::container(alloc, ("class", name), name).child(below)
}

// A test without a value.
fn without_id(alloc: Global) -> Node {
    root(alloc).child(PlanNode::test(alloc, ("%+[a]:\u{e9}/", ""), "t"))
}

// The second of three tests has a file without a path, and the third has a fault too.
fn with_empty_path(alloc: Global) -> Node {
    let second = test(alloc, "2").file("")?;
    root(alloc)
        .child(test(alloc, "1"))?
        .child(second)?
        .child(test(alloc, ""))
}

// The test of the second class has a key twice.
fn with_key_twice(alloc: Global) -> Node {
    let pairs = vec![in alloc; ("k", "1"), ("k", "2")]?;
    let second = class(alloc, "B", test(alloc, "1").entry(pairs)?)?;
    let first = class(alloc, "A", test(alloc, "1"))?;
    root(alloc).child(first)?.child(second)
}

// A dynamic node has a mode. It stands after all static nodes.
fn with_mode(alloc: Global) -> Node {
    root(alloc)
        .dynamic(test(alloc, "d").mode(ExecutionMode::Concurrent))?
        .child(class(alloc, "A", test(alloc, "1"))?)
}

/// The id is written with its escapes, also where it is refused.
#[test]
fn the_first_node_with_a_fault(rt: HostRuntime) -> Result<(), AllocError> {
    let alloc = rt.alloc();
    let id = "plan id is bad, at node [engine:e]/[%25%2B%5Ba%5D%3A\u{e9}%2F:]";
    assert!(rt; is_refused(alloc, without_id(alloc), id)?);
    let path = "plan member /root/children/1/files/0 is bad, at node [engine:e]/[t:2]";
    assert!(rt; is_refused(alloc, with_empty_path(alloc), path)?);
    let twice = "entry key twice, at node [engine:e]/[class:B]/[t:1]";
    assert!(rt; is_refused(alloc, with_key_twice(alloc), twice)?);
    let mode = "plan member /root/dynamic/0/mode is bad, at node [engine:e]/[t:d]";
    assert!(rt; is_refused(alloc, with_mode(alloc), mode)?);
    Ok(())
}

//! Plans in code say what the same plans in JSON say.
use crate::shown_plans::shown;
use std::alloc::{AllocError, Global};
use tk_events::Outcome;
use tk_ids::LockMode;
use tk_plan_json::PlanFault;
use tk_plan_nodes::{ExecutionMode, PlanNode};
use tk_plan_reading::{build_plan, read_plan};

type Node = Result<PlanNode<'static>, AllocError>;

// Each member, with values other than those of a plan that lacks it.
fn each_member_in_json() -> &'static str {
    "{\"version\":2,\"root\":{\"type\":\"both\",\"segment\":[\"engine\",\"e\"],\"name\":\"all\",\"entries\":[[[\"k\",\"v\"],[\"a\",\"b\"]],[]],
\"files\":[\"out/a\",\"out/b\"],\"result\":{\"status\":\"aborted\",\"message\":\"m\"},\"children\":[
 {\"type\":\"container\",\"segment\":[\"c\",\"1\"],\"name\":\"one\",\"mode\":\"concurrent\",\"isolated\":true,\"result\":{\"status\":\"failed\"},
  \"locks\":[{\"key\":\"db\",\"mode\":\"read\"},{\"key\":\"net\",\"mode\":\"read_write\"},{\"key\":\"global\",\"mode\":\"read\"}],
  \"children\":[{\"type\":\"test\",\"segment\":[\"t\",\"1\"],\"name\":\"first\",\"mode\":\"same_thread\"},{\"type\":\"test\",\"segment\":[\"t\",\"2\"],\"name\":\"second\",\"skip\":\"off\"}],
  \"dynamic\":[{\"type\":\"container\",\"segment\":[\"d\",\"1\"],\"name\":\"third\",\"dynamic\":[
   {\"type\":\"test\",\"segment\":[\"d\",\"2\"],\"name\":\"fourth\",\"skip\":\"\",\"entries\":[[[\"x\",\"y\"]]]}]}]},
 {\"type\":\"test\",\"segment\":[\"c\",\"2\"],\"name\":\"two\",\"mode\":\"concurrent\",\"result\":{\"status\":\"failed\",\"message\":\"boom\"}}]}}"
}

// A dynamic node that is skipped.
fn fourth(alloc: Global) -> Node {
    let pairs = vec![in alloc; ("x", "y")]?;
    PlanNode::test(alloc, ("d", "2"), "fourth")
        .skip("")
        .entry(pairs)
}

// A dynamic node with one below it. It may have the mode of a node without one.
fn third(alloc: Global) -> Node {
    let fourth = fourth(alloc)?;
    PlanNode::container(alloc, ("d", "1"), "third")
        .mode(ExecutionMode::SameThread)
        .dynamic(fourth)
}

fn with_locks(alloc: Global) -> Node {
    PlanNode::container(alloc, ("c", "1"), "one")
        .mode(ExecutionMode::Concurrent)
        .isolated()
        .outcome(Outcome::Failed(None))
        .lock("db", LockMode::Read)?
        .lock("net", LockMode::ReadWrite)?
        .lock("global", LockMode::Read)
}

fn one(alloc: Global) -> Node {
    let third = third(alloc)?;
    with_locks(alloc)?
        .child(PlanNode::test(alloc, ("t", "1"), "first"))?
        .child(PlanNode::test(alloc, ("t", "2"), "second").skip("off"))?
        .dynamic(third)
}

fn two(alloc: Global) -> Node {
    let outcome = Outcome::failed(alloc, "boom")?;
    Ok(
        PlanNode::test(alloc, ("c", "2"), "two")
            .mode(ExecutionMode::Concurrent)
            .outcome(outcome),
    )
}

fn with_entries(alloc: Global) -> Node {
    let outcome = Outcome::aborted(alloc, "m")?;
    let pairs = vec![in alloc; ("k", "v"), ("a", "b")]?;
    PlanNode::container_and_test(alloc, ("engine", "e"), "all")
        .outcome(outcome)
        .entry(pairs)?
        .entry(Vec::new(alloc))?
        .file("out/a")?
        .file("out/b")
}

/// The plan with each member.
pub fn each_member(alloc: Global) -> Node {
    let one = one(alloc)?;
    let root = with_entries(alloc)?.child(one)?;
    root.child(two(alloc)?)
}

// Whether the plan in code says what the plan of the text says.
fn is_plan_of(alloc: Global, root: &PlanNode<'_>, text: &str) -> Result<bool, PlanFault> {
    let Ok(built) = build_plan(alloc, root) else {
        return Ok(false);
    };
    let read = read_plan(alloc, text.as_bytes())?;
    Ok(shown(alloc, &built)? == shown(alloc, &read)?)
}

#[test]
fn a_plan_with_each_member(rt: HostRuntime) -> Result<(), PlanFault> {
    let root = each_member(rt.alloc())?;
    assert!(rt; is_plan_of(rt.alloc(), &root, each_member_in_json())?);
    Ok(())
}

// How many static nodes a plan has whose text stands after more than 16 MiB of spaces.
fn nodes_of_long_text(alloc: Global) -> Result<usize, PlanFault> {
    let mut text = Vec::from_elem(alloc, b' ', 17_000_000)?;
    text.extend_from_slice(each_member_in_json().as_bytes())?;
    let plan = read_plan(alloc, text.as_slice())?;
    Ok(plan.table().len())
}

/// The limit of 16 MiB is the program's: a text may be longer here.
#[test]
fn more_than_16_mib(rt: HostRuntime) {
    assert!(rt; matches!(nodes_of_long_text(rt.alloc()), Ok(5)));
}

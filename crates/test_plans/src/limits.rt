//! Plans in code at their limits, and one beyond.
use crate::answers::{is_plan, is_refused};
use std::alloc::{AllocError, Global};
use tk_ids::LockMode;
use tk_plan_nodes::PlanNode;

// A test at the bottom of a chain of nodes, `levels` levels in all.
fn chain(alloc: Global, levels: u32) -> Result<PlanNode<'static>, AllocError> {
    let mut node = PlanNode::test(alloc, ("t", "t"), "t");
    for _ in 1..levels {
        node = PlanNode::container(alloc, ("c", "c"), "c").child(node)?;
    }
    Ok(node)
}

#[test]
fn levels(rt: HostRuntime) -> Result<(), AllocError> {
    let alloc = rt.alloc();
    assert!(rt; is_plan(alloc, chain(alloc, 60))?);
    let above = "[c:c]/".repeat(alloc, 60)?;
    let deep = format!(in alloc; "plan too deep, at node {above}[t:t]")?;
    assert!(rt; is_refused(alloc, chain(alloc, 61), deep.as_str())?);
    Ok(())
}

fn numbers(alloc: Global, count: u32) -> Result<Vec<String>, AllocError> {
    let mut texts = Vec::new(alloc);
    for number in 0..count {
        texts.push(format!(in alloc; "{number}")?)?;
    }
    Ok(texts)
}

// A root with a static test for each of these values, or a dynamic one.
fn wide<'t>(
    alloc: Global,
    values: &'t [String],
    is_static: bool,
) -> Result<PlanNode<'t>, AllocError> {
    let mut root = PlanNode::container(alloc, ("engine", "e"), "e");
    for value in values {
        let test = PlanNode::test(alloc, ("t", value.as_str()), "t");
        root = if is_static {
            root.child(test)?
        } else {
            root.dynamic(test)?
        };
    }
    Ok(root)
}

// Whether a root may have tests with all of these values but the last one below it, and no more.
fn is_one_too_many(alloc: Global, values: &[String], is_static: bool) -> Result<bool, AllocError> {
    let Some((last, most)) = values.split_last() else {
        return Ok(false);
    };
    let full = format!(in alloc; "plan table is refused, at node [engine:e]/[t:{last}]")?;
    Ok(
        is_plan(alloc, wide(alloc, most, is_static))?
            && is_refused(alloc, wide(alloc, values, is_static), full.as_str())?,
    )
}

// The root is static too.
#[test]
fn static_nodes(rt: HostRuntime) -> Result<(), AllocError> {
    let values = numbers(rt.alloc(), 65_536)?;
    assert!(rt; is_one_too_many(rt.alloc(), values.as_slice(), true)?);
    Ok(())
}

#[test]
fn dynamic_nodes(rt: HostRuntime) -> Result<(), AllocError> {
    let values = numbers(rt.alloc(), 65_537)?;
    assert!(rt; is_one_too_many(rt.alloc(), values.as_slice(), false)?);
    Ok(())
}

// A test with a lock of each of these keys, and of `global`.
fn locked(alloc: Global, keys: &[&'static str]) -> Result<PlanNode<'static>, AllocError> {
    let mut root = PlanNode::test(alloc, ("engine", "e"), "e").lock("global", LockMode::Read)?;
    for key in keys {
        root = root.lock(*key, LockMode::ReadWrite)?;
    }
    Ok(root)
}

#[test]
fn resources(rt: HostRuntime) -> Result<(), AllocError> {
    let alloc = rt.alloc();
    let keys = [
        "1", "2", "3", "4", "5", "6", "7", "8", "9", "10", "11", "12", "13", "14", "15", "16",
    ];
    assert!(rt; is_plan(alloc, locked(alloc, &keys[..15]))?);
    let many = "too many resources, at node [engine:e]";
    assert!(rt; is_refused(alloc, locked(alloc, &keys), many)?);
    Ok(())
}

// A test that publishes `count` entries without pairs.
fn publishing(alloc: Global, count: u32) -> Result<PlanNode<'static>, AllocError> {
    let mut root = PlanNode::test(alloc, ("engine", "e"), "e");
    for _ in 0..count {
        root = root.entry(Vec::new(alloc))?;
    }
    Ok(root)
}

#[test]
fn events(rt: HostRuntime) -> Result<(), AllocError> {
    let alloc = rt.alloc();
    assert!(rt; is_plan(alloc, publishing(alloc, 1_048_574))?);
    assert!(rt; is_refused(alloc, publishing(alloc, 1_048_575), "too many events")?);
    Ok(())
}

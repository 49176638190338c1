//! Building the plan with each member, and listing the bodies of a plan, with ample memory and
//! with any one request for memory refused. What is refused is asked once more, and then it has to
//! succeed.
use crate::bodies::with_bodies;
use crate::plans::each_member;
use std::alloc::Global;
use tk_plan_json::PlanFault;
use tk_plan_nodes::BodiesFault;
use tk_plan_reading::{BuildFault, build_plan};

// Whether the plan was built, where memory was not refused.
fn built(alloc: Global) -> Result<bool, BuildFault> {
    let root = each_member(alloc)?;
    let plan = build_plan(alloc, &root)?;
    Ok(plan.total_events() == 18)
}

#[test]
fn a_plan_in_code(rt: HostRuntime) {
    let first = built(rt.alloc());
    assert!(rt;
        match &first {
            Ok(has_all) => *has_all,
            Err(why) => matches!(why.fault, PlanFault::Memory) && why.node.is_none(),
        }
    );
    if first.is_err() {
        assert!(rt; matches!(built(rt.alloc()), Ok(true)));
    }
    drop(first);
}

// Whether the bodies were listed, where memory was not refused.
fn listed(alloc: Global) -> Result<bool, BodiesFault> {
    let root = with_bodies(alloc)?;
    let bodies = root.bodies(alloc)?;
    Ok(bodies.at(0).is_none())
}

#[test]
fn bodies_of_a_plan_in_code(rt: HostRuntime) {
    let first = listed(rt.alloc());
    assert!(rt; matches!(&first, Ok(true) | Err(BodiesFault::Memory)));
    if first.is_err() {
        assert!(rt; matches!(listed(rt.alloc()), Ok(true)));
    }
    drop(first);
}

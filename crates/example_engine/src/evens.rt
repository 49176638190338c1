//! An engine of two tests: are the numbers 4 and 5 even?
use engine_testkit::{
    BuildFault, Context, Hierarchical, Outcome, PlanNode, Reporter, Tests, UnitFault, build_plan,
};
use std::alloc::Global;

/// Its tests `[engine:even]/[number:4]` and `[engine:even]/[number:5]`.
#[derive(Drop)]
pub struct EvenNumbers;

impl Tests for EvenNumbers {
    // The root has the key 0, and its tests have the next ones.
    fn run<C: Context>(&self, key: u32, test: &mut Reporter<C>) -> Result<Outcome, UnitFault> {
        let number = if key == 1 { 4 } else { 5 };
        if number % 2 == 0 {
            return Ok(Outcome::Successful);
        }
        Ok(Outcome::failed(test.alloc(), "odd")?)
    }
}

/// Makes the engine.
pub fn even_numbers(alloc: Global) -> Result<Hierarchical<EvenNumbers>, BuildFault> {
    let four = PlanNode::test(alloc, ("number", "4"), "four");
    let five = PlanNode::test(alloc, ("number", "5"), "five");
    let root = PlanNode::container(alloc, ("engine", "even"), "even");
    let plan = build_plan(alloc, &root.child(four)?.child(five)?)?;
    Ok(Hierarchical::new(alloc, plan, EvenNumbers)?)
}

//! The engine of tables of cases: a test for each table, with a dynamic test for each case.
ghost use Rattle.std.specs.Prelude.{◌≡◌, ◌↔◌, IfOk};
ghost use Rattle.engine_testkit.specs.Outcome.TheVariants.{Successful};

use crate::cases::{Case, CaseTable, Function, failure_of};
use engine_testkit::{
    Body, BuildFault, Context, ExecutionMode, Hierarchical, LockMode, Outcome, PlanNode, Reporter,
    Tests, UnitFault, build_plan,
};
use std::alloc::{AllocError, Global};

// A success exactly where the function has the value that the case expects.
fn outcome_of<F: Function>(alloc: Global, function: &F, case: Case) -> Result<Outcome, AllocError>
    ensures { IfOk result (λ outcome.
        (outcome ≡ Successful) ↔ (F.value function.now case.argument ≡ case.expected)) }
{
    let actual = function.value(case.argument);
    if actual == case.expected {
        return Ok(Outcome::Successful);
    }
    let message = failure_of(alloc, case.expected, actual)?;
    Outcome::failed(alloc, message.as_str())
}

// A case as the body of a dynamic test.
#[derive(Drop)]
struct CaseBody<'a, F> {
    function: &'a F,
    case: Case,
}

impl<F: Function> Body for CaseBody<'_, F> {
    ghost use Rattle.std.specs.Prelude.{◌≡◌, ◌↔◌};
    ghost use Rattle.engine_testkit.specs.Outcome.TheVariants.{Successful};

    ghost may_end = { λ body outcome. (outcome ≡ Successful)
        ↔ (F.value body.function.now body.case.argument ≡ body.case.expected) };

    fn run<C: Context>(&self, test: &mut Reporter<C>) -> Result<Outcome, UnitFault> {
        Ok(outcome_of(test.alloc(), self.function, self.case)?)
    }
}

// Runs each case as a dynamic test.
fn run_cases<F: Function, C: Context>(
    function: &F,
    cases: &[Case],
    test: &mut Reporter<C>,
) -> Result<(), UnitFault> {
    for (index, case) in cases.iter().enumerate() {
        let number = format!(in test.alloc(); "{index}")?;
        let case = *case;
        let body = CaseBody { function, case };
        test.dynamic_test(("case", number.as_str()), number.as_str(), &body)?;
    }
    Ok(())
}

// Publishes how many cases a table has, and where its log lies.
fn publish<C: Context>(table: &CaseTable, test: &mut Reporter<C>) -> Result<(), UnitFault> {
    let (alloc, name, cases) = (test.alloc(), table.name, table.cases.len());
    test.report("cases", format!(in alloc; "{cases}")?.as_str())?;
    test.file(format!(in alloc; "out/{name}.txt")?.as_str())
}

/// Tables of cases of a function.
#[derive(Drop)]
pub struct CaseTests<'a, F> {
    function: &'a F,
    tables: &'a [CaseTable<'a>],
}

impl<F: Function> Tests for CaseTests<'_, F> {
    // Runs the cases of a table. The tables have the keys from 1, after the root.
    fn run<C: Context>(&self, key: u32, test: &mut Reporter<C>) -> Result<Outcome, UnitFault> {
        let Some(table) = self.tables.get(key.wrapping_sub(1) as usize) else {
            return Err(UnitFault::Text("no table has the test's key"));
        };
        run_cases(self.function, table.cases, test)?;
        publish(table, test)?;
        Ok(Outcome::Successful)
    }
}

// A table as a node of the plan: beside other tables, save those that lock the same.
fn node_of<'t>(
    alloc: Global,
    table: CaseTable<'t>,
    lock: &'t str,
) -> Result<PlanNode<'t>, AllocError> {
    let mut node = PlanNode::container_and_test(alloc, ("table", table.name), table.name).mode(
        ExecutionMode::Concurrent,
    );
    if let Some(reason) = table.disabled {
        node = node.skip(reason);
    }
    node.lock(lock, LockMode::ReadWrite)
}

/// Makes an engine that runs each table under the lock with this key.
///
/// # Errors
/// A fault of the plan: a table's name is empty, too long or that of another table, there are
/// 65,536 tables, or memory is refused.
pub fn case_engine<'a, F: Function>(
    alloc: Global,
    function: &'a F,
    tables: &'a [CaseTable<'a>],
    lock: &'a str,
) -> Result<Hierarchical<CaseTests<'a, F>>, BuildFault> {
    let mut root = PlanNode::container(alloc, ("engine", "cases"), "cases");
    for table in tables {
        root = root.child(node_of(alloc, *table, lock)?)?;
    }
    let plan = build_plan(alloc, &root)?;
    Ok(Hierarchical::new(alloc, plan, CaseTests { function, tables })?)
}

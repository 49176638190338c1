//! What an author writes: tests, and the bodies of dynamic ones.
ghost use Rattle.std.specs.Prelude.{◌≡◌, IfErr, IfOk};

use crate::contexts::Context;
use crate::reporters::Reporter;
use tk_engine_execute::UnitFault;
use tk_events::Outcome;

/// The tests of an engine: what each static test of its plan does.
///
/// `may_end` says which outcomes a test may have, `may_run` how its body may run: from which state
/// of the unit to which other one, with which outcome, and `may_fail` how it may fail: from which
/// state to which, with which fault. An author who leaves them out promises nothing.
/// JUnit: the bodies of a `HierarchicalTestEngine`'s nodes.
pub trait Tests {
    ghost use Rattle.std.specs.Prelude.{ℕ, IfErr, IfOk};
    ghost use Rattle.tk_engine_unit_events.specs.UnitSteps.{BodyFails, BodyRuns};
    ghost use Rattle.tk_events.specs.declared.outcomes.Outcome.{Outcome};

    ghost may_end: { Self → ℕ → Outcome → Type 0 } = { λ tests key outcome. Unit {0} };

    ghost may_run: { Self → ℕ → BodyRuns } = { λ tests key before after outcome. Unit {0} };

    ghost may_fail: { Self → ℕ → BodyFails } = { λ tests key before after why. Unit {0} };

    /// Runs the test with this key, and says how it ended.
    ///
    /// The keys of a plan's static nodes are their numbers in preorder. `execute` calls this from
    /// the thread of the worker that drew the test's unit, right after the test's start. The test's
    /// finish has the outcome. What the test publishes, and what it runs, goes through `test`.
    /// It is called once for each static node that is a test, where the plan skips neither the node
    /// nor one above it. The plan's dynamic nodes, and a test on the spine, whose children are units
    /// of their own, have no body: they finish as the plan says.
    ///
    /// # Errors
    /// What `test` answered, or where the engine can't go on `Text(text)`, with its words, or
    /// `Own(n)`. A test that fails is no error.
    fn run<C: Context>(&self, key: u32, test: &mut Reporter<C>) -> Result<Outcome, UnitFault>
        ensures end { IfOk result (λ outcome. may_end self.now key outcome) }
        ensures run { IfOk result (λ outcome.
            may_run self.now key test.old.events test.new.events outcome) }
        ensures fail { IfErr result (may_fail self.now key test.old.events test.new.events) };
}

/// The body of a dynamic test or container.
///
/// `may_end` says which outcomes it may have, `may_run` how it may run, and `may_fail` how it may
/// fail, as those of [`Tests`].
pub trait Body {
    ghost use Rattle.std.specs.Prelude.{IfErr, IfOk};
    ghost use Rattle.tk_engine_unit_events.specs.UnitSteps.{BodyFails, BodyRuns};
    ghost use Rattle.tk_events.specs.declared.outcomes.Outcome.{Outcome};

    ghost may_end: { Self → Outcome → Type 0 } = { λ body outcome. Unit {0} };

    ghost may_run: { Self → BodyRuns } = { λ body before after outcome. Unit {0} };

    ghost may_fail: { Self → BodyFails } = { λ body before after why. Unit {0} };

    /// Runs the body, and says how it ended.
    ///
    /// # Errors
    /// As [`Tests::run`].
    fn run<C: Context>(&self, test: &mut Reporter<C>) -> Result<Outcome, UnitFault>
        ensures end { IfOk result (λ outcome. may_end self.now outcome) }
        ensures run { IfOk result (λ outcome.
            may_run self.now test.old.events test.new.events outcome) }
        ensures fail { IfErr result (may_fail self.now test.old.events test.new.events) };
}

/// The body that ends with this outcome, and publishes nothing.
impl Body for Outcome {
    ghost use Rattle.tk_engine_execute.specs.declared.engines.UnitFault.TheVariants.{Memory};

    ghost may_end = { λ body outcome. outcome ≡ body };

    ghost may_run = { λ body before after outcome. after ≡ before };

    ghost may_fail = { λ body before after why. (after ≡ before) × (why ≡ Memory) };

    fn run<C: Context>(&self, _test: &mut Reporter<C>) -> Result<Outcome, UnitFault> {
        Ok(self.try_clone()?)
    }
}

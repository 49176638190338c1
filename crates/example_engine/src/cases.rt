//! Cases of a function, in tables.
ghost use Rattle.std.specs.Prelude.{◌≡◌, ℕ, IfOk};
ghost use Rattle.example_engine.specs.Running.{failure_text};

use engine_testkit::Text;
use std::alloc::{AllocError, Global};

/// The function whose cases are run.
pub trait Function {
    ghost value: { Self → ℕ → ℕ };

    /// The value at an argument, the same at each call.
    fn value(&self, argument: u64) -> u64
        ensures { result ≡ value self.now argument };
}

/// An argument, and the value that the function is to have there.
#[derive(Clone, Copy)]
pub struct Case {
    pub argument: u64,
    pub expected: u64,
}

/// Cases that are run one after another. JUnit: a class with a `ParameterizedTest`.
#[derive(Clone, Copy)]
pub struct CaseTable<'a> {
    /// The table's display name, and the value of its segment `[table:NAME]`.
    pub name: &'a str,
    pub cases: &'a [Case],
    /// Why the cases are skipped, if they are. JUnit: `Disabled`.
    pub disabled: Option<&'a str>,
}

/// Why a case fails: both values.
pub(crate) fn failure_of(alloc: Global, expected: u64, actual: u64) -> Result<Text, AllocError>
    ensures { IfOk result (λ text. text ≡ failure_text expected actual) }
{
    Ok(Text::from(format!(in alloc; "expected: <{expected}> but was: <{actual}>")?))
}

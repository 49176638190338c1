//! Why a test fails.
ghost use Rattle.std.specs.Prelude.{◌≡◌, string_bytes};
ghost use Rattle.tk_expectations.specs.Failures.{IsFault};

use std::error::Error;
use std::fmt;
use std::fmt::InlineText;
use testkit_questions::ConditionsFault;
use tk_streams::ByteTarget;

/// How many bytes of the text of a fault are kept.
const FAULT_TEXT: usize = 512;

/// An expectation that a record does not meet, with what shows it.
#[derive(Drop)]
pub struct Unmet {
    explanation: ByteTarget,
    below: String,
}

impl Unmet {
    /// Puts an explanation and what stands below it together.
    pub(crate) fn new(explanation: ByteTarget, below: String) -> Unmet
        ensures { result.explanation ≡ explanation }
    {
        Unmet { explanation, below }
    }

    /// Lends what `ask explain` writes: the answer, and why it is the answer. Of a report these are
    /// the lines that differ.
    pub fn explanation(&self) -> &[u8]
        ensures { result.now ≡ self.now.explanation.bytes }
    {
        self.explanation.bytes()
    }

    /// Lends what is shown below it: the events of the descriptors that the explanation names, or
    /// those that might have been counted.
    pub fn below(&self) -> &str
        ensures { result.now ≡ string_bytes self.now.below }
    {
        self.below.as_str()
    }
}

/// Why a test fails: an expectation is not met or can't be read, a run failed, or a call answered
/// a fault.
///
/// `?` makes one of any error. A test that returns `Result<(), Failure>` prints its whole text.
#[derive(Drop)]
pub enum Failure {
    /// The record does not meet an expectation.
    Unmet(Unmet),
    /// A text spells no condition. Beside the fault: the text, the place, and what may stand there.
    Condition(ConditionsFault, String),
    /// The word of this number expects nothing of a statistic. Beside it: the word, and how one does.
    Word(usize, String),
    /// A run failed. Beside it: its fault, and the last events that were recorded until then.
    Run(String),
    /// What another fault says of itself.
    Fault(InlineText<{ FAULT_TEXT }>),
}

fn write_bytes<W: fmt::Write>(bytes: &[u8], f: &mut fmt::Formatter<W>) -> fmt::Result {
    match str::from_utf8(bytes) {
        Ok(text) => f.write_str(text),
        Err(_) => f.write_str("not UTF-8"),
    }
}

/// Shows the whole text, without quotes and escapes.
impl fmt::Debug for Failure {
    fn fmt<W: fmt::Write>(&self, f: &mut fmt::Formatter<W>) -> fmt::Result {
        match self {
            Failure::Unmet(unmet) => {
                write_bytes(unmet.explanation(), f)?;
                f.write_str(unmet.below())
            }
            Failure::Condition(_, text) | Failure::Word(_, text) | Failure::Run(text) => {
                f.write_str(text.as_str())
            }
            Failure::Fault(text) => f.write_str(text.as_str()),
        }
    }
}

impl<E: Error> From<E> for Failure {
    ghost from_gives = { λ _ failure. IsFault failure };

    fn from(error: E) -> Failure {
        Failure::Fault(InlineText::of(error))
    }
}

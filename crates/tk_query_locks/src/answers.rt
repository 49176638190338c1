//! What a question about locks answers.
ghost use Rattle.std.specs.Prelude.{◌≡◌, Some};
ghost use Rattle.tk_query_locks.specs.AnswerTexts.{lock_answer_text, lock_answer_yes};

use std::fmt;
use tk_events::fmt_field;
use tk_ids::Text;

/// Whether executions that conflict over a lock kept away from each other.
#[derive(Debug, Drop)]
pub enum LockAnswer {
    /// Some executions conflict, and no two that conflict overlap.
    Yes,
    /// The positions of the starts of two executions that conflict and overlap: the least second
    /// one, and the least first one for it; and the least name of a lock over which they conflict.
    No(usize, usize, Text),
    /// No two executions conflict, so that nothing was compared.
    NoPair,
}

impl LockAnswer {
    /// Whether the answer is a yes.
    pub fn is_yes(&self) -> bool
        ensures { result ≡ lock_answer_yes self.now }
    {
        matches!(self, LockAnswer::Yes)
    }
}

/// The words of the answer: `yes`, `no P Q NAME` or `no pair`, with the name as a field of a line.
impl fmt::Display for LockAnswer {
    ghost output = { λ answer. Some (lock_answer_text answer) };

    fn fmt<W: fmt::Write>(&self, f: &mut fmt::Formatter<W>) -> fmt::Result {
        match self {
            LockAnswer::Yes => f.write_str("yes"),
            LockAnswer::No(first, second, name) => {
                write!(f, "no {first} {second} ")?;
                fmt_field(name.as_str(), f)
            }
            LockAnswer::NoPair => f.write_str("no pair"),
        }
    }
}

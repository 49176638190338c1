//! Answers whose text is made while it is written.
ghost use Rattle.std.specs.Prelude.{◌≡◌, true, OnErr, OnOk};
ghost use Rattle.std.specs.Io.KnownBytes.{Appends};
ghost use Rattle.tk_streams.specs.Stream.{AppendsPrefix};
ghost use Rattle.testkit_questions.specs.steps.{reply_is_yes, reply_text};

use crate::answers::Answer;
use crate::execution_lines::write_executions;
use tk_query::ExecutionIter;
use tk_record::Events;
use tk_record_text::write_event_list;
use tk_report_text::Report;
use tk_streams::{Broken, Target, write_all};

/// An answer for which no more memory is needed.
#[derive(Drop)]
pub(crate) enum Reply<'r> {
    /// A text that is whole.
    Whole(Answer),
    /// A line for each of the executions, which are a yes.
    Executions(ExecutionIter<'r>),
    /// A line for each of the events, which are a yes.
    Events(Events<'r>),
    /// A report, which is a yes.
    Report(Report<'r>),
}

impl<'r> Reply<'r> {
    /// Whether the answer is a yes.
    pub(crate) fn is_yes(&self) -> bool
        ensures { result ≡ reply_is_yes self.now }
    {
        match self {
            Reply::Whole(answer) => answer.is_yes,
            Reply::Executions(_) | Reply::Events(_) | Reply::Report(_) => true,
        }
    }

    /// Writes the text of the answer.
    ///
    /// # Errors
    /// `Broken` where the target broke. A prefix of the text was then written.
    pub(crate) fn write<T: Target>(self, target: &mut T) -> Result<(), Broken>
        ensures ok { OnOk result (Appends (T.contents target.old) (T.contents target.new)
            (reply_text self.entry)) }
        ensures err { OnErr result (AppendsPrefix (T.contents target.old) (T.contents target.new)
            (reply_text self.entry)) }
        ensures broken { OnErr result (T.broken target.new ≡ true) }
    {
        match self {
            Reply::Whole(answer) => write_all(target, answer.text.as_slice()),
            Reply::Executions(executions) => write_executions(executions, target),
            Reply::Events(events) => write_event_list(&events, target),
            Reply::Report(report) => report.write(target),
        }
    }
}

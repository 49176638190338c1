//! What can be asked of a record.
ghost use Rattle.testkit_questions.specs.Questions.{IsNamed, mode_name, question_word};

use tk_query_conditions::Condition;
use tk_record::{Expected, Selection};

/// The name of a question.
#[derive(Clone, Copy, Debug, PartialEq, Eq)]
pub enum QuestionName {
    /// `stats`
    Stats,
    /// `count`
    Count,
    /// `match`
    Match,
    /// `list`
    List,
    /// `exclusive`
    Exclusive,
    /// `executions`
    Executions,
    /// `lifecycle`
    Lifecycle,
    /// `locks`
    Locks,
    /// `report`
    Report,
}

/// How conditions are matched with events.
#[derive(Clone, Copy, Debug, PartialEq, Eq)]
pub enum Mode {
    /// As many conditions as events, each condition holding of its event.
    Exactly,
    /// Each condition holds of some event.
    Loosely,
    /// The conditions hold at increasing positions.
    InOrder,
}

/// What is asked of a record. Where there is a selection, only the events that it picks are asked.
#[derive(Drop)]
pub enum Question {
    /// The nine statistics, and which of them differ from what is expected.
    Stats {
        selection: Selection,
        expected: Expected,
    },
    /// How many events there are.
    Count {
        selection: Selection,
    },
    /// Whether the events match conditions.
    Match {
        selection: Selection,
        mode: Mode,
        conditions: Vec<Condition>,
    },
    /// Which are the events of which each condition holds.
    List {
        selection: Selection,
        conditions: Vec<Condition>,
    },
    /// Whether executions that conflict kept away from each other: those of writers, and those of
    /// readers.
    Exclusive {
        writers: Condition,
        readers: Condition,
    },
    /// The executions that the events show.
    Executions {
        selection: Selection,
    },
    /// Whether the record keeps the lifecycle that a listener of an engine may rely on.
    Lifecycle,
    /// Whether executions that conflict over a lock kept away from each other.
    Locks,
    /// The report: the statistics, and the events of each id.
    Report,
}

/// What words ask for.
#[derive(Drop)]
pub struct Request {
    /// What is asked.
    pub question: Question,
    /// Whether it is written below the answer why it is the answer. Of a number and of a report
    /// there is nothing to explain.
    pub is_explained: bool,
}

impl QuestionName {
    /// Reads the name of a question, as `stats`.
    pub fn read(word: &str) -> Option<QuestionName>
        ensures { IsNamed question_word word.now result }
    {
        match word {
            "stats" => Some(QuestionName::Stats),
            "count" => Some(QuestionName::Count),
            "match" => Some(QuestionName::Match),
            "list" => Some(QuestionName::List),
            "exclusive" => Some(QuestionName::Exclusive),
            "executions" => Some(QuestionName::Executions),
            "lifecycle" => Some(QuestionName::Lifecycle),
            "locks" => Some(QuestionName::Locks),
            "report" => Some(QuestionName::Report),
            _ => None,
        }
    }
}

impl Mode {
    /// Reads the name of a mode: `exactly`, `loosely` or `in-order`.
    pub fn read(word: &str) -> Option<Mode>
        ensures { IsNamed mode_name word.now result }
    {
        match word {
            "exactly" => Some(Mode::Exactly),
            "loosely" => Some(Mode::Loosely),
            "in-order" => Some(Mode::InOrder),
            _ => None,
        }
    }
}

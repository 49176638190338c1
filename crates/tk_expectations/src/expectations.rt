//! What a test expects of a record.
ghost use Rattle.std.specs.Prelude.{◌≡◌, ◌∷◌, ◌<◌, ◌≤◌, ◌⊎◌, ℕ, List, [], length, map, string_bytes, IfErr, IfOk};
ghost use Rattle.tk_explanations.specs.Collisions.{ExplainsExclusive};
ghost use Rattle.tk_explanations.specs.Lifecycles.{ExplainsLifecycle};
ghost use Rattle.tk_explanations.specs.LockCollisions.{ExplainsLocks};
ghost use Rattle.tk_explanations.specs.Matches.{ExplainsExactly, ExplainsInOrder, ExplainsLoosely};
ghost use Rattle.tk_explanations.specs.Statistics.{ExplainsStatistics};
ghost use Rattle.tk_record.specs.Selections.{all_of};
ghost use Rattle.tk_record.specs.Statistics.{nothing_expected};
ghost use Rattle.testkit_questions.specs.Explanations.{ExplainsMatch};
ghost use Rattle.testkit_questions.specs.Questions.{AreConditions, Expecting};
ghost use Rattle.tk_expectations.specs.Expectations.{ComparesReport, IsJudged, IsSpaced, OfConditions, OfHolders, OfWords, RefusesConditions, RefusesWords, asked_of, texts_of};
ghost use Rattle.tk_expectations.specs.steps.{IsAsked, IsJudgedBy, IsNoAnswer};

use crate::bad_texts::{bad_condition, bad_word};
use crate::descriptor_events::events_of_named;
use crate::failures::{Failure, Unmet};
use crate::report_differences::difference;
use crate::uncounted_events::uncounted_events;
use std::alloc::{AllocError, Global};
use testkit_questions::{Mode, explain_match, holders, read_conditions, read_expectations};
use tk_explanations::{explain_exclusive, explain_lifecycle, explain_locks, explain_statistics};
use tk_query_conditions::Condition;
use tk_record::{Events, Expected, Record, Selection};
use tk_report_text::write_report_of;
use tk_streams::{ByteTarget, write_all};

// Reads the conditions that texts spell.
fn conditions_of(alloc: Global, texts: &[&str]) -> Result<Vec<Condition>, Failure>
    ensures ok { IfOk result (λ conditions. AreConditions (texts_of texts.now) conditions.items) }
    ensures err { IfErr result (RefusesConditions (texts_of texts.now)) }
    ensures no_answer { IfErr result IsNoAnswer }
{
    match read_conditions(alloc, texts) {
        Ok(conditions) => Ok(conditions),
        Err(fault) => {
            let shown = bad_condition(alloc, fault, texts)?;
            Err(Failure::Condition(fault, shown))
        }
    }
}

// Splits a text at its blanks.
fn words_of(alloc: Global, text: &str) -> Result<Vec<String>, AllocError>
    ensures { IfOk result (λ words. IsSpaced text.now (map string_bytes words.items)) }
{
    let mut words = Vec::new(alloc);
    let mut rest = text;
    'words: while let Some((word, after)) = rest.split_once(' ') {
        words.push(String::from_str(alloc, word)?)?;
        rest = after;
    }
    words.push(String::from_str(alloc, rest)?)?;
    Ok(words)
}

// Reads what the words of a text expect of the statistics.
fn expected_of(alloc: Global, text: &str) -> Result<Expected, Failure>
    ensures ok { IfOk result (λ expected. (words : List (List ℕ)) × IsSpaced text.now words
        × Expecting nothing_expected words expected) }
    ensures err { IfErr result (RefusesWords text.now) }
    ensures no_answer { IfErr result IsNoAnswer }
{
    let words = words_of(alloc, text)?;
    match read_expectations(words.as_slice()) {
        Ok(expected) => Ok(expected),
        Err(at) => {
            let shown = bad_word(alloc, at, text)?;
            Err(Failure::Word(at, shown))
        }
    }
}

/// What a test expects of a record. Each call asks a question of the program, and is Ok where its
/// answer is a yes.
///
/// `stats`, `exactly`, `loosely` and `in_order` ask the events of the selection that [`pick`]
/// names, or all where none is named. The other questions are of the whole record.
///
/// # Errors
/// `Unmet` where the answer is a no, with what `ask explain` says of it; `Condition` or `Word` for a
/// text that is none; `Fault` where a request for memory is refused.
#[derive(Clone, Copy)]
pub struct Expect<'r> {
    alloc: Global,
    record: &'r Record,
    selection: Selection,
}

impl<'r> Expect<'r> {
    /// Expects something of a record. All its events are asked.
    pub fn of(alloc: Global, record: &'r Record) -> Expect<'r>
        ensures record_is { result.«record».now ≡ «record».entry.now }
        ensures selection { result.selection ≡ Selection.All }
    {
        Expect {
            alloc,
            record,
            selection: Selection::All,
        }
    }

    /// Asks the events that a selection picks of the whole record, in place of those asked before.
    pub fn pick(self, selection: Selection) -> Expect<'r>
        ensures record_is { result.«record» ≡ self.entry.«record» }
        ensures selection { result.selection ≡ selection }
    {
        Expect {
            alloc: self.alloc,
            record: self.record,
            selection,
        }
    }

    // Picks the events that are asked.
    fn events(self) -> Result<Events<'r>, AllocError>
        ensures { IfOk result (λ events. events ≡ asked_of self.entry) }
    {
        Events::all(self.alloc, self.record)?.pick(self.alloc, self.selection)
    }

    // Is Ok where the answer is a yes. The failure shows what it has of the descriptors that the
    // answer names.
    fn judge(self, is_yes: bool, explanation: ByteTarget) -> Result<Expect<'r>, Failure>
        ensures { IsJudgedBy self.entry is_yes explanation.bytes result }
    {
        if is_yes {
            return Ok(self);
        }
        let below = events_of_named(self.alloc, self.record, explanation.bytes())?;
        Err(Failure::Unmet(Unmet::new(explanation, below)))
    }

    /// Expects that the record keeps the lifecycle that a listener may rely on, and that no test
    /// was forgotten. The question `lifecycle`.
    pub fn lifecycle(self) -> Result<Expect<'r>, Failure>
        ensures { IsJudged self.entry (ExplainsLifecycle self.entry.«record».now) result }
    {
        let mut explanation = ByteTarget::new(self.alloc);
        let is_yes = explain_lifecycle(self.alloc, self.record, &mut explanation)?;
        self.judge(is_yes, explanation)
    }

    /// Expects that executions that conflict over a lock kept away from each other, and that two
    /// such executions are there. The question `locks`.
    pub fn locks(self) -> Result<Expect<'r>, Failure>
        ensures { IsJudged self.entry (ExplainsLocks (all_of self.entry.«record».now)) result }
    {
        let events = Events::all(self.alloc, self.record)?;
        let mut explanation = ByteTarget::new(self.alloc);
        let is_yes = explain_locks(self.alloc, &events, &mut explanation)?;
        self.judge(is_yes, explanation)
    }

    // Expects that executions that conflict kept away from each other.
    fn apart(self, writers: &Condition, readers: &Condition) -> Result<Expect<'r>, Failure>
        ensures judged { IsJudged self.entry
            (ExplainsExclusive (all_of self.entry.«record».now) writers.now readers.now) result }
        ensures asked { IfErr result IsAsked }
    {
        let events = Events::all(self.alloc, self.record)?;
        let mut explanation = ByteTarget::new(self.alloc);
        let is_yes = explain_exclusive(self.alloc, &events, writers, readers, &mut explanation)?;
        self.judge(is_yes, explanation)
    }

    // Expects that the executions of those kept away from each other whose conditions the texts
    // spell: one of writers, or one of writers and one of readers.
    fn apart_as(self, texts: &[&str]) -> Result<Expect<'r>, Failure>
        requires some { 0 < length texts.now }
        requires few { length texts.now ≤ 2 }
        ensures judged { IsJudged self.entry (OfHolders (texts_of texts.now)
            (ExplainsExclusive (all_of self.entry.«record».now))) result }
        ensures refused { IfErr result (RefusesConditions (texts_of texts.now)) }
    {
        let conditions = conditions_of(self.alloc, texts)?;
        let (writers, readers) = holders(self.alloc, conditions);
        let judged = self.apart(&writers, &readers);
        drop(writers);
        drop(readers);
        judged
    }

    /// Expects that the executions of which a condition holds kept away from each other, and that
    /// there are two such executions. The question `exclusive`.
    pub fn exclusive(self, writers: &str) -> Result<Expect<'r>, Failure>
        ensures judged { IsJudged self.entry (OfHolders (writers.now ∷ [])
            (ExplainsExclusive (all_of self.entry.«record».now))) result }
        ensures refused { IfErr result (RefusesConditions (writers.now ∷ [])) }
    {
        self.apart_as(&[writers])
    }

    /// Expects that the executions of writers kept away from each other and from those of readers,
    /// and that two such executions are there. The question `exclusive`.
    pub fn exclusive_with(self, writers: &str, readers: &str) -> Result<Expect<'r>, Failure>
        ensures judged { IsJudged self.entry (OfHolders (writers.now ∷ readers.now ∷ [])
            (ExplainsExclusive (all_of self.entry.«record».now))) result }
        ensures refused { IfErr result (RefusesConditions (writers.now ∷ readers.now ∷ [])) }
    {
        self.apart_as(&[writers, readers])
    }

    /// Expects numbers of the statistics of the events, by words NAME=N with a blank between them,
    /// as `started=2 failed=1`. The question `stats`.
    ///
    /// Where fewer events were counted than expected, the failure shows those that come near to
    /// being counted.
    pub fn stats(self, words: &str) -> Result<Expect<'r>, Failure>
        ensures judged { IsJudged self.entry
            (OfWords words.now (ExplainsStatistics (asked_of self.entry))) result }
        ensures refused { IfErr result (RefusesWords words.now) }
    {
        let expected = expected_of(self.alloc, words)?;
        let events = self.events()?;
        let mut explanation = ByteTarget::new(self.alloc);
        if explain_statistics(self.alloc, &events, &expected, &mut explanation)? {
            return Ok(self);
        }
        let below = uncounted_events(self.alloc, &events, &expected)?;
        Err(Failure::Unmet(Unmet::new(explanation, below)))
    }

    // Expects that the events match the conditions that texts spell.
    fn matched(self, mode: Mode, texts: &[&str]) -> Result<Expect<'r>, Failure>
        ensures judged { IsJudged self.entry (OfConditions (texts_of texts.now)
            (ExplainsMatch mode (asked_of self.entry))) result }
        ensures refused { IfErr result (RefusesConditions (texts_of texts.now)) }
    {
        let conditions = conditions_of(self.alloc, texts)?;
        let events = self.events()?;
        let mut explanation = ByteTarget::new(self.alloc);
        let is_yes = explain_match(self.alloc, &events, mode, &conditions, &mut explanation)?;
        self.judge(is_yes, explanation)
    }

    /// Expects one event for each condition, of which it holds, in the order of the conditions, and
    /// no others. The question `match exactly`.
    pub fn exactly(self, texts: &[&str]) -> Result<Expect<'r>, Failure>
        ensures judged { IsJudged self.entry (OfConditions (texts_of texts.now)
            (ExplainsExactly (asked_of self.entry))) result }
        ensures refused { IfErr result (RefusesConditions (texts_of texts.now)) }
    {
        self.matched(Mode::Exactly, texts)
    }

    /// Expects of each condition that it holds of some event. The question `match loosely`.
    pub fn loosely(self, texts: &[&str]) -> Result<Expect<'r>, Failure>
        ensures judged { IsJudged self.entry (OfConditions (texts_of texts.now)
            (ExplainsLoosely (asked_of self.entry))) result }
        ensures refused { IfErr result (RefusesConditions (texts_of texts.now)) }
    {
        self.matched(Mode::Loosely, texts)
    }

    /// Expects that the conditions hold of events at increasing positions, with others between
    /// them. The question `match in-order`.
    pub fn in_order(self, texts: &[&str]) -> Result<Expect<'r>, Failure>
        ensures judged { IsJudged self.entry (OfConditions (texts_of texts.now)
            (ExplainsInOrder (asked_of self.entry))) result }
        ensures refused { IfErr result (RefusesConditions (texts_of texts.now)) }
    {
        self.matched(Mode::InOrder, texts)
    }

    /// Expects that the report of the record is this text. The question `report`.
    ///
    /// The failure shows the lines that differ, at most 40, with those around them: first those of
    /// the ids and their events, then the counts.
    pub fn report(self, text: &str) -> Result<Expect<'r>, Failure>
        ensures { IsJudged self.entry (ComparesReport self.entry.«record».now text.now) result }
    {
        let mut written = ByteTarget::new(self.alloc);
        write_report_of(self.alloc, self.record, &mut written)?;
        if written.bytes() == text.as_bytes() {
            return Ok(self);
        }
        let shown = difference(self.alloc, text, str::from_utf8(written.bytes())?)?;
        let mut explanation = ByteTarget::new(self.alloc);
        write_all(&mut explanation, shown.as_bytes())?;
        Err(Failure::Unmet(Unmet::new(explanation, String::new(self.alloc))))
    }
}

//! How words ask for an answer, or for its explanation.
ghost use Rattle.std.specs.Prelude.{◌≡◌, ◌+◌, ◌∷◌, ◌<◌, ◌≤◌, ◌^◌, ◌⊎◌, [], length, map, string_bytes, IfErr, IfNone, IfOk, IfSome};
ghost use Rattle.tk_record.specs.Selections.{selection_name};
ghost use Rattle.tk_query_conditions.specs.Cond.{Any, Nothing};
ghost use Rattle.tk_query_conditions.specs.CondOf.{cond_of};
ghost use Rattle.testkit_questions.specs.Questions.{AreConditions, IsAskedAs, IsConditionFault, IsConditionsReading, IsEnd, IsExclusiveReading, IsMatchReading, IsNoName, IsReadAfter, IsStatsReading, mode_name, question_word};
ghost use Rattle.testkit_questions.specs.Requests.{IsExplainedAs, IsFlagged, IsRequestedAs, IsUnexplained, explain_word, reading_of};
ghost use Rattle.testkit_questions.specs.declared.questions.QuestionName.TheVariants as names;

use crate::conditions::{ConditionsFault, read_conditions};
use crate::expectations::read_expectations;
use crate::faults::AskFault;
use crate::questions::{Mode, Question, QuestionName, Request};
use std::alloc::Global;
use tk_query_conditions::Condition;
use tk_record::Selection;

// Cuts off the first word, where it names a question.
fn split_question(words: &[String]) -> Option<(QuestionName, &[String])>
    ensures some { IfSome result (λ cut. map string_bytes words.now
        ≡ question_word cut.0 ∷ map string_bytes cut.1.now) }
    ensures shorter { IfSome result (λ cut. length words.now ≡ length cut.1.now + 1) }
    ensures none { IfNone result (IsNoName question_word (map string_bytes words.now)) }
{
    let Some((word, rest)) = words.split_first() else {
        return None;
    };
    match QuestionName::read(word.as_str()) {
        Some(name) => Some((name, rest)),
        None => None,
    }
}

// Cuts off the first word, where it names a selection.
fn split_selection(words: &[String]) -> Option<(Selection, &[String])>
    ensures some { IfSome result (λ cut. map string_bytes words.now
        ≡ selection_name cut.0 ∷ map string_bytes cut.1.now) }
    ensures shorter { IfSome result (λ cut. length words.now ≡ length cut.1.now + 1) }
    ensures none { IfNone result (IsNoName selection_name (map string_bytes words.now)) }
{
    let Some((word, rest)) = words.split_first() else {
        return None;
    };
    match Selection::read(word.as_str()) {
        Some(selection) => Some((selection, rest)),
        None => None,
    }
}

// Cuts off the first word, where it names a mode.
fn split_mode(words: &[String]) -> Option<(Mode, &[String])>
    ensures some { IfSome result (λ cut. map string_bytes words.now
        ≡ mode_name cut.0 ∷ map string_bytes cut.1.now) }
    ensures shorter { IfSome result (λ cut. length words.now ≡ length cut.1.now + 1) }
    ensures none { IfNone result (IsNoName mode_name (map string_bytes words.now)) }
{
    let Some((word, rest)) = words.split_first() else {
        return None;
    };
    match Mode::read(word.as_str()) {
        Some(mode) => Some((mode, rest)),
        None => None,
    }
}

// Ends a question, after which no word may stand.
fn read_end(question: Question, words: &[String], first: usize) -> Result<Question, AskFault>
    ensures { IsEnd question first (map string_bytes words.now) result }
{
    if words.is_empty() {
        Ok(question)
    } else {
        Err(AskFault::Word(first))
    }
}

// Reads the conditions that the words spell.
fn read_texts(alloc: Global, words: &[String], first: usize) -> Result<Vec<Condition>, AskFault>
    requires { first + length words.now < 2 ^ 64 }
    ensures ok { IfOk result (λ conditions.
        AreConditions (map string_bytes words.now) conditions.items) }
    ensures err { IfErr result (IsConditionFault first (map string_bytes words.now)) }
{
    match read_conditions(alloc, words) {
        Ok(conditions) => Ok(conditions),
        Err(ConditionsFault::Condition(at, fault)) => Err(AskFault::Condition(first + at, fault)),
        Err(ConditionsFault::Memory) => Err(AskFault::Memory),
    }
}

// Reads what is expected of the statistics of the selection's events.
fn read_expected(selection: Selection, words: &[String], first: usize) -> Result<Question, AskFault>
    requires { first + length words.now < 2 ^ 64 }
    ensures { IsStatsReading selection first (map string_bytes words.now) result }
{
    match read_expectations(words) {
        Ok(expected) => Ok(Question::Stats {
            selection,
            expected,
        }),
        Err(at) => Err(AskFault::Word(first + at)),
    }
}

fn read_stats(words: &[String], first: usize) -> Result<Question, AskFault>
    requires { first + length words.now < 2 ^ 64 }
    ensures { IsReadAfter names.Stats first (map string_bytes words.now) result }
{
    match split_selection(words) {
        Some((selection, rest)) => read_expected(selection, rest, first + 1),
        None => read_expected(Selection::All, words, first),
    }
}

fn read_count(words: &[String], first: usize) -> Result<Question, AskFault>
    requires { first + length words.now < 2 ^ 64 }
    ensures { IsReadAfter names.Count first (map string_bytes words.now) result }
{
    match split_selection(words) {
        Some((selection, rest)) => read_end(Question::Count { selection }, rest, first + 1),
        None => Err(AskFault::Word(first)),
    }
}

// Reads the mode and the conditions of a match with the selection's events.
fn read_match_of(
    alloc: Global,
    selection: Selection,
    words: &[String],
    first: usize,
) -> Result<Question, AskFault>
    requires { first + length words.now < 2 ^ 64 }
    ensures { IsMatchReading selection first (map string_bytes words.now) result }
{
    let Some((mode, texts)) = split_mode(words) else {
        return Err(AskFault::Word(first));
    };
    match read_texts(alloc, texts, first + 1) {
        Ok(conditions) => Ok(Question::Match {
            selection,
            mode,
            conditions,
        }),
        Err(fault) => Err(fault),
    }
}

fn read_match(alloc: Global, words: &[String], first: usize) -> Result<Question, AskFault>
    requires { first + length words.now < 2 ^ 64 }
    ensures { IsReadAfter names.Match first (map string_bytes words.now) result }
{
    match split_selection(words) {
        Some((selection, rest)) => read_match_of(alloc, selection, rest, first + 1),
        None => read_match_of(alloc, Selection::All, words, first),
    }
}

fn read_list(alloc: Global, words: &[String], first: usize) -> Result<Question, AskFault>
    requires { first + length words.now < 2 ^ 64 }
    ensures { IsReadAfter names.List first (map string_bytes words.now) result }
{
    let Some((selection, texts)) = split_selection(words) else {
        return Err(AskFault::Word(first));
    };
    match read_texts(alloc, texts, first + 1) {
        Ok(conditions) => Ok(Question::List {
            selection,
            conditions,
        }),
        Err(fault) => Err(fault),
    }
}

/// The conditions of writers and of readers, of one or two conditions. Where there is one, no event
/// is a reader's.
pub fn holders(alloc: Global, conditions: Vec<Condition>) -> (Condition, Condition)
    requires some { 0 < length conditions.items }
    requires few { length conditions.items ≤ 2 }
    ensures { (conditions.items ≡ result.0 ∷ result.1 ∷ [])
        ⊎ ((conditions.items ≡ result.0 ∷ []) × (cond_of result.1 ≡ Any Nothing)) }
{
    let mut first = conditions;
    let last = first.pop();
    match (first.pop(), last) {
        (Some(writers), Some(readers)) => (writers, readers),
        (None, Some(writers)) => (writers, Condition::Any(Vec::new(alloc))),
        (_, None) => unreachable!(),
    }
}

fn read_exclusive(alloc: Global, words: &[String], first: usize) -> Result<Question, AskFault>
    requires { first + length words.now < 2 ^ 64 }
    ensures { IsReadAfter names.Exclusive first (map string_bytes words.now) result }
{
    if words.is_empty() {
        return Err(AskFault::Word(first));
    }
    if words.len() > 2 {
        return Err(AskFault::Word(first + 2));
    }
    match read_texts(alloc, words, first) {
        Ok(conditions) => {
            let (writers, readers) = holders(alloc, conditions);
            Ok(Question::Exclusive { writers, readers })
        }
        Err(fault) => Err(fault),
    }
}

fn read_executions(words: &[String], first: usize) -> Result<Question, AskFault>
    requires { first + length words.now < 2 ^ 64 }
    ensures { IsReadAfter names.Executions first (map string_bytes words.now) result }
{
    match split_selection(words) {
        Some((selection, rest)) => read_end(Question::Executions { selection }, rest, first + 1),
        None => {
            let selection = Selection::All;
            read_end(Question::Executions { selection }, words, first)
        }
    }
}

// Reads the words after the name of a question. The first of them has this number.
fn read_after(
    alloc: Global,
    name: QuestionName,
    words: &[String],
    first: usize,
) -> Result<Question, AskFault>
    requires { first + length words.now < 2 ^ 64 }
    ensures { IsReadAfter name first (map string_bytes words.now) result }
{
    match name {
        QuestionName::Stats => read_stats(words, first),
        QuestionName::Count => read_count(words, first),
        QuestionName::Match => read_match(alloc, words, first),
        QuestionName::List => read_list(alloc, words, first),
        QuestionName::Exclusive => read_exclusive(alloc, words, first),
        QuestionName::Executions => read_executions(words, first),
        QuestionName::Lifecycle => read_end(Question::Lifecycle, words, first),
        QuestionName::Locks => read_end(Question::Locks, words, first),
        QuestionName::Report => read_end(Question::Report, words, first),
    }
}

/// Reads the question that the words ask, the first of which names it.
///
/// # Errors
/// `Question`; `Word` of the first bad word; `Condition` of the first condition that is bad, where
/// no word is; or `Memory`.
pub fn read_question(alloc: Global, words: &[String]) -> Result<Question, AskFault>
    ensures { IsAskedAs (map string_bytes words.now) result }
{
    // For the proof: that each word has a number.
    let _count = words.len();
    match split_question(words) {
        Some((name, rest)) => read_after(alloc, name, rest, 0),
        None => Err(AskFault::Question),
    }
}

// Reads the words after `explain`: a question by its name, or those that follow `match`.
fn read_explained(alloc: Global, words: &[String]) -> Result<Question, AskFault>
    ensures { IsExplainedAs (map string_bytes words.now) result }
{
    // For the proof: that each word has a number.
    let _count = words.len();
    match split_question(words) {
        Some((QuestionName::Count | QuestionName::Match | QuestionName::Report, _)) => {
            Err(AskFault::Word(0))
        }
        Some((name, rest)) => read_after(alloc, name, rest, 1),
        None => read_match(alloc, words, 0),
    }
}

// Cuts off the first word, where it is `explain`.
fn split_explain(words: &[String]) -> Option<&[String]>
    ensures some { IfSome result (λ rest. map string_bytes words.now
        ≡ explain_word ∷ map string_bytes rest.now) }
    ensures none { IfNone result (IsUnexplained (map string_bytes words.now)) }
{
    let Some((word, rest)) = words.split_first() else {
        return None;
    };
    if word.as_str() == "explain" {
        Some(rest)
    } else {
        None
    }
}

// Asks for the answer to the question that was read, with its explanation or without.
fn request_of(reading: Result<Question, AskFault>, is_explained: bool) -> Result<Request, AskFault>
    ensures question { reading_of result ≡ reading }
    ensures flag { IsFlagged is_explained result }
{
    match reading {
        Ok(question) => Ok(Request {
            question,
            is_explained,
        }),
        Err(fault) => Err(fault),
    }
}

/// Reads what the words ask for: the answer to a question, or after the word `explain` the answer
/// and its explanation.
///
/// # Errors
/// As [`read_question`].
pub fn read_request(alloc: Global, words: &[String]) -> Result<Request, AskFault>
    ensures { IsRequestedAs (map string_bytes words.now) result }
{
    match split_explain(words) {
        Some(rest) => request_of(read_explained(alloc, rest), true),
        None => request_of(read_question(alloc, words), false),
    }
}

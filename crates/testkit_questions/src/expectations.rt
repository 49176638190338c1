//! Expectations of statistics, as words NAME=N.
ghost use Rattle.std.specs.Prelude.{◌≡◌, ◌<◌, ℕ, length, map, string_bytes, IfOk, IfErr, IfSome, IfNone};
ghost use Rattle.tk_record.specs.Statistics.{nothing_expected};
ghost use Rattle.testkit_questions.specs.Questions.{expecting, Expecting, IsBadExpectation, IsExpectation, IsNextExpected};
ghost use Rattle.tk_record.specs.declared.selections.Selection.{Selection};

use tk_record::{Expected, Selection};
use tk_record_text::read_number;

// Reads the statistic and the number of a word NAME=N.
fn read_expectation(word: &str) -> Option<(Selection, u64)>
    ensures some { IfSome result (λ named. IsExpectation word.now named.0 named.1) }
    ensures none { IfNone result ((selection : Selection) (n : ℕ)
        → ¬ IsExpectation word.now selection n) }
{
    let Some((name, number)) = word.split_once('=') else {
        return None;
    };
    let Some(selection) = Selection::read(name) else {
        return None;
    };
    let Some(number) = read_number(number, u64::MAX) else {
        return None;
    };
    Some((selection, number))
}

// Adds the number that is expected of a selection. None where the selection is no statistic, or
// where a number is expected of it already.
fn with_expectation(expected: Expected, selection: Selection, number: u64) -> Option<Expected>
    ensures { result ≡ expecting expected selection number }
{
    if expected.get(selection).is_some() {
        return None;
    }
    let mut next = expected;
    if next.set(selection, number) {
        Some(next)
    } else {
        None
    }
}

// Adds the expectation of a word.
fn expect_word(expected: Expected, word: &str) -> Option<Expected>
    ensures { IsNextExpected expected word.now result }
{
    let Some((selection, number)) = read_expectation(word) else {
        return None;
    };
    with_expectation(expected, selection, number)
}

/// Reads the expectations of the words.
///
/// # Errors
/// The number of the first word that expects nothing, or expects a number of a statistic again.
pub fn read_expectations(words: &[String]) -> Result<Expected, usize>
    ensures ok { IfOk result (λ expected.
        Expecting nothing_expected (map string_bytes words.now) expected) }
    ensures err { IfErr result (λ at. IsBadExpectation (map string_bytes words.now) at) }
    ensures within { IfErr result (λ at. at < length words.now) }
{
    let mut expected = Expected::none();
    for (at, word) in words.iter().enumerate() {
        match expect_word(expected, word.as_str()) {
            Some(next) => expected = next,
            None => return Err(at),
        }
    }
    Ok(expected)
}

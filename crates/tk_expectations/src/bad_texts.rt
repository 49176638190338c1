//! What is said of a text that spells no condition, and of a word that expects nothing.

use std::alloc::{AllocError, Global};
use testkit_questions::ConditionsFault;
use tk_query_conditions::{CondFault, read_condition};

/// What may begin a condition.
const WORDS: [&str; 20] = [
    "test",
    "container",
    "engine",
    "started",
    "succeeded",
    "failed",
    "failed(",
    "aborted",
    "aborted(",
    "id(",
    "name(",
    "skipped(",
    "message(",
    "file(",
    "kind(",
    "segment(",
    "entry(",
    "all(",
    "any(",
    "not(",
];

/// The names of kinds, with the bracket after them.
const KINDS: [&str; 6] = ["dynamic)", "skip)", "start)", "finish)", "report)", "file)"];

/// What stands between conditions and after them.
const MARKS: [&str; 3] = ["(", ",", ")"];

/// A character that stands in texts alone.
const OF_TEXTS: &str = "~";

// Finds the place at which a text is no condition, where it is none.
fn bad_place(alloc: Global, text: &str) -> Result<Option<usize>, CondFault> {
    match read_condition(alloc, text) {
        Ok(condition) => {
            drop(condition);
            Ok(None)
        }
        Err(CondFault::BadAtom(at)) => Ok(Some(at)),
        Err(fault) => Err(fault),
    }
}

// Tells whether a condition's text may begin with one text and then another.
fn may_follow(alloc: Global, start: &str, next: &str) -> Result<bool, CondFault> {
    let text = format!(in alloc; "{start}{next}")?;
    match bad_place(alloc, text.as_str())? {
        None => Ok(true),
        Some(at) => Ok(at >= text.len()),
    }
}

// Adds each of the words that goes on from the end of the start.
fn add_words(
    names: &mut String,
    alloc: Global,
    start: &str,
    words: &[&str],
) -> Result<(), CondFault> {
    let head = start.trim_end_matches(|c: char| c.is_ascii_lowercase());
    let stem = start.strip_prefix(head).unwrap_or("");
    for word in words {
        if word.len() > stem.len() && word.starts_with(stem) && may_follow(alloc, head, word)? {
            write!(names, " {word}")?;
        }
    }
    Ok(())
}

// Names what may stand after the start of a condition's text.
fn followers(alloc: Global, start: &str) -> Result<String, CondFault> {
    let mut names = String::new(alloc);
    if may_follow(alloc, start, OF_TEXTS)? {
        names.push_str(" a character of a text, where ( ) , % are %28 %29 %2C %25;")?;
    } else {
        add_words(&mut names, alloc, start, &WORDS)?;
        add_words(&mut names, alloc, start, &KINDS)?;
    }
    for mark in &MARKS {
        if may_follow(alloc, start, mark)? {
            write!(&mut names, " {mark}")?;
        }
    }
    if bad_place(alloc, start)?.is_none() {
        names.push_str(" the end of the text")?;
    }
    if names.is_empty() {
        names.push_str(" an escape: %25 %28 %29 %2C")?;
    }
    Ok(names)
}

// Says what may stand at a place of a text.
fn at_place(alloc: Global, shown: &str, text: &str, at: usize) -> Result<String, CondFault> {
    let start = text.get(..at).unwrap_or(text);
    let names = followers(alloc, start)?;
    let said = format!(in alloc; "{shown}: {text}\nafter '{start}' may stand:{names}\n")?;
    Ok(said)
}

/// Says of the text of a condition that is none: which it is, where, and what may stand there.
pub(crate) fn bad_condition(
    alloc: Global,
    fault: ConditionsFault,
    texts: &[&str],
) -> Result<String, CondFault> {
    let shown = format!(in alloc; "{fault}")?;
    let ConditionsFault::Condition(number, why) = fault else {
        return Ok(shown);
    };
    let text = texts.get(number).copied().unwrap_or("");
    match why {
        CondFault::BadAtom(at) => at_place(alloc, shown.as_str(), text, at),
        _ => Ok(format!(in alloc; "{shown}: {text}\n")?),
    }
}

/// Says of a word that expects nothing of a statistic which it is, and how one does.
pub(crate) fn bad_word(alloc: Global, number: usize, words: &str) -> Result<String, AllocError> {
    let names = "skipped started finished aborted succeeded failed reporting dynamic files";
    format!(in alloc;
        "word {number} is bad: {words}\na word is NAME=N, and NAME, each once, one of {names}\n"
    )
}

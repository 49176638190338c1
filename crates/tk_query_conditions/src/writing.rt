//! Writing the text of a condition.
ghost use Rattle.std.specs.Prelude.{◌≡◌, ◌++◌, ◌∷◌, [], IfOk, OnOk, string_bytes, encode_utf8};
ghost use Rattle.tk_query_conditions.specs.Characters.{closing_bracket, comma, opening_bracket};
ghost use Rattle.tk_query_conditions.specs.Cond.{NoPairs, Nothing, cond_text, escaped, list_text, pairs_text};
ghost use Rattle.tk_query_conditions.specs.CondOf.{cond_of, pairs_from};
ghost use Rattle.tk_query_conditions.specs.steps.Reader.{conds_from};
ghost use Rattle.tk_query_conditions.specs.steps.Writing.{separator, word_of, operand_text};

use crate::conditions::Condition;
use std::alloc::{AllocError, Global};
use tk_ids::Text;

/// Writes a character of a text, escaped where it has to be.
fn push_character(out: &mut String, character: char) -> Result<(), AllocError>
    ensures { OnOk result (string_bytes out.new
        ≡ string_bytes out.old ++ escaped (encode_utf8 character)) }
{
    match character {
        '%' => out.push_str("%25"),
        '(' => out.push_str("%28"),
        ')' => out.push_str("%29"),
        ',' => out.push_str("%2C"),
        _ => out.push(character),
    }
}

/// Writes a text with its escapes.
fn push_escaped(out: &mut String, text: &str) -> Result<(), AllocError>
    ensures { OnOk result (string_bytes out.new ≡ string_bytes out.old ++ escaped text.now) }
{
    for character in text.chars() {
        push_character(out, character)?;
    }
    Ok(())
}

/// Writes a text in brackets, with its escapes.
fn push_text(out: &mut String, text: &str) -> Result<(), AllocError>
    ensures { OnOk result (string_bytes out.new
        ≡ string_bytes out.old ++ (opening_bracket ∷ escaped text.now ++ closing_bracket ∷ [])) }
{
    out.push_str("(")?;
    push_escaped(out, text)?;
    out.push_str(")")
}

/// Writes what stands before the item at this place in a list: a comma, except before the first.
fn push_separator(out: &mut String, at: usize) -> Result<(), AllocError>
    ensures { OnOk result (string_bytes out.new ≡ string_bytes out.old ++ separator at) }
{
    if at == 0 {
        return Ok(());
    }
    out.push_str(",")
}

/// Writes the tag and the value of a segment in brackets, with a comma between them.
fn push_segment(out: &mut String, tag: &str, value: &str) -> Result<(), AllocError>
    ensures { OnOk result (string_bytes out.new ≡ string_bytes out.old
        ++ (opening_bracket ∷ (escaped tag.now ++ comma ∷ escaped value.now)
        ++ closing_bracket ∷ [])) }
{
    out.push_str("(")?;
    push_escaped(out, tag)?;
    out.push_str(",")?;
    push_escaped(out, value)?;
    out.push_str(")")
}

/// Writes pairs in brackets, with a comma between each two texts.
fn push_pairs(out: &mut String, pairs: &[(Text, Text)]) -> Result<(), AllocError>
    ensures { OnOk result (string_bytes out.new ≡ string_bytes out.old
        ++ (opening_bracket ∷ pairs_text (pairs_from NoPairs pairs.now) ++ closing_bracket ∷ [])) }
{
    out.push_str("(")?;
    for (at, pair) in pairs.iter().enumerate() {
        push_separator(out, at)?;
        push_escaped(out, pair.0.as_str())?;
        out.push_str(",")?;
        push_escaped(out, pair.1.as_str())?;
    }
    out.push_str(")")
}

/// The word with which a condition's text begins.
fn word(condition: &Condition) -> &'static str
    ensures { result.now ≡ word_of (cond_of condition.now) }
{
    match condition {
        Condition::Test => "test",
        Condition::Container => "container",
        Condition::Engine => "engine",
        Condition::Id(_) => "id",
        Condition::Name(_) => "name",
        Condition::Segment(_, _) => "segment",
        Condition::Kind(_) => "kind",
        Condition::Skipped(_) => "skipped",
        Condition::Started => "started",
        Condition::Succeeded => "succeeded",
        Condition::Failed(_) => "failed",
        Condition::Aborted(_) => "aborted",
        Condition::Message(_) => "message",
        Condition::File(_) => "file",
        Condition::Entry(_) => "entry",
        Condition::All(_) => "all",
        Condition::Any(_) => "any",
        Condition::Not(_) => "not",
    }
}

/// Writes what stands in brackets after an atom's word, where something does.
///
/// It writes nothing of a condition that has members.
fn push_operand(out: &mut String, atom: &Condition) -> Result<(), AllocError>
    ensures { OnOk result (string_bytes out.new
        ≡ string_bytes out.old ++ operand_text (cond_of atom.now)) }
{
    match atom {
        Condition::Id(text) => push_text(out, text.as_str()),
        Condition::Name(text) => push_text(out, text.as_str()),
        Condition::Segment(tag, value) => push_segment(out, tag.as_str(), value.as_str()),
        Condition::Kind(kind) => push_text(out, kind.word()),
        Condition::Skipped(text) => push_text(out, text.as_str()),
        Condition::Failed(Some(text)) => push_text(out, text.as_str()),
        Condition::Aborted(Some(text)) => push_text(out, text.as_str()),
        Condition::Message(text) => push_text(out, text.as_str()),
        Condition::File(text) => push_text(out, text.as_str()),
        Condition::Entry(pairs) => push_pairs(out, pairs.as_slice()),
        _ => Ok(()),
    }
}

/// Writes a condition.
#[cycle(writing)]
fn push_condition(out: &mut String, condition: &Condition) -> Result<(), AllocError>
    ensures { OnOk result (string_bytes out.new
        ≡ string_bytes out.old ++ cond_text (cond_of condition.now)) }
{
    out.push_str(word(condition))?;
    match condition {
        Condition::All(members) => push_members(out, members),
        Condition::Any(members) => push_members(out, members),
        Condition::Not(member) => {
            out.push_str("(")?;
            push_condition(out, member)?;
            out.push_str(")")
        }
        _ => push_operand(out, condition),
    }
}

/// Writes conditions in brackets, with a comma between each two.
#[cycle(writing)]
fn push_members(out: &mut String, members: &[Condition]) -> Result<(), AllocError>
    ensures { OnOk result (string_bytes out.new ≡ string_bytes out.old
        ++ (opening_bracket ∷ list_text (conds_from Nothing members.now) ++ closing_bracket ∷ [])) }
{
    out.push_str("(")?;
    for (at, member) in members.iter().enumerate() {
        push_separator(out, at)?;
        push_condition(out, member)?;
    }
    out.push_str(")")
}

/// The text of a condition.
///
/// [`crate::read_condition`] reads it as the same condition where no more than `MAX_DEPTH` brackets
/// of `all(`, `any(` and `not(` are open at once.
///
/// # Errors
/// `AllocError` where a request for memory is refused.
pub fn write_condition(alloc: Global, condition: &Condition) -> Result<Text, AllocError>
    ensures { IfOk result (λ text. text ≡ cond_text (cond_of condition.now)) }
{
    let mut out = String::new(alloc);
    push_condition(&mut out, condition)?;
    Ok(Text::from(out))
}

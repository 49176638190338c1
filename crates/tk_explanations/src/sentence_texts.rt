//! The sentences about a lifecycle, written in pieces.
ghost use Rattle.std.specs.Prelude.{◌≡◌};
ghost use Rattle.tk_streams.specs.Pieces.{AddsTo};
ghost use Rattle.tk_query_lifecycle.specs.LifecycleTexts.{rule_text};
ghost use Rattle.tk_explanations.specs.Sentences.{cause_text, event_phrase, phrase, phrase_at, sentence_text, start_text, success_text};

use crate::pieces::{put_descriptor_of, put_name, put_number};
use crate::sentences::{Cause, EventAt, Sentence};
use tk_events::Kind;
use tk_query_lifecycle::LifecycleRule;
use tk_record::Record;
use tk_record_text::put_text;
use tk_streams::{Piece, Target};

// What an event of the kind did, said of its descriptor.
fn phrase_of(kind: Kind) -> &'static str
    ensures { result.now ≡ phrase kind }
{
    match kind {
        Kind::Dynamic => "was registered",
        Kind::Skipped => "was skipped",
        Kind::Started => "started",
        Kind::Finished => "finished",
        Kind::Reporting => "published entries",
        Kind::File => "published a file",
    }
}

fn put_phrase_at<T: Target>(piece: &mut Piece, target: &mut T, event: EventAt)
    ensures { AddsTo T.contents T.broken target.old target.new piece.old piece.new
        (phrase_at event) }
{
    piece.put(target, phrase_of(event.kind).as_bytes());
    piece.put(target, b" at ");
    put_number(piece, target, event.position as u64);
}

fn put_event_phrase<T: Target>(piece: &mut Piece, target: &mut T, record: &Record, event: EventAt)
    ensures { AddsTo T.contents T.broken target.old target.new piece.old piece.new
        (event_phrase «record».now event) }
{
    put_descriptor_of(piece, target, record, event.key);
    piece.put(target, b" ");
    put_phrase_at(piece, target, event);
}

// The word of a rule.
fn rule_word(rule: LifecycleRule) -> &'static str
    ensures { result.now ≡ rule_text rule }
{
    match rule {
        LifecycleRule::IdKnown => "id-known",
        LifecycleRule::ParentUnknown => "parent-unknown",
        LifecycleRule::ParentNotRunning => "parent-not-running",
        LifecycleRule::RanAlready => "ran-already",
        LifecycleRule::NotRunning => "not-running",
        LifecycleRule::ChildRunning => "child-running",
    }
}

fn put_cause<T: Target>(piece: &mut Piece, target: &mut T, record: &Record, cause: &Cause)
    ensures { AddsTo T.contents T.broken target.old target.new piece.old piece.new
        (cause_text «record».now cause.now) }
{
    match cause {
        Cause::StaticId(key) => {
            piece.put(target, b"a static descriptor has its id, with the name ");
            put_name(piece, target, record, *key);
        }
        Cause::RegisteredId(event) => {
            piece.put(target, b"its id was registered at ");
            put_number(piece, target, event.position as u64);
            piece.put(target, b", with the name ");
            put_name(piece, target, record, event.key);
        }
        Cause::UnknownParent(id) => {
            piece.put(target, b"no descriptor before has the id of its parent, ");
            put_text(piece, target, id.as_str());
        }
        Cause::ParentStep(event) => {
            piece.put(target, b"its parent ");
            put_event_phrase(piece, target, record, *event);
        }
        Cause::ParentIdle(key) => {
            piece.put(target, b"its parent ");
            put_descriptor_of(piece, target, record, *key);
            piece.put(target, b" had not started");
        }
        Cause::OwnStep(event) => {
            put_phrase_at(piece, target, *event);
            piece.put(target, b" already");
        }
        Cause::Idle => piece.put(target, b"had not started"),
        Cause::ChildRan(event) => {
            piece.put(target, b"its child ");
            put_descriptor_of(piece, target, record, event.key);
            piece.put(target, b", which started at ");
            put_number(piece, target, event.position as u64);
            piece.put(target, b", still ran");
        }
        Cause::Rule(rule) => {
            piece.put(target, b"that breaks the rule ");
            piece.put(target, rule_word(*rule).as_bytes());
        }
    }
}

fn put_success<T: Target>(
    piece: &mut Piece,
    target: &mut T,
    record: &Record,
    finish: Option<EventAt>,
)
    ensures { AddsTo T.contents T.broken target.old target.new piece.old piece.new
        (success_text «record».now finish) }
{
    if let Some(event) = finish {
        piece.put(target, b", but its parent ");
        put_descriptor_of(piece, target, record, event.key);
        piece.put(target, b" succeeded at ");
        put_number(piece, target, event.position as u64);
    }
}

fn put_start<T: Target>(piece: &mut Piece, target: &mut T, start: Option<EventAt>)
    ensures { AddsTo T.contents T.broken target.old target.new piece.old piece.new
        (start_text start) }
{
    match start {
        Some(event) => {
            piece.put(target, b" started at ");
            put_number(piece, target, event.position as u64);
            piece.put(target, b" and never finished");
        }
        None => piece.put(target, b" started and never finished"),
    }
}

/// Adds a sentence.
pub(crate) fn put_sentence<T: Target>(
    piece: &mut Piece,
    target: &mut T,
    record: &Record,
    sentence: &Sentence,
)
    ensures { AddsTo T.contents T.broken target.old target.new piece.old piece.new
        (sentence_text «record».now sentence.now) }
{
    match sentence {
        Sentence::Breaks(event, cause) => {
            put_event_phrase(piece, target, record, *event);
            piece.put(target, b", but ");
            put_cause(piece, target, record, cause);
        }
        Sentence::NeverFinished(key, start) => {
            put_descriptor_of(piece, target, record, *key);
            put_start(piece, target, *start);
        }
        Sentence::NeverRan(key, finish) => {
            put_descriptor_of(piece, target, record, *key);
            piece.put(target, b" neither started nor was skipped");
            put_success(piece, target, record, *finish);
        }
    }
}

//! The events of the descriptors that an explanation names.

ghost use Rattle.std.specs.Prelude.{IfErr};
ghost use Rattle.tk_expectations.specs.Failures.{IsFault};

use crate::failures::Failure;
use crate::lists::add_list;
use std::alloc::{AllocError, Global};
use tk_record::{Events, Record};
use tk_record_text::read_number;

// Reads the position with which the row of an event begins: after four blanks, before a colon.
fn position_of(row: &str) -> Option<usize> {
    let (number, _) = row.strip_prefix("    ")?.split_once(": ")?;
    let position = read_number(number, u64::MAX)?;
    Some(position as usize)
}

// Finds the key of the event of which a line of an explanation is the row.
fn key_of(record: &Record, line: &str) -> Option<u32> {
    let event = record.entry(position_of(line)?)?;
    Some(event.key)
}

fn add_key(keys: &mut Vec<u32>, key: u32) -> Result<(), AllocError> {
    if !keys.contains(&key) {
        keys.push(key)?;
    }
    Ok(())
}

// Lists the keys of the events of which an explanation has rows, each once.
fn keys_of(alloc: Global, record: &Record, explanation: &str) -> Result<Vec<u32>, AllocError> {
    let mut keys = Vec::new(alloc);
    for line in explanation.lines() {
        if let Some(key) = key_of(record, line) {
            add_key(&mut keys, key)?;
        }
    }
    Ok(keys)
}

// Lists the events of each of the keys.
fn events_of_keys(alloc: Global, record: &Record, keys: &[u32]) -> Result<String, Failure>
    ensures { IfErr result IsFault }
{
    let events = Events::all(alloc, record)?;
    let mut text = String::new(alloc);
    for key in keys {
        add_list(&mut text, alloc, &events.by_key(alloc, *key)?)?;
    }
    Ok(text)
}

/// Lists the events of each descriptor of whose events an explanation has rows.
pub(crate) fn events_of_named(
    alloc: Global,
    record: &Record,
    explanation: &[u8],
) -> Result<String, Failure>
    ensures { IfErr result IsFault }
{
    let keys = keys_of(alloc, record, str::from_utf8(explanation)?)?;
    let text = events_of_keys(alloc, record, &keys)?;
    if text.is_empty() {
        return Ok(text);
    }
    let heading = "all events of these descriptors:\n";
    Ok(format!(in alloc; "{heading}{text}")?)
}

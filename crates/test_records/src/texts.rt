//! Record texts that are read and written again, tails and fields.
use std::alloc::{AllocError, Global};
use test_support::{is_written_as, record_of, two_locked_tests, two_tests};
use tk_events::{Kind, Payload};
use tk_ids::Text;
use tk_record::EntryView;
use tk_record_text::{write_field, write_tail};

// The lines of each tail of version 1, with escapes and without.
fn each_tail() -> &'static str {
    "N|B|[engine:a%2Fb]|\\\\\\p\\n\nE|1|65536|0|dynamic|T|[engine:a%2Fb]/[d:1]|one\nE|1|65536|1|start\nE|2|0|2|skip|a\\pb\nE|0|0|3|finish|ok\nE|0|0|4|finish|abort\nE|0|0|5|finish|abort|\nE|0|0|6|finish|fail\nE|0|0|18446744073709551615|finish|fail|\\n\nE|15|65536|0|report\nE|15|65536|0|report|a|1|b|\n"
}

// The tails of files, and no lock.
fn files() -> &'static str {
    "N|T|[engine:e]|e\nE|1|0|0|start\nE|1|0|1|file|out/log.txt\nE|1|0|2|file|a\\pb\n"
}

// Whether the record of a text is written as that other text.
fn is_read_and_written_as(alloc: Global, text: &[u8], written: &[u8]) -> bool {
    match record_of(alloc, text) {
        Some(record) => is_written_as(alloc, &record, written),
        None => false,
    }
}

// Whether lines that are read in a version, with the end that it asks for, are written in version 2.
fn is_renewed(alloc: Global, version: char, lines: &str, end: &str) -> Result<bool, AllocError> {
    let text = format!(in alloc; "testkit-record|{version}\n{lines}{end}")?;
    let written = format!(in alloc; "testkit-record|2\n{lines}")?;
    Ok(is_read_and_written_as(alloc, text.as_bytes(), written.as_bytes()))
}

#[test]
fn texts_written_again(rt: HostRuntime) {
    assert!(rt; is_read_and_written_as(rt.alloc(), two_tests(), two_tests()));
    assert!(rt; is_read_and_written_as(rt.alloc(), two_locked_tests(), two_locked_tests()));
}

#[test]
fn texts_of_each_version(rt: HostRuntime) {
    assert!(rt; is_renewed(rt.alloc(), '1', each_tail(), "") == Ok(true));
    assert!(rt; is_renewed(rt.alloc(), '2', files(), "") == Ok(true));
    assert!(rt; is_renewed(rt.alloc(), '3', files(), "Z|3\n") == Ok(true));
}

// A long reason of a skip.
fn long_reason(alloc: Global) -> Result<Payload, AllocError> {
    Ok(Payload::Reason(Text::from("x".repeat(alloc, 100_000)?)))
}

// How many bytes the tail of a skip has that has this reason.
fn bytes_of_tail(alloc: Global, payload: &Payload) -> Option<usize> {
    let skip = EntryView {
        worker: 1,
        kind: Kind::Skipped,
        key: 0,
        stamp: 0,
        payload,
    };
    Some(write_tail(alloc, &skip).ok()?.len())
}

#[test]
fn a_long_tail(rt: HostRuntime) {
    let bytes = match long_reason(rt.alloc()) {
        Ok(payload) => bytes_of_tail(rt.alloc(), &payload),
        Err(_) => None,
    };
    assert!(rt; bytes == Some(100_005));
}

fn is_field(alloc: Global, text: &str, field: &str) -> bool {
    match write_field(alloc, text) {
        Ok(written) => written.as_str() == field,
        Err(_) => false,
    }
}

#[test]
fn a_field(rt: HostRuntime) {
    assert!(rt; is_field(rt.alloc(), "a|b\\c\nd\rä", "a\\pb\\\\c\\nd\rä"));
}

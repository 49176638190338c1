//! Conditions under JUnit's names, and long texts of conditions.
use std::alloc::{AllocError, Global};
use tk_ids::Text;
use tk_query_conditions::{Condition, read_condition, write_condition};

// (Compared where no value is dropped, which is proved far sooner.)
fn is_same(written: &str, text: &str) -> bool {
    written == text
}

fn is_text(written: Result<Text, AllocError>, text: &str) -> Option<bool> {
    match written {
        Ok(written) => Some(is_same(written.as_str(), text)),
        Err(_) => None,
    }
}

// Whether a constructor's condition has this text; none where memory was refused.
fn is_made_as(alloc: Global, made: Result<Condition, AllocError>, text: &str) -> Option<bool> {
    match made {
        Ok(condition) => is_text(write_condition(alloc, &condition), text),
        Err(_) => None,
    }
}

// Whether the conditions on descriptors have their texts.
fn name_descriptors(alloc: Global) -> Option<bool> {
    let test = is_made_as(alloc, Condition::test(alloc, "x"), "all(test,id(x))")?;
    let container = Condition::container(alloc, "x");
    let container = is_made_as(alloc, container, "all(container,id(x))")?;
    let dynamic = Condition::dynamic_test_registered(alloc, "x");
    let dynamic = is_made_as(alloc, dynamic, "all(kind(dynamic),id(x))")?;
    let name = Condition::display_name(alloc, "a(b)");
    let name = is_made_as(alloc, name, "name(a%28b%29)")?;
    let segment = Condition::segment(alloc, "t", "a,b");
    let segment = is_made_as(alloc, segment, "segment(t,a%2Cb)")?;
    Some(test && container && dynamic && name && segment)
}

// Whether the conditions on finishes and skips have their texts.
fn name_ends(alloc: Global) -> Option<bool> {
    let failed = Condition::finished_with_failure(alloc, Some(""));
    let failed = is_made_as(alloc, failed, "failed()")?;
    let aborted = Condition::aborted_with_reason(alloc, None);
    let aborted = is_made_as(alloc, aborted, "aborted")?;
    let skipped = Condition::skipped_with_reason(alloc, "off");
    let skipped = is_made_as(alloc, skipped, "skipped(off)")?;
    let message = Condition::message_contains(alloc, "m");
    let message = is_made_as(alloc, message, "message(m)")?;
    let succeeded = Ok(Condition::finished_successfully());
    let succeeded = is_made_as(alloc, succeeded, "succeeded")?;
    Some(failed && aborted && skipped && message && succeeded)
}

// The event of a test that finished, as a list of two conditions.
fn finished_test(alloc: Global) -> Result<Condition, AllocError> {
    let both = vec![in alloc; Condition::Test, Condition::finished_successfully()]?;
    Ok(Condition::event(both))
}

// Whether the conditions on entries and files, and on a whole event, have their texts.
fn name_others(alloc: Global) -> Option<bool> {
    let entry = Condition::report_entry(alloc, &[("a", "1,2"), ("b", "")]);
    let entry = is_made_as(alloc, entry, "entry(a,1%2C2,b,)")?;
    let file = Condition::file_entry(alloc, "out/log.txt");
    let file = is_made_as(alloc, file, "file(out/log.txt)")?;
    let event = is_made_as(alloc, finished_test(alloc), "all(test,succeeded)")?;
    Some(entry && file && event)
}

/// Whether each constructor's condition has its text; none where memory was refused.
pub(crate) fn make_conditions(alloc: Global) -> Option<bool> {
    Some(name_descriptors(alloc)? && name_ends(alloc)? && name_others(alloc)?)
}

// Whether a text is read, and written again as it was.
fn is_written_again(alloc: Global, text: &str) -> bool {
    match read_condition(alloc, text) {
        Ok(condition) => is_made_as(alloc, Ok(condition), text) == Some(true),
        Err(_) => false,
    }
}

// A text of `count` units between a head and a tail.
fn repeated(
    alloc: Global,
    head: &str,
    unit: &str,
    count: usize,
    tail: &str,
) -> Result<String, AllocError> {
    let mut text = String::from_str(alloc, head)?;
    for _ in 0..count {
        text.push_str(unit)?;
    }
    text.push_str(tail)?;
    Ok(text)
}

/// Texts have no limit: an atom of more than 1 MiB, and 65,536 atoms in a list.
#[test]
fn long_conditions(rt: HostRuntime) -> Result<(), AllocError> {
    let alloc = rt.alloc();
    let name = repeated(alloc, "name(", "abcdefgh", 150_000, ")")?;
    assert!(rt; is_written_again(alloc, name.as_str()));
    let list = repeated(alloc, "any(test", ",started", 65_535, ")")?;
    assert!(rt; is_written_again(alloc, list.as_str()));
    Ok(())
}

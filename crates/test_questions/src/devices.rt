//! Devices that pass one byte a call and break at some call, at each call in turn.
use std::alloc::{AllocError, Global};
use test_support::{OneByteSource, OneByteTarget, two_tests, two_tests_report};
use testkit_questions::{AskFault, ask};
use tk_record_text::ReadFault;
use tk_streams::{ByteSource, ByteTarget, Source, Target};

/// The device that broke while a question was answered.
#[derive(Clone, Copy, PartialEq, Eq)]
enum Device {
    Source,
    Target,
}

fn device_of(answer: &Result<bool, AskFault>) -> Option<Device> {
    match answer {
        Err(AskFault::Read(ReadFault::Device)) => Some(Device::Source),
        Err(AskFault::Device) => Some(Device::Target),
        _ => None,
    }
}

// Asks a question, and tells which device broke, where the answer says so.
fn broken_device<S: Source, T: Target>(
    alloc: Global,
    words: &[String],
    source: &mut S,
    target: &mut T,
) -> Option<Device> {
    let answer = ask(alloc, words, source, target);
    let device = device_of(&answer);
    drop(answer);
    device
}

fn words_of(alloc: Global, line: &str) -> Result<Vec<String>, AllocError> {
    let mut words = Vec::new(alloc);
    for word in line.split(' ') {
        words.push(String::from_str(alloc, word)?)?;
    }
    Ok(words)
}

// Whether a question about a source that breaks at a call is answered so, with nothing written.
fn reading_breaks(alloc: Global, words: &[String], call: usize) -> bool {
    let mut source = OneByteSource::new(two_tests(), call);
    let mut target = ByteTarget::new(alloc);
    let device = broken_device(alloc, words, &mut source, &mut target);
    device == Some(Device::Source) && target.bytes().is_empty()
}

/// The call after the last byte answers that the end is reached.
#[test]
fn reading_at_each_call(rt: HostRuntime) -> Result<(), AllocError> {
    let words = words_of(rt.alloc(), "stats")?;
    for call in 0..=two_tests().len() {
        assert!(rt;
            reading_breaks(rt.alloc(), words.as_slice(), call),
            "{call}"
        );
    }
    assert!(rt; !reading_breaks(rt.alloc(), words.as_slice(), two_tests().len() + 1));
    Ok(())
}

// Whether a question about a text is answered without a read after the one that gives its end.
fn ends_once(alloc: Global, words: &[String], text: &[u8]) -> bool {
    let mut source = OneByteSource::new(text, text.len() + 1);
    broken_device(alloc, words, &mut source, &mut ByteTarget::new(alloc)).is_none()
        && !source.is_broken()
}

/// A source that breaks after its end is not asked again, also at a text that is refused.
#[test]
fn reading_the_end_once(rt: HostRuntime) -> Result<(), AllocError> {
    let words = words_of(rt.alloc(), "stats")?;
    let text = two_tests();
    let cut = &text[..text.len().saturating_sub(1)];
    for text in [text, cut, b"x\n", b"testkit-record|"].as_slice() {
        assert!(rt; ends_once(rt.alloc(), words.as_slice(), text));
    }
    Ok(())
}

// Whether a question whose target breaks after `bytes` bytes is answered so, and these bytes of
// its answer went out.
fn writing_breaks(alloc: Global, words: &[String], text: &[u8], bytes: usize) -> bool {
    let mut target = OneByteTarget::new(alloc, bytes);
    let device = broken_device(alloc, words, &mut ByteSource::new(two_tests()), &mut target);
    let taken = target.taken();
    device == Some(Device::Target) && taken.len() == bytes && text.starts_with(taken)
}

// Whether the target breaks at each call before the last byte went out, and not after it.
fn writing_breaks_at_each_call(alloc: Global, words: &[String], text: &[u8]) -> bool {
    for bytes in 0..text.len() {
        if !writing_breaks(alloc, words, text, bytes) {
            return false;
        }
    }
    !writing_breaks(alloc, words, text, text.len())
}

fn collision() -> &'static [u8] {
    b"no 0 1\n[engine:e] \"e\" (0 to 4) and [engine:e]/[t:1] \"one\" (1 to 2) overlap\n    0: E|0|0|0|start   [engine:e] \"e\"\n    1: E|1|1|1|start   [engine:e]/[t:1] \"one\"\n    2: E|1|1|2|finish|fail|boom   [engine:e]/[t:1] \"one\"\n    4: E|0|0|9|finish|ok   [engine:e] \"e\"\n"
}

#[test]
fn writing_at_each_call(rt: HostRuntime) -> Result<(), AllocError> {
    let alloc = rt.alloc();
    let report = words_of(alloc, "report")?;
    assert!(rt; writing_breaks_at_each_call(alloc, report.as_slice(), two_tests_report()));
    let explain = words_of(alloc, "explain exclusive all()")?;
    assert!(rt; writing_breaks_at_each_call(alloc, explain.as_slice(), collision()));
    Ok(())
}

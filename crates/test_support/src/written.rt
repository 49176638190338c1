//! What a writer answered, beside what its target took.
use crate::devices::OneByteTarget;
use std::alloc::Global;
use tk_record::Record;
use tk_record_text::{WriteFault, write_record};
use tk_streams::{ByteTarget, Target};

/// Returns whether a writer wrote this text; none where memory was refused to it, or to the target,
/// which breaks then.
pub fn is_written(
    answer: Result<(), WriteFault>,
    target: &ByteTarget,
    text: &[u8],
) -> Option<bool> {
    match answer {
        Ok(()) => Some(target.bytes() == text),
        Err(WriteFault::Memory) if target.bytes().is_empty() => None,
        Err(WriteFault::Device) if target.is_broken() => None,
        Err(_) => Some(false),
    }
}

/// Returns whether a record is written as this text.
pub fn is_written_as(alloc: Global, record: &Record, text: &[u8]) -> bool {
    let mut target = ByteTarget::new(alloc);
    write_record(alloc, record, &mut target).is_ok() && target.bytes() == text
}

/// Returns whether a target that broke got this number of bytes of a text, and the writer answered
/// so.
pub fn is_cut(
    answer: Result<(), WriteFault>,
    target: &OneByteTarget,
    text: &[u8],
    bytes: usize,
) -> bool {
    answer == Err(WriteFault::Device)
        && target.is_broken()
        && target.taken().len() == bytes
        && text.starts_with(target.taken())
}

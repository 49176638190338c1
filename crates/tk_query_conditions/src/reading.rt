//! Reading a condition.
ghost use Rattle.tk_query_conditions.specs.Answer.{IsReadAs};

use crate::conditions::Condition;
use crate::faults::{CondFault, MAX_DEPTH};
use crate::readers::Reader;
use std::alloc::Global;

/// The condition that a text spells.
///
/// # Errors
/// `Deep` where more than `MAX_DEPTH` brackets are open somewhere in the longest prefix of the text
/// with which a condition's text begins, else `BadAtom` with the length of that prefix in bytes,
/// where the text is no condition's.
pub fn read_condition(alloc: Global, text: &str) -> Result<Condition, CondFault>
    ensures { IsReadAs text.now result }
{
    let bytes = text.as_bytes();
    let mut reader = Reader::new(alloc);
    for (at, byte) in bytes.iter().enumerate() {
        reader = match reader.feed(alloc, *byte)? {
            Some(next) => next,
            None => return Err(CondFault::BadAtom(at)),
        };
        if reader.depth() > MAX_DEPTH {
            drop(reader);
            return Err(CondFault::Deep);
        }
    }
    match reader.end() {
        Some(condition) => Ok(condition),
        None => Err(CondFault::BadAtom(bytes.len())),
    }
}

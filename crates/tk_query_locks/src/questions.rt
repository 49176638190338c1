//! Whether executions that conflict over a lock kept away from each other.
ghost use Rattle.std.specs.Prelude.{IfOk};
ghost use Rattle.tk_query_locks.specs.LockAnswers.{IsLockAnswer};

use crate::answers::LockAnswer;
use crate::holders::Holders;
use std::alloc::{AllocError, Global};
use tk_record::Events;

/// Whether executions that conflict over a lock kept away from each other; `NoPair` where none
/// conflict.
///
/// Two executions conflict over a lock that both of their descriptors hold, one of them for writing,
/// unless the id of one begins with the other's segments. An execution whose descriptor holds the
/// lock `global` for writing also conflicts, over it, with each test of which no descriptor is a
/// child. Two executions overlap where each starts before the other ends. An execution that never
/// finishes lasts to the end of the record. Skips are left out.
///
/// # Errors
/// `AllocError` where a request for memory is refused.
pub fn locks(alloc: Global, events: &Events) -> Result<LockAnswer, AllocError>
    ensures { IfOk result (IsLockAnswer events.now) }
{
    let mut holders = Holders::of(alloc, events)?;
    if let Some((first, second, name)) = holders.first_collision(alloc)? {
        return Ok(LockAnswer::No(first, second, name));
    }
    holders.forget_ends();
    let meeting = holders.first_meeting(alloc)?;
    if meeting.is_some() {
        Ok(LockAnswer::Yes)
    } else {
        Ok(LockAnswer::NoPair)
    }
}

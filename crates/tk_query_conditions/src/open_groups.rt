//! Open brackets of a condition that is read.
ghost use Rattle.std.specs.Prelude.{◌≡◌, IfOk, option_map, if◌then◌else◌, Some, None};
ghost use Rattle.tk_query_conditions.specs.CondOf.{cond_of};
ghost use Rattle.tk_query_conditions.specs.steps.Reader.{group_of};
ghost use Rattle.tk_query_conditions.specs.steps.Reading.{closed, closed_empty, joined};

use crate::conditions::Condition;
use std::alloc::{AllocError, Global};

/// An open bracket, with the members that are read.
#[derive(Drop)]
pub(crate) enum OpenGroup {
    Not,
    All(Vec<Condition>),
    Any(Vec<Condition>),
}

impl OpenGroup {
    /// The condition that a bracket and its last member are.
    pub(crate) fn close(self, alloc: Global, last: Condition) -> Result<Condition, AllocError>
        ensures { IfOk result (λ condition.
            cond_of condition ≡ closed (group_of self) (cond_of last)) }
    {
        match self {
            OpenGroup::Not => Ok(Condition::Not(Box::new(alloc, last)?)),
            OpenGroup::All(mut members) => {
                members.push(last)?;
                Ok(Condition::All(members))
            }
            OpenGroup::Any(mut members) => {
                members.push(last)?;
                Ok(Condition::Any(members))
            }
        }
    }

    /// The condition that a bracket without a member is.
    pub(crate) fn close_empty(self) -> Option<Condition>
        ensures { option_map cond_of result ≡ closed_empty (group_of self) }
    {
        match self {
            OpenGroup::Not => None,
            OpenGroup::All(members) => {
                if members.is_empty() {
                    Some(Condition::All(members))
                } else {
                    None
                }
            }
            OpenGroup::Any(members) => {
                if members.is_empty() {
                    Some(Condition::Any(members))
                } else {
                    None
                }
            }
        }
    }

    /// Adds a member, and answers whether another one may follow it.
    pub(crate) fn join(&mut self, member: Condition) -> Result<bool, AllocError>
        ensures { IfOk result (λ may_follow. joined (group_of self.old) (cond_of member)
            ≡ (if may_follow then Some (group_of self.new) else None)) }
    {
        match self {
            OpenGroup::Not => {
                drop(member);
                return Ok(false);
            }
            OpenGroup::All(members) => members.push(member)?,
            OpenGroup::Any(members) => members.push(member)?,
        }
        Ok(true)
    }
}

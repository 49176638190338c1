//! Finding the events that come nearest to a condition.
ghost use Rattle.tk_query_conditions.specs.CondOf.{cond_of};
ghost use Rattle.tk_query_nearest.specs.Nearness.{IsNearest};

use crate::candidates::{Candidate, Candidates, Nearest};
use crate::parts::distance_at;
use tk_query_conditions::Condition;
use tk_record::Events;

/// Finds the three events that come nearest to a condition, or all if there are fewer, of those
/// that stand at the position `first` or after it.
///
/// An event comes nearer than another one where fewer parts of the condition don't hold of it, or
/// as many, and its position is lower.
pub fn nearest(events: &Events, first: usize, condition: &Condition) -> Nearest
    ensures { IsNearest events.now first (cond_of condition.now) result }
{
    let record = events.record();
    let mut candidates = Candidates::Empty;
    let mut low = first;
    'events: while let Some(position) = events.flags().first_from(low) {
        let distance = distance_at(record, condition, position, candidates.counted_to());
        candidates = candidates.with(Candidate { distance, position });
        low = position + 1;
    }
    Nearest { candidates }
}

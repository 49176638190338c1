//! A constructor for the events of each kind but registrations, which a sink makes.
ghost use Rattle.std.specs.Prelude.{◌≡◌};
ghost use Rattle.tk_engine_unit_events.specs.Emitted.{file_published, finished, reported, skipped, started};

use tk_events::{Event, Kind, Outcome, Pairs, Payload};
use tk_ids::Text;

/// Makes the event that the descriptor with this key started.
pub fn started(key: u32, stamp: u64) -> Event
    ensures { result ≡ started key stamp }
{
    Event {
        kind: Kind::Started,
        key,
        stamp,
        payload: Payload::Nothing,
    }
}

/// Makes the event that a descriptor finished with this outcome.
pub fn finished(key: u32, stamp: u64, outcome: Outcome) -> Event
    ensures { result ≡ finished key stamp outcome }
{
    Event {
        kind: Kind::Finished,
        key,
        stamp,
        payload: Payload::Outcome(outcome),
    }
}

/// Makes the event that a descriptor was skipped for this reason.
pub fn skipped(key: u32, stamp: u64, reason: Text) -> Event
    ensures { result ≡ skipped key stamp reason }
{
    Event {
        kind: Kind::Skipped,
        key,
        stamp,
        payload: Payload::Reason(reason),
    }
}

/// Makes the event that an entry of these pairs was published.
///
/// It is lawful where the pairs' keys strictly increase in the order of their bytes.
pub fn reported(key: u32, stamp: u64, pairs: Pairs) -> Event
    ensures { result ≡ reported key stamp pairs }
{
    Event {
        kind: Kind::Reporting,
        key,
        stamp,
        payload: Payload::Report(pairs),
    }
}

/// Makes the event that the file at this path was published, lawful where the path isn't empty.
pub fn file_published(key: u32, stamp: u64, path: Text) -> Event
    ensures { result ≡ file_published key stamp path }
{
    Event {
        kind: Kind::File,
        key,
        stamp,
        payload: Payload::Path(path),
    }
}

//! Where a test runs.
use crate::clocks::EventClock;
use std::marker::PhantomData;
use std::sync::Wait;
use tk_engine_execute::Sink;
use tk_engine_unit_events::UnitRun;

/// Where a test runs: by which runtime, into which sink, in which run of its unit, and by which
/// clock.
///
/// The library picks it at each call of [`Tests::run`](crate::Tests::run) and
/// [`Body::run`](crate::Body::run). A function that is passed a `Reporter` has it as its bound.
pub trait Context {
    type Runtime: Wait;

    type Sink: Sink;

    type Run: UnitRun;

    type Clock: EventClock;
}

/// Where the tests of a unit run.
pub(crate) struct InUnit<R, S, K, C> {
    of: PhantomData<(R, S, K, C)>,
}

impl<R: Wait, S: Sink, K: UnitRun, C: EventClock> Context for InUnit<R, S, K, C> {
    type Runtime = R;

    type Sink = S;

    type Run = K;

    type Clock = C;
}

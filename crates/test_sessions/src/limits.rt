//! One sender emits as much as it may.
use crate::sessions::closed_after;

#[test]
fn as_many_events_as_may_be(rt: HostRuntime) {
    assert!(rt; closed_after(&rt, rt.alloc(), 1_048_576) == Some(Ok(1_048_576)));
}

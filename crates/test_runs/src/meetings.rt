//! Two that meet, and one that waits in vain.
use std::sync::Wait;
use std::thread::{Threads, join};
use std::time::Duration;
use tk_waiting::Meeting;

// Whether two threads meet, as each of them says.
fn meet<R: Threads + Wait + Sync>(rt: &R, meeting: &Meeting) -> (bool, bool) {
    join(rt, || meeting.wait(rt), || meeting.wait(rt))
}

#[test]
fn two_meet_again_and_again(rt: HostRuntime) {
    let meeting = Meeting::new(Duration::from_secs(20));
    for _ in 0..3 {
        assert!(rt; meet(&rt, &meeting) == (true, true));
    }
}

#[test]
fn one_alone_waits_in_vain(rt: HostRuntime) {
    let meeting = Meeting::new(Duration::from_millis(2));
    for _ in 0..3 {
        assert!(rt; !meeting.wait(&rt));
    }
    let patient = Meeting::new(Duration::from_secs(20));
    assert!(rt; meet(&rt, &patient) == (true, true));
}

//! Tests that write one resource run one at a time.
use crate::calls::{engine_of, results_of, statistics_of};
use std::sync::atomic::{AtomicU64, Ordering};
use tk_engine_execute::UnitFault;
use tk_engine_hierarchical::{Context, Reporter, Tests};
use tk_events::Outcome;

// Tests that count who is inside: none may find another there.
#[derive(Drop)]
struct Alone {
    inside: AtomicU64,
}

impl Tests for Alone {
    fn run<C: Context>(&self, _key: u32, _test: &mut Reporter<C>) -> Result<Outcome, UnitFault> {
        let mut alone = self.inside.fetch_add(1, Ordering::SeqCst) == 0;
        for _ in 0..1000 {
            alone = alone && self.inside.load(Ordering::SeqCst) == 1;
        }
        let _before = self.inside.fetch_sub(1, Ordering::SeqCst);
        Ok(if alone {
            Outcome::Successful
        } else {
            Outcome::Failed(None)
        })
    }
}

// Eight tests that may run beside one another, and write one resource.
fn plan() -> &'static [u8] {
    br#"{"version":2,"root":{"type":"container","segment":["engine","e"],"name":"e","children":[
{"type":"test","segment":["t","1"],"name":"1","mode":"concurrent","locks":[{"key":"db"}]},
{"type":"test","segment":["t","2"],"name":"2","mode":"concurrent","locks":[{"key":"db"}]},
{"type":"test","segment":["t","3"],"name":"3","mode":"concurrent","locks":[{"key":"db"}]},
{"type":"test","segment":["t","4"],"name":"4","mode":"concurrent","locks":[{"key":"db"}]},
{"type":"test","segment":["t","5"],"name":"5","mode":"concurrent","locks":[{"key":"db"}]},
{"type":"test","segment":["t","6"],"name":"6","mode":"concurrent","locks":[{"key":"db"}]},
{"type":"test","segment":["t","7"],"name":"7","mode":"concurrent","locks":[{"key":"db"}]},
{"type":"test","segment":["t","8"],"name":"8","mode":"concurrent","locks":[{"key":"db"}]}]}}"#
}

#[test]
fn bodies_that_conflict_run_alone(rt: HostRuntime) {
    let alloc = rt.alloc();
    let inside = AtomicU64::new(0);
    let results = results_of(&rt, alloc, engine_of(alloc, plan(), Alone { inside }), 4);
    // The tests, and the root.
    let succeeded = statistics_of(alloc, results).map(|statistics| statistics.succeeded);
    assert!(rt; succeeded == Some(9));
}

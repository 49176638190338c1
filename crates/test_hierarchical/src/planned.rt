//! What a plan says of an engine's nodes, beside what its tests do.
use crate::calls::{engine_of, is_recorded, results_of};
use tk_engine_execute::UnitFault;
use tk_engine_hierarchical::{Context, Reporter, Tests};
use tk_events::Outcome;

/// Tests that succeed and publish nothing.
#[derive(Drop)]
pub(crate) struct Silent;

impl Tests for Silent {
    fn run<C: Context>(&self, _key: u32, _test: &mut Reporter<C>) -> Result<Outcome, UnitFault> {
        Ok(Outcome::Successful)
    }
}

// A container, which aborts, with a test, a dynamic test that fails, and one that is skipped.
fn plan() -> &'static [u8] {
    br#"{"version":2,"root":{"type":"container","segment":["engine","p"],"name":"p","children":[
{"type":"container","segment":["c","1"],"name":"one","mode":"concurrent",
 "result":{"status":"aborted","message":"stop"},"entries":[[["k","v"]]],"files":["out"],
 "children":[
 {"type":"test","segment":["t","2"],"name":"two","entries":[[["k","v"]]],"files":["out"]}],
 "dynamic":[
 {"type":"test","segment":["d","3"],"name":"three",
  "result":{"status":"failed","message":"boom"},"entries":[[["k","v"]]],"files":["out"]},
 {"type":"test","segment":["d","4"],"name":"four","skip":"off"}]}]}}"#
}

// The record of a run by one worker. Each stamp is a position in the root's script.
fn record() -> &'static [u8] {
    b"testkit-record|2
N|C|[engine:p]|p
N|C|[engine:p]/[c:1]|one
N|T|[engine:p]/[c:1]/[t:2]|two
E|0|0|0|start
E|1|1|1|start
E|1|1|2|report|k|v
E|1|1|3|file|out
E|1|2|4|start
E|1|2|5|report|k|v
E|1|2|6|file|out
E|1|2|7|finish|ok
E|1|65536|8|dynamic|T|[engine:p]/[c:1]/[d:3]|three
E|1|65536|9|start
E|1|65536|10|report|k|v
E|1|65536|11|file|out
E|1|65536|12|finish|fail|boom
E|1|65537|13|dynamic|T|[engine:p]/[c:1]/[d:4]|four
E|1|65537|14|skip|off
E|1|1|15|finish|abort|stop
E|0|0|16|finish|ok
"
}

#[test]
fn each_event_of_the_plan(rt: HostRuntime) {
    let alloc = rt.alloc();
    let results = results_of(&rt, alloc, engine_of(alloc, plan(), Silent), 1);
    assert!(rt; is_recorded(alloc, results, record()));
}

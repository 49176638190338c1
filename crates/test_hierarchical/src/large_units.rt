//! Units with as many levels as a plan may have, and with many nodes.
use crate::calls::{chain, engine_of, results_of, statistics_of};
use crate::planned::Silent;
use std::alloc::{AllocError, Global};
use std::sync::Wait;
use std::thread::Threads;
use tk_record::Statistics;

// Whether each node of the plan of this text, which are this many, starts and succeeds in a run by
// one worker.
fn all_succeed<R: Threads + Wait + Sync>(
    rt: &R,
    alloc: Global,
    plan: Result<String, AllocError>,
    count: u64,
) -> bool {
    let Ok(plan) = plan else {
        return false;
    };
    let engine = engine_of(alloc, plan.as_bytes(), Silent);
    statistics_of(alloc, results_of(rt, alloc, engine, 1)) == Some(succeeding(count))
}

// The statistics of a run in which this many start and succeed.
fn succeeding(count: u64) -> Statistics {
    Statistics {
        skipped: 0,
        started: count,
        finished: count,
        aborted: 0,
        succeeded: count,
        failed: 0,
        reporting: 0,
        dynamic: 0,
        files: 0,
    }
}

#[test]
fn sixty_levels(rt: HostRuntime) {
    assert!(rt; all_succeed(&rt, rt.alloc(), chain(rt.alloc(), 60, ""), 60));
}

// A root with this many containers, which have a test each, and another test.
fn wide(alloc: Global, count: u32) -> Result<String, AllocError> {
    let root = r#"{"type":"container","segment":["engine","e"],"name":"e","children":["#;
    let test = r#"{"type":"test","segment":["t","t"],"name":"t"}"#;
    let mut plan = format!(in alloc; r#"{{"version":2,"root":{root}"#)?;
    for number in 0..count {
        let container = r#"{"type":"container","segment":["c",""#;
        let members = r#""],"name":"c","children":["#;
        plan.push_str(format!(in alloc; "{container}{number}{members}{test}]}},")?.as_str())?;
    }
    plan.push_str(test)?;
    plan.push_str("]}}")?;
    Ok(plan)
}

#[test]
fn many_nodes(rt: HostRuntime) {
    assert!(rt; all_succeed(&rt, rt.alloc(), wide(rt.alloc(), 1_000), 2_002));
}

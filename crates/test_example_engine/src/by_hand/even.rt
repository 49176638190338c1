//! The engine of one test by hand, of an even and of an odd number.
use engine_testkit::{Expect, Failure, execute};
use example_engine::by_hand::EvenEngine;
use std::alloc::Global;
use std::sync::Wait;
use std::thread::Threads;

const EVEN: [&str; 4] = [
    "all(engine,started)",
    "all(started,id([engine:even]/[test:number]),name(number))",
    "all(test,succeeded)",
    "all(engine,succeeded)",
];

const ODD: [&str; 4] = [
    "all(engine,started)",
    "all(started,id([engine:even]/[test:number]),name(number))",
    "all(test,failed)",
    "all(engine,succeeded)",
];

// Expects these events of a run of the engine of a number.
fn expect_events<R: Threads + Wait + Sync>(
    rt: &R,
    alloc: Global,
    number: u64,
    expected: &[&str],
) -> Result<(), Failure> {
    let engine = EvenEngine::new(alloc, number)?;
    let results = execute(rt, alloc, &engine, 1, 16)?;
    Expect::of(alloc, results.recorded())
        .lifecycle()?
        .exactly(expected)?;
    Ok(())
}

#[test]
fn even_numbers_succeed(rt: HostRuntime) -> Result<(), Failure> {
    expect_events(&rt, rt.alloc(), 4, &EVEN)?;
    expect_events(&rt, rt.alloc(), 5, &ODD)
}

//! The engine of two tests: what a run records.
use engine_testkit::{Expect, Failure, execute};
use example_engine::even_numbers;

// A condition for each event of a run.
const EXPECTED: [&str; 6] = [
    "all(engine,started)",
    "all(started,id([engine:even]/[number:4]),name(four))",
    "all(succeeded,name(four))",
    "all(started,id([engine:even]/[number:5]),name(five))",
    "all(failed(odd),name(five))",
    "all(engine,succeeded)",
];

#[test]
fn four_is_even_and_five_is_odd(rt: HostRuntime) -> Result<(), Failure> {
    let alloc = rt.alloc();
    let results = execute(&rt, alloc, &even_numbers(alloc)?, 1, 16)?;
    Expect::of(alloc, results.recorded())
        .lifecycle()?
        .exactly(&EXPECTED)?;
    Ok(())
}

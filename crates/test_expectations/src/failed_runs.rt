//! What a failure shows of a run that failed.
use std::alloc::{AllocError, Global};
use std::process::Abort;
use test_support::{is_debugged_as, starts};
use tk_engine_execute::{FailedRun, RunFault, UnitFault};
use tk_expectations::{Failure, MAX_SHOWN_EVENTS};
use tk_record::Record;
use tk_record_text::read_record;
use tk_streams::ByteSource;

/// The text of a record of one test, whose container has not finished.
fn three_events() -> &'static [u8] {
    b"testkit-record|2\nN|C|[engine:e]|e\nN|T|[engine:e]/[t:1]|one\nE|0|0|0|start\nE|1|1|1|start\nE|1|1|2|finish|fail|boom\n"
}

// Makes a run of which there is a record.
fn recorded_run(fault: RunFault, record: Record, is_complete: bool) -> FailedRun {
    FailedRun {
        fault,
        recorded: Some(record),
        closed: None,
        is_complete,
    }
}

// Asserts that this is shown of a run that failed.
fn assert_shown<R: Abort>(rt: &R, alloc: Global, failed: FailedRun, text: &str) {
    let failure = Failure::of_run(alloc, &failed);
    drop(failed);
    assert!(rt; is_debugged_as(alloc, &failure, text), "{failure:?}");
}

// Writes the lines of starts, from the first number up to the second one.
fn lines_of_starts(alloc: Global, first: u64, end: u64) -> Result<String, AllocError> {
    let mut text = String::new(alloc);
    for number in first..end {
        write!(
            text,
            "    {number} E|0|0|{number}|start   [engine:e] \"e\"\n"
        )?;
    }
    Ok(text)
}

#[test]
fn few_events_are_all_shown(rt: HostRuntime) -> Result<(), Failure> {
    let alloc = rt.alloc();
    let recorded = read_record(alloc, &mut ByteSource::new(three_events()))?;
    let fault = RunFault::Engine(1, UnitFault::Own(3));
    assert_shown(
        &rt,
        alloc,
        recorded_run(fault, recorded, true),
        "unit 1 failed: engine fault 3
all 3 events:
    0 E|0|0|0|start   [engine:e] \"e\"
    1 E|1|1|1|start   [engine:e]/[t:1] \"one\"
    2 E|1|1|2|finish|fail|boom   [engine:e]/[t:1] \"one\"
",
    );
    Ok(())
}

#[test]
fn of_many_events_the_last_are_shown(rt: HostRuntime) -> Result<(), Failure> {
    let alloc = rt.alloc();
    assert!(rt; MAX_SHOWN_EVENTS == 20);
    let lines = lines_of_starts(alloc, 5, 25)?;
    let text = format!(in alloc;
        "out of memory
the last 20 of 25 events:
{lines}memory was refused for an event: nothing after these was recorded
"
    )?;
    let Some(recorded) = starts(alloc, 25) else {
        return Err(Failure::from(AllocError));
    };
    let failed = recorded_run(RunFault::Memory, recorded, false);
    assert_shown(&rt, alloc, failed, text.as_str());
    Ok(())
}

#[test]
fn as_many_events_as_are_shown_are_all(rt: HostRuntime) -> Result<(), Failure> {
    let alloc = rt.alloc();
    let lines = lines_of_starts(alloc, 0, 20)?;
    let text = format!(in alloc; "no thread\nall 20 events:\n{lines}")?;
    let Some(recorded) = starts(alloc, 20) else {
        return Err(Failure::from(AllocError));
    };
    let failed = recorded_run(RunFault::Threads, recorded, true);
    assert_shown(&rt, alloc, failed, text.as_str());
    Ok(())
}

#[test]
fn without_a_record_the_fault_is_shown(rt: HostRuntime) {
    let failed = FailedRun {
        fault: RunFault::Workers,
        recorded: None,
        closed: None,
        is_complete: false,
    };
    assert_shown(&rt, rt.alloc(), failed, "workers must be 1 to 15\n");
}

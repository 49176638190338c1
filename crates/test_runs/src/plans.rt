//! How plans are cut, and what their units do.
ghost use Rattle.std.specs.Prelude.{All, ◌<◌, length};
ghost use Rattle.tk_plan.specs.Known.{IsKnown};

use std::alloc::{AllocError, Global};
use test_support::demo_plan;
use tk_events::Event;
use tk_ids::Text;
use tk_plan::{Act, Plan, Step};
use tk_plan_reading::read_plan;

// A root with one child, which runs in its thread.
fn same_thread() -> &'static [u8] {
    b"{\"version\":1,\"root\":{\"type\":\"container\",\"segment\":[\"engine\",\"e\"],\"name\":\"e\",\"children\":[
{\"type\":\"test\",\"segment\":[\"t\",\"1\"],\"name\":\"one\"}]}}"
}

fn one_test() -> &'static [u8] {
    b"{\"version\":1,\"root\":{\"type\":\"test\",\"segment\":[\"engine\",\"e\"],\"name\":\"e\"}}"
}

fn with_files() -> &'static [u8] {
    b"{\"version\":2,\"root\":{\"type\":\"test\",\"segment\":[\"engine\",\"e\"],\"name\":\"e\",\"files\":[\"a\",\"b\"]}}"
}

// Whether the units have these needs.
fn have_needs(plan: &Plan, words: &[u64]) -> bool {
    if plan.units().len() != words.len() {
        return false;
    }
    for unit in 0..plan.units().len() {
        if plan.need(unit as u32).word() != words[unit] {
            return false;
        }
    }
    true
}

// The key and the stamp of the one event.
fn only(events: &[Event]) -> Option<(u32, u64)> {
    match events {
        [event] => Some((event.key, event.stamp)),
        _ => None,
    }
}

// Whether one event stands before the units, the start of node 0, and one after them, its finish.
fn has_frame(alloc: Global, plan: &Plan, finish: u64) -> Result<bool, AllocError> {
    let start = only(plan.before(alloc)?.as_slice()) == Some((0, 0));
    Ok(start && only(plan.after(alloc)?.as_slice()) == Some((0, finish)))
}

fn are_steps(steps: &[Step], wanted: &[(u32, u64, Act)]) -> bool {
    if steps.len() != wanted.len() {
        return false;
    }
    for (step, (node, stamp, act)) in steps.iter().zip(wanted) {
        if step.node != *node || step.stamp != *stamp || step.act != *act {
            return false;
        }
    }
    true
}

// Whether the last unit has this script.
fn ends_with(alloc: Global, plan: &Plan, wanted: &[(u32, u64, Act)]) -> bool {
    match plan.units().len().checked_sub(1) {
        Some(unit) => match plan.script(alloc, unit as u32) {
            Ok(steps) => are_steps(steps.as_slice(), wanted),
            Err(_) => false,
        },
        None => false,
    }
}

// The script of a container and of the test that it registers.
fn of_dynamic_test() -> [(u32, u64, Act); 5] {
    [
        (6, 10, Act::Start),
        (7, 11, Act::Register { parent: 6 }),
        (7, 12, Act::Start),
        (7, 13, Act::Finish),
        (6, 14, Act::Finish),
    ]
}

// Whether the plan has one spine node, four units, and 16 events.
fn is_demo(plan: &Plan) -> bool {
    plan.spine() == &[0][..]
        && plan.units() == &[1, 3, 5, 6][..]
        && plan.total_events() == 16
        && have_needs(plan, &[0x1, 0x1, 0x1, 0xF1])
}

fn is_demo_cut(alloc: Global) -> Option<bool> {
    let plan = read_plan(alloc, demo_plan()).ok()?;
    let has_frame = has_frame(alloc, &plan, 15).ok()?;
    Some(is_demo(&plan) && has_frame && ends_with(alloc, &plan, &of_dynamic_test()))
}

#[test]
fn demo_plan_is_cut(rt: HostRuntime) {
    assert!(rt; is_demo_cut(rt.alloc()) == Some(true));
}

// Whether a text is a plan of one unit that gives `events` events, with nothing on the spine.
fn is_one_unit(alloc: Global, text: &[u8], events: u32) -> Option<bool> {
    let plan = read_plan(alloc, text).ok()?;
    let before = plan.before(alloc).ok()?.len();
    let is_bare = plan.spine().is_empty() && before == 0;
    Some(is_bare && have_needs(&plan, &[1]) && plan.total_events() == events)
}

#[test]
fn roots_off_the_spine(rt: HostRuntime) {
    for (text, events) in [(same_thread(), 4), (one_test(), 2), (with_files(), 4)] {
        assert!(rt;
            is_one_unit(rt.alloc(), text, events) == Some(true),
            "{events}"
        );
    }
}

// A root with a test that has an entry and a file, and a test that is skipped.
fn with_contents() -> &'static [u8] {
    b"{\"version\":2,\"root\":{\"type\":\"container\",\"segment\":[\"engine\",\"e\"],\"name\":\"e\",\"children\":[
{\"type\":\"test\",\"segment\":[\"t\",\"1\"],\"name\":\"one\",\"entries\":[[[\"k\",\"v\"]]],\"files\":[\"a\"]},
{\"type\":\"test\",\"segment\":[\"t\",\"2\"],\"name\":\"two\",\"skip\":\"off\"}]}}"
}

fn is_pair(pairs: &[(Text, Text)]) -> bool {
    match pairs {
        [(key, value)] => key.as_str() == "k" && value.as_str() == "v",
        _ => false,
    }
}

// Whether the plan gives the contents of a step.
fn has_contents(plan: &Plan, step: Step) -> bool
    requires { IsKnown plan.now.nodes step.node step.act }
{
    match step.act {
        Act::Skip => plan.reason(step.node) == Some("off"),
        Act::Report(entry) => is_pair(plan.pairs(step.node, entry)),
        Act::File(file) => plan.path(step.node, file) == "a",
        _ => true,
    }
}

// Whether the plan gives the contents of each of the steps.
fn have_contents(plan: &Plan, steps: &[Step]) -> bool
    requires { All (λ s. IsKnown plan.now.nodes s.node s.act) steps.now }
{
    for at in 0..steps.len() {
        if !has_contents(plan, steps[at]) {
            return false;
        }
    }
    true
}

// Whether the one unit has seven steps, and the plan gives their contents.
fn has_contents_of_unit(alloc: Global, plan: &Plan) -> bool {
    if plan.units().len() != 1 {
        return false;
    }
    match plan.script(alloc, 0) {
        Ok(steps) => steps.len() == 7 && have_contents(plan, steps.as_slice()),
        Err(_) => false,
    }
}

fn are_contents_given(alloc: Global) -> Option<bool> {
    let plan = read_plan(alloc, with_contents()).ok()?;
    Some(has_contents_of_unit(alloc, &plan))
}

#[test]
fn contents_of_nodes(rt: HostRuntime) {
    assert!(rt; are_contents_given(rt.alloc()) == Some(true));
}

//! Plans as texts, so that they can be compared.
ghost use Rattle.std.specs.Prelude.{◌<◌, length};
ghost use Rattle.tk_plan.specs.Cutting.{units_of};
ghost use Rattle.tk_plan.specs.Known.{IsKnown};
ghost use Rattle.tk_plan.specs.Trees.{forest};

use std::alloc::{AllocError, Global};
use tk_events::Event;
use tk_plan::{Plan, Step};

// What a plan says of a step and of its node.
fn show_step(alloc: Global, plan: &Plan, step: Step) -> Result<String, AllocError>
    requires { IsKnown plan.now.nodes step.node step.act }
{
    let payload = plan.payload(alloc, step)?;
    let name = plan.name(step.node);
    let segment = plan.segment(step.node);
    let dtype = plan.dtype(step.node);
    format!(in alloc; "{step:?} {name} {segment:?} {dtype:?} {payload:?}\n")
}

// Adds a unit: its need and its script.
fn push_unit(alloc: Global, plan: &Plan, unit: u32, text: &mut String) -> Result<(), AllocError>
    requires { unit < length (units_of (forest plan.now.nodes)) }
{
    let need = plan.need(unit).word();
    text.push_str(format!(in alloc; "{need}\n")?.as_str())?;
    let steps = plan.script(alloc, unit)?;
    for at in 0..steps.len() {
        text.push_str(show_step(alloc, plan, steps[at])?.as_str())?;
    }
    Ok(())
}

fn push_events(alloc: Global, events: &[Event], text: &mut String) -> Result<(), AllocError> {
    for event in events {
        text.push_str(format!(in alloc; "{event:?}\n")?.as_str())?;
    }
    Ok(())
}

fn push_table(alloc: Global, plan: &Plan, text: &mut String) -> Result<(), AllocError> {
    for descriptor in plan.table().iter() {
        text.push_str(format!(in alloc; "{descriptor:?}\n")?.as_str())?;
    }
    Ok(())
}

/// All that a plan says.
pub fn shown(alloc: Global, plan: &Plan) -> Result<String, AllocError> {
    let mut text = String::new(alloc);
    push_table(alloc, plan, &mut text)?;
    let spine = plan.spine();
    let units = plan.units();
    let total = plan.total_events();
    text.push_str(format!(in alloc; "{spine:?} {units:?} {total}\n")?.as_str())?;
    push_events(alloc, plan.before(alloc)?.as_slice(), &mut text)?;
    for unit in 0..plan.units().len() {
        push_unit(alloc, plan, unit as u32, &mut text)?;
    }
    push_events(alloc, plan.after(alloc)?.as_slice(), &mut text)?;
    Ok(text)
}

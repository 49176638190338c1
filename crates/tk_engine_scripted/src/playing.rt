//! Playing the script of a unit.
ghost use Rattle.std.specs.Prelude.{◌≡◌, ◌<◌, ◌+◌, ◌++◌, ℕ, List, [], length, take, All, OnOk, OnErr, IfOk, IfErr};
ghost use Rattle.tk_events.specs.declared.events.Event.{Event};
ghost use Rattle.tk_engine_execute.specs.Engines.{IsSameSender, Extends, ExtendsAs};
ghost use Rattle.tk_plan.specs.Known.{IsKnown};
ghost use Rattle.tk_plan.specs.Cutting.{script_of, units_of};
ghost use Rattle.tk_plan.specs.Numbers.{IsNumbered};
ghost use Rattle.tk_plan.specs.Planned.{IsPlanned};
ghost use Rattle.tk_plan.specs.Trees.{forest};
ghost use Rattle.tk_run_laws.specs.Scripts.{may, played, next_key};
ghost use Rattle.tk_engine_scripted.specs.steps.{kept, IsPlayed, IsRegistered, IsEmitted, begun};
ghost use Rattle.tk_engine_scripted.specs.Plays.{IsPlayFault};

use crate::keys::Keys;
use std::alloc::Global;
use std::sync::Wait;
use tk_engine_execute::{Sink, UnitFault};
use tk_events::Event;
use tk_plan::{Act, Plan, Step};
use tk_run_laws::laws::{nodes_are_found, scripts_are_playable};

// Emits the event of a step that is no registration.
fn emit_step<R: Wait, S: Sink>(
    rt: &R,
    alloc: Global,
    plan: &Plan,
    step: Step,
    key: u32,
    sink: &mut S,
) -> Result<(), UnitFault>
    requires known { IsKnown plan.now.nodes step.node step.act }
    ensures ok { OnOk result
        (IsEmitted plan.now.nodes (S.view sink.old) (S.view sink.new) step key) }
    ensures err { OnErr result (S.view sink.new ≡ S.view sink.old) }
    ensures cause { IfErr result IsPlayFault }
{
    let payload = plan.payload(alloc, step)?;
    let event = Event {
        kind: step.act.kind(),
        key,
        stamp: step.stamp,
        payload,
    };
    sink.emit(rt, event)?;
    Ok(())
}

// Registers the node of a step below the descriptor with that key, and returns its key.
fn register<R: Wait, S: Sink>(
    rt: &R,
    plan: &Plan,
    step: Step,
    above: u32,
    sink: &mut S,
) -> Result<u32, UnitFault>
    requires known { IsKnown plan.now.nodes step.node step.act }
    ensures ok { IfOk result (λ key.
        IsRegistered plan.now.nodes (S.view sink.old) (S.view sink.new) step above key) }
    ensures err { OnErr result (S.view sink.new ≡ S.view sink.old) }
    ensures cause { IfErr result IsPlayFault }
{
    let segment = plan.segment(step.node);
    let name = plan.name(step.node);
    let dtype = plan.dtype(step.node);
    Ok(sink.register(rt, above, segment, name, dtype, step.stamp)?)
}

// Plays a step: registers its node, or emits its event.
fn play<R: Wait, S: Sink>(
    rt: &R,
    alloc: Global,
    plan: &Plan,
    keys: &mut Keys,
    steps: &[Step],
    at: usize,
    sink: &mut S,
) -> Result<(), UnitFault>
    ghost sent: { List Event }
    requires at { at < length steps.now }
    requires planned { IsPlanned plan.now.nodes plan.now.table × IsNumbered plan.now.nodes }
    requires script { (unit : ℕ) × (steps.now ≡ script_of (forest plan.now.nodes) unit) }
    requires known { All (λ s. IsKnown plan.now.nodes s.node s.act) steps.now }
    requires table { (S.view sink.old).table ≡ plan.now.table }
    requires played { IsPlayed (begun plan.now.nodes plan.now.table (S.view sink.old).worker sent)
        (take at steps.now) (S.view sink.old).sent (kept keys.old) }
    ensures same { IsSameSender (S.view sink.old) (S.view sink.new) }
    ensures ok { OnOk result
        (IsPlayed (begun plan.now.nodes plan.now.table (S.view sink.old).worker sent)
        (take (at + 1) steps.now) (S.view sink.new).sent (kept keys.new)) }
    ensures err { OnErr result (Extends (S.view sink.old) (S.view sink.new)) }
    ensures cause { IfErr result IsPlayFault }
{
    scripts_are_playable();
    nodes_are_found();
    let step = steps[at];
    let statics = plan.table().len();
    match step.act {
        Act::Register { parent } => {
            let above = keys.key_of(statics, parent);
            let key = register(rt, plan, step, above, sink)?;
            keys.note(step.node, key)?;
            Ok(())
        }
        Act::Skip | Act::Start | Act::Report(_) | Act::File(_) | Act::Finish => {
            let key = keys.key_of(statics, step.node);
            emit_step(rt, alloc, plan, step, key, sink)?;
            Ok(())
        }
    }
}

// Plays all steps of a unit's script.
fn play_each<R: Wait, S: Sink>(
    rt: &R,
    alloc: Global,
    plan: &Plan,
    steps: &[Step],
    sink: &mut S,
) -> Result<(), UnitFault>
    ghost sent: { List Event }
    requires sent { (S.view sink.old).sent ≡ sent }
    requires planned { IsPlanned plan.now.nodes plan.now.table × IsNumbered plan.now.nodes }
    requires script { (unit : ℕ) × (steps.now ≡ script_of (forest plan.now.nodes) unit) }
    requires known { All (λ s. IsKnown plan.now.nodes s.node s.act) steps.now }
    requires table { (S.view sink.old).table ≡ plan.now.table }
    ensures same { IsSameSender (S.view sink.old) (S.view sink.new) }
    ensures ok { OnOk result ((S.view sink.new).sent ≡ sent
        ++ played plan.now.nodes (length plan.now.table) (next_key (S.view sink.old).worker sent)
        [] steps.now) }
    ensures err { OnErr result ((l : List Event) × ((S.view sink.new).sent ≡ sent ++ l)) }
    ensures cause { IfErr result IsPlayFault }
{
    let mut keys = Keys::new(alloc);
    for at in 0..steps.len() {
        play(rt, alloc, plan, &mut keys, steps, at, sink)?;
    }
    Ok(())
}

/// Plays a unit's script: registers and emits into `sink` what its steps say.
pub(crate) fn play_unit<R: Wait, S: Sink>(
    rt: &R,
    alloc: Global,
    plan: &Plan,
    unit: u32,
    sink: &mut S,
) -> Result<(), UnitFault>
    requires unit { unit < length (units_of (forest plan.now.nodes)) }
    requires table { (S.view sink.old).table ≡ plan.now.table }
    ensures same { IsSameSender (S.view sink.old) (S.view sink.new) }
    ensures ok { OnOk result (ExtendsAs (may plan.now.nodes plan.now.table unit)
        (S.view sink.old) (S.view sink.new)) }
    ensures err { OnErr result (Extends (S.view sink.old) (S.view sink.new)) }
    ensures cause { IfErr result IsPlayFault }
{
    // For the proof: the plan's invariant, which a call on the plan shows.
    let _table = plan.table();
    if let Some(steps) = plan.short_script(unit) {
        return play_each(rt, alloc, plan, &steps, sink);
    }
    let steps = plan.script(alloc, unit)?;
    play_each(rt, alloc, plan, steps.as_slice(), sink)
}

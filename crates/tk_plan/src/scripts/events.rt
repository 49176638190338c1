//! The events of the spine's nodes.
ghost use Rattle.std.specs.Prelude.{◌≡◌, ◌++◌, ◌∷◌, [], ◌+◌, ◌≤◌, ◌^◌, List, OnOk, IfOk, IsSome, length};
ghost use Rattle.tk_plan.specs.Events.{opening_events, finish_event};
ghost use Rattle.tk_plan.specs.StepEvents.{payload_of};
ghost use Rattle.tk_plan.specs.Known.{Does};
ghost use Rattle.tk_plan.specs.Weights.{publications};
ghost use Rattle.tk_plan.specs.declared.trees.nodes.NumberedNode.{NumberedNode};
ghost use Rattle.tk_base.specs.declared.limits.TheConstants.{MAX_EVENTS};

use crate::scripts::steps::Act;
use crate::trees::nodes::{Node, NumberedNode};
use std::alloc::{AllocError, Global};
use tk_events::{Event, Kind, Payload};

fn reason(node: &Node) -> Result<Payload, AllocError>
    requires { IsSome node.now.skip }
    ensures { IfOk result (λ p. p ≡ payload_of node.now Act.Skip) }
{
    match &node.skip {
        Some(reason) => Ok(Payload::Reason(reason.try_clone()?)),
        None => Ok(Payload::Nothing),
    }
}

/// What a node's event says beside its kind, as the node does `act`.
pub(crate) fn payload(alloc: Global, node: &Node, act: Act) -> Result<Payload, AllocError>
    requires { (nodes : List NumberedNode) × Does nodes node.now act }
    ensures { IfOk result (λ p. p ≡ payload_of node.now act) }
{
    match act {
        Act::Skip => reason(node),
        Act::Report(index) => {
            let entry = &node.entries.as_slice()[index as usize];
            Ok(Payload::Report(entry.try_clone(alloc)?))
        }
        Act::File(index) => {
            let path = &node.files.as_slice()[index as usize];
            Ok(Payload::Path(path.try_clone()?))
        }
        Act::Finish => Ok(Payload::Outcome(node.outcome.try_clone()?)),
        Act::Register { parent: _ } => Ok(Payload::Nothing),
        Act::Start => Ok(Payload::Nothing),
    }
}

/// Adds a node's start, its entries and its files, with their stamps.
pub(crate) fn push_opening_events(
    alloc: Global,
    numbered_node: &NumberedNode,
    stamp: u64,
    events: &mut Vec<Event>,
) -> Result<(), AllocError>
    requires { stamp + publications numbered_node.now.node ≤ MAX_EVENTS }
    ensures { OnOk result (events.new.items ≡ events.old.items
        ++ opening_events numbered_node.now.number stamp numbered_node.now.node) }
{
    events.push(Event {
        kind: Kind::Started,
        key: numbered_node.number,
        stamp,
        payload: Payload::Nothing,
    })?;
    let entries = numbered_node.node.entries.as_slice();
    'entries: for (index, entry) in entries.iter().enumerate() {
        events.push(Event {
            kind: Kind::Reporting,
            key: numbered_node.number,
            stamp: stamp + 1 + index as u64,
            payload: Payload::Report(entry.try_clone(alloc)?),
        })?;
    }
    let first = stamp + 1 + entries.len() as u64;
    'files: for (index, path) in numbered_node.node.files.as_slice().iter().enumerate() {
        events.push(Event {
            kind: Kind::File,
            key: numbered_node.number,
            stamp: first + index as u64,
            payload: Payload::Path(path.try_clone()?),
        })?;
    }
    Ok(())
}

/// Adds a node's finish.
pub(crate) fn push_finish_event(
    numbered_node: &NumberedNode,
    stamp: u64,
    events: &mut Vec<Event>,
) -> Result<(), AllocError>
    ensures { OnOk result (events.new.items ≡ events.old.items
        ++ finish_event numbered_node.now.number stamp numbered_node.now.node ∷ []) }
{
    events.push(Event {
        kind: Kind::Finished,
        key: numbered_node.number,
        stamp,
        payload: Payload::Outcome(numbered_node.node.outcome.try_clone()?),
    })?;
    Ok(())
}

//! Executions as lines with the ids of their descriptors, written in pieces.
ghost use Rattle.std.specs.Prelude.{◌≡◌, true, OnErr, OnOk, IsErrOf};
ghost use Rattle.std.specs.Io.KnownBytes.{Appends};
ghost use Rattle.std.specs.List.{flat_map};
ghost use Rattle.tk_streams.specs.Stream.{AppendsPrefix};
ghost use Rattle.tk_streams.specs.Pieces.{AddsTo};
ghost use Rattle.tk_explanations.specs.Explained.{IsExplained};
ghost use Rattle.tk_explanations.specs.Lists.{ExplainsExecutions, execution_head, listed_execution};

use crate::faults::ExplainFault;
use crate::pieces::put_id;
use std::alloc::Global;
use tk_query::{Execution, ExecutionIter};
use tk_record::{Events, Record};
use tk_streams::{Broken, Piece, ShortLine, Target};

// Makes the line of an execution up to the id, from its end to its start.
fn head_of(execution: Execution) -> ShortLine
    ensures { result ≡ execution_head execution }
{
    let mut head = ShortLine::new();
    head.push_front(b' ');
    head.push_front_number(execution.stop);
    head.push_front(b' ');
    head.push_front_number(execution.start);
    head.push_front(b' ');
    head.push_front_text(execution.ending.name());
    head.push_front(b' ');
    head.push_front_number(execution.key as u64);
    head
}

fn put_execution<T: Target>(
    piece: &mut Piece,
    target: &mut T,
    record: &Record,
    execution: Execution,
)
    ensures { AddsTo T.contents T.broken target.old target.new piece.old piece.new
        (listed_execution «record».now execution) }
{
    piece.put(target, head_of(execution).as_bytes());
    put_id(piece, target, record, execution.key);
    piece.put_byte(target, b'\n');
}

fn put_executions<T: Target>(
    piece: &mut Piece,
    target: &mut T,
    record: &Record,
    executions: ExecutionIter<'_>,
)
    ensures { AddsTo T.contents T.broken target.old target.new piece.old piece.new
        (flat_map (listed_execution «record».now) executions.entry) }
{
    'executions: for execution in executions {
        put_execution(piece, target, record, execution);
    }
}

fn write_executions<T: Target>(
    record: &Record,
    executions: ExecutionIter<'_>,
    target: &mut T,
) -> Result<(), Broken>
    ensures ok { OnOk result (Appends (T.contents target.old) (T.contents target.new)
        (flat_map (listed_execution «record».now) executions.entry)) }
    ensures err { OnErr result (AppendsPrefix (T.contents target.old) (T.contents target.new)
        (flat_map (listed_execution «record».now) executions.entry)) }
    ensures broken { OnErr result (T.broken target.new ≡ true) }
{
    let mut piece = Piece::new();
    put_executions(&mut piece, target, record, executions);
    piece.finish(target)
}

/// Writes a line for each execution that the events show, in the order of their ends: the key, the
/// ending, the two stamps, and the id of the descriptor. It always answers true, as a list is a
/// yes.
///
/// # Errors
/// `Memory` where a request for memory is refused, and `Device` where the target broke.
pub fn explain_executions<T: Target>(
    alloc: Global,
    events: Events<'_>,
    target: &mut T,
) -> Result<bool, ExplainFault>
    ensures written { IsExplained (ExplainsExecutions events.entry)
        (T.contents target.old) (T.contents target.new) result }
    ensures unwritten { IsErrOf result ExplainFault.Memory → target.new ≡ target.old }
    ensures device { IsErrOf result ExplainFault.Device → T.broken target.new ≡ true }
{
    let record = events.record();
    let executions = ExecutionIter::new(alloc, events)?;
    match write_executions(record, executions, target) {
        Ok(()) => Ok(true),
        Err(_) => Err(ExplainFault::Device),
    }
}

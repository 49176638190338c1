//! Executions as lines, written in pieces.
ghost use Rattle.std.specs.Prelude.{◌≡◌, true, OnErr, OnOk};
ghost use Rattle.std.specs.Io.KnownBytes.{Appends};
ghost use Rattle.std.specs.List.{flat_map};
ghost use Rattle.tk_streams.specs.Stream.{AppendsPrefix};
ghost use Rattle.testkit_questions.specs.Answers.{execution_line};
ghost use Rattle.tk_streams.specs.Pieces.{AddsTo};

use tk_query::{Execution, ExecutionIter};
use tk_streams::{Broken, Piece, ShortLine, Target};

// Makes the line of an execution, from its end to its start.
fn line_of(execution: Execution) -> ShortLine
    ensures { result ≡ execution_line execution }
{
    let mut line = ShortLine::new();
    line.push_front(b'\n');
    line.push_front_number(execution.stop);
    line.push_front(b' ');
    line.push_front_number(execution.start);
    line.push_front(b' ');
    line.push_front_text(execution.ending.name());
    line.push_front(b' ');
    line.push_front_number(execution.key as u64);
    line
}

fn put_executions<T: Target>(piece: &mut Piece, target: &mut T, executions: ExecutionIter<'_>)
    ensures { AddsTo T.contents T.broken target.old target.new piece.old piece.new
        (flat_map execution_line executions.entry) }
{
    'executions: for execution in executions {
        piece.put(target, line_of(execution).as_bytes());
    }
}

/// Writes the executions, a line each, in pieces.
///
/// # Errors
/// `Broken` where the target broke. A prefix of the lines was then written.
pub(crate) fn write_executions<T: Target>(
    executions: ExecutionIter<'_>,
    target: &mut T,
) -> Result<(), Broken>
    ensures ok { OnOk result (Appends (T.contents target.old) (T.contents target.new)
        (flat_map execution_line executions.entry)) }
    ensures err { OnErr result (AppendsPrefix (T.contents target.old) (T.contents target.new)
        (flat_map execution_line executions.entry)) }
    ensures broken { OnErr result (T.broken target.new ≡ true) }
{
    let mut piece = Piece::new();
    put_executions(&mut piece, target, executions);
    piece.finish(target)
}

//! The lines of a replay text that no record text has, without their line feeds.
ghost use Rattle.std.specs.Prelude.{◌≡◌, ◌∷◌, IfOk, MatchOption, None, Some};
ghost use Rattle.tk_record_text.specs.steps.Reading.{in_line};
ghost use Rattle.tk_queue_replay.specs.steps.Replay.{worker_of, workers_of, turn_of, turns_from, turns_of};

use crate::turns::Turn;
use std::alloc::{AllocError, Global};
use tk_base::MAX_WORKERS;
use tk_record_text::{Fields, read_u8};

// Reads the number of a worker, 1 to `workers`.
fn read_worker(field: &[u8], workers: u8) -> Option<u8>
    ensures { result ≡ worker_of workers field.now }
{
    let number = read_u8(field)?;
    if 0 < number && number <= workers {
        Some(number)
    } else {
        None
    }
}

/// Reads the line of the number of workers.
#[tactic(auto, unfolding(crate::specs::steps::Replay::workers_of))]
pub(crate) fn read_workers(line: &[u8]) -> Option<u8>
    ensures { result ≡ in_line workers_of line.now }
{
    let (letter, fields) = Fields::of(line).split()?;
    let (count, fields) = fields.split()?;
    if let Some(_) = fields.split() {
        return None;
    }
    if letter == b"W".as_slice() {
        read_worker(count, MAX_WORKERS)
    } else {
        None
    }
}

// Reads a turn of a session of `workers` workers.
fn read_turn(field: &[u8], workers: u8) -> Option<Turn>
    ensures { result ≡ turn_of workers field.now }
{
    if field == b"t".as_slice() {
        return Some(Turn::Take);
    }
    read_worker(field, workers).map(Turn::Worker)
}

// Reads the turns of these fields, one a field.
fn read_turn_fields(
    alloc: Global,
    fields: Fields<'_>,
    workers: u8,
) -> Result<Option<Vec<Turn>>, AllocError>
    ensures { IfOk result (λ turns.
        MatchOption turns (turns_from workers fields.entry ≡ None)
        (λ found. turns_from workers fields.entry ≡ Some found.items)) }
{
    let mut turns = Vec::new(alloc);
    let mut rest = fields;
    'turns: while let Some((field, more)) = rest.split() {
        let Some(turn) = read_turn(field, workers) else {
            return Ok(None);
        };
        turns.push(turn)?;
        rest = more;
    }
    Ok(Some(turns))
}

/// Reads the line of the turns, of a session of `workers` workers.
#[tactic(auto, unfolding(crate::specs::steps::Replay::turns_of))]
pub(crate) fn read_turns(
    alloc: Global,
    line: &[u8],
    workers: u8,
) -> Result<Option<Vec<Turn>>, AllocError>
    ensures { IfOk result (λ turns.
        MatchOption turns (in_line (turns_of workers) line.now ≡ None)
        (λ found. in_line (turns_of workers) line.now ≡ Some found.items)) }
{
    let Some((letter, fields)) = Fields::of(line).split() else {
        return Ok(None);
    };
    if letter == b"S".as_slice() {
        read_turn_fields(alloc, fields, workers)
    } else {
        Ok(None)
    }
}

//! Laws of replays, which hold of the definitions alone.
ghost use Rattle.tk_queue_replay.specs.Laws.{ReplaysCore, FaultyHasNoItem, AnswerIsUnique};

/// Shows that each moment of a replay is a state of the core, in which each worker sent what it
/// emitted, and whose items are those of the turns so far, in their order. Shows too that a turn is
/// faulty where its worker has no item for it.
pub fn replays_the_core()
    ensures moments { ReplaysCore }
    ensures faulty { FaultyHasNoItem }
{}

/// Shows that no input of `replay_text` has two answers, `Memory` aside.
pub fn answer_is_unique()
    ensures { AnswerIsUnique }
{}

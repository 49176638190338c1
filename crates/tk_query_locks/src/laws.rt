//! What the definition of the answer implies.
ghost use Rattle.tk_query_locks.specs.Laws.{LockAnswerIsUnique};

/// The same events have one answer.
pub fn lock_answer_is_unique()
    ensures { LockAnswerIsUnique }
{}

//! What the definitions of conditions' texts imply.
ghost use Rattle.std.specs.Prelude.{◌≡◌};
ghost use Rattle.tk_query_conditions.specs.declared.faults.TheConstants.{MAX_DEPTH};
ghost use Rattle.tk_query_conditions.specs.Laws.{AnswerIsUnique, TextIsUnique, TextIsRead};

/// No text has two answers.
pub fn answer_is_unique()
    ensures { AnswerIsUnique }
{}

/// No two conditions have one text.
pub fn text_is_unique()
    ensures { TextIsUnique }
{}

/// [`crate::read_condition`] reads what [`crate::write_condition`] writes as the same condition,
/// where no more brackets are open in it than may be.
pub fn text_is_read()
    ensures { TextIsRead }
{}

/// At most 32 brackets may be open at once.
pub fn limits()
    ensures { MAX_DEPTH ≡ 32 }
{}

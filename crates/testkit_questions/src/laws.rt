//! What the definitions of questions and of their answers imply.
ghost use Rattle.testkit_questions.specs.Laws.{AnswerIsUnique};

use tk_explanations::laws::explanations_are_unique;

/// The same words about the same input have one outcome.
pub fn answer_is_unique()
    ensures { AnswerIsUnique }
{
    explanations_are_unique();
}

//! What the definitions of the explanations imply.
ghost use Rattle.tk_explanations.specs.Laws.{ExplanationsAreUnique};

/// The same question about the same events has one explanation.
pub fn explanations_are_unique()
    ensures { ExplanationsAreUnique }
{}

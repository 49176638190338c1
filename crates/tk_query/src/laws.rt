//! What the definitions of the answers imply.
ghost use Rattle.tk_query.specs.Laws.{ExactIsUnique, LooseIsUnique, InOrderIsUnique, ListIsUnique, EndIsUnique, ExclusiveIsUnique};

/// The same events and the same conditions have one answer.
pub fn answer_is_unique()
    ensures exact { ExactIsUnique }
    ensures loose { LooseIsUnique }
    ensures in_order { InOrderIsUnique }
    ensures executions { ListIsUnique }
    ensures ends { EndIsUnique }
    ensures exclusive { ExclusiveIsUnique }
{}

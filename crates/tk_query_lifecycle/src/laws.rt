//! What the definition of a record's lifecycle implies.
ghost use Rattle.tk_query_lifecycle.specs.LifecycleLaws.{LifecycleIsUnique, BreakIsFinal, InOrderByItsEvents, KeptByItsEvents, KeptRootsRun};

/// A record has one lifecycle, and a record that breaks a rule breaks it whatever events follow.
pub fn lifecycle_is_unique()
    ensures one { LifecycleIsUnique }
    ensures broken { BreakIsFinal }
{}

/// No event of a record breaks a rule, and no key runs at its end, exactly where its ids, parents
/// and executions are in order. `Kept` is the answer where, in addition, each static root, and each
/// static child of a key that succeeds, starts or is skipped.
pub fn kept_by_its_events()
    ensures in_order { InOrderByItsEvents }
    ensures kept { KeptByItsEvents }
    ensures roots { KeptRootsRun }
{}

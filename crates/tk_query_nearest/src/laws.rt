//! What the definitions of members, parts and the nearest events imply.
ghost use Rattle.std.specs.Prelude.{◌≡◌, ◌^◌, ◌-◌};
ghost use Rattle.tk_query_nearest.specs.declared.candidates.TheConstants.{MAX_NEAREST};
ghost use Rattle.tk_query_nearest.specs.declared.parts.TheConstants.{MAX_DISTANCE};
ghost use Rattle.tk_query_nearest.specs.Laws.{LackingIsExact, NoneMissingHolds, NearestIsUnique};

/// What is lacking are the members that don't hold.
pub fn lacking_is_exact()
    ensures { LackingIsExact }
{}

/// A condition holds of an event exactly where none of its parts fails to hold.
pub fn none_missing_holds()
    ensures { NoneMissingHolds }
{}

/// The same events and the same condition have one list of nearest events.
pub fn nearest_is_unique()
    ensures { NearestIsUnique }
{}

/// At most three events are found, and what is missing is counted up to 2^64 - 1.
pub fn limits()
    ensures nearest { MAX_NEAREST ≡ 3 }
    ensures distance { MAX_DISTANCE ≡ 2 ^ 64 - 1 }
{}

//! The laws of the limits: each as a number.
ghost use Rattle.std.specs.Prelude.{◌≡◌};
ghost use Rattle.tk_base.specs.declared.limits.TheConstants.{MAX_WORKERS, MAX_EVENTS};

/// There are at most fifteen workers, and a worker emits at most 2^20 events.
pub fn limits()
    ensures workers { MAX_WORKERS ≡ 15 }
    ensures events { MAX_EVENTS ≡ 1048576 }
{}

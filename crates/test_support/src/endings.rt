//! How a call ended to which a request for memory may have been refused, and calls that are then made
//! once more.

/// How a call ended.
#[derive(Clone, Copy, PartialEq, Eq)]
pub enum Ending {
    /// It did what it had to do.
    Done,
    /// A request for memory was refused, and what the call was given is as it was.
    Refused,
    /// It did something else.
    Wrong,
}

/// Returns `Done` where that holds, and else `Wrong`.
pub fn done_if(is_done: bool) -> Ending {
    if is_done { Ending::Done } else { Ending::Wrong }
}

/// Returns `Refused` where that holds, and else `Wrong`.
pub fn refused_if(is_refused: bool) -> Ending {
    if is_refused {
        Ending::Refused
    } else {
        Ending::Wrong
    }
}

/// Returns whether a call is done, the second time where a request for memory was refused the first
/// time.
pub fn is_done<F: FnMut() -> Ending>(mut call: F) -> bool
    requires { F.IsAlwaysCallable call }
{
    match call() {
        Ending::Done => true,
        Ending::Refused => matches!(call(), Ending::Done),
        Ending::Wrong => false,
    }
}

/// Returns what a call answers, the second time where it answered nothing the first time, since a
/// request for memory was refused.
pub fn again_if_refused<T, F: FnMut() -> Option<T>>(mut call: F) -> Option<T>
    requires { F.IsAlwaysCallable call }
{
    match call() {
        None => call(),
        answer => answer,
    }
}

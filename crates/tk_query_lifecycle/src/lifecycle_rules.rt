//! The rules that a listener of an engine may rely on, and what a record keeps of them.
ghost use Rattle.std.specs.Prelude.{Some};
ghost use Rattle.tk_query_lifecycle.specs.LifecycleTexts.{lifecycle_text, rule_text};

use std::fmt;

/// The rules of the lifecycle, each named for what breaks it, in the order in which they are looked
/// at.
#[derive(Clone, Copy, Debug, PartialEq, Eq)]
pub enum LifecycleRule {
    /// An id is registered that a descriptor has already, static or registered.
    IdKnown,
    /// An id is registered below a parent's id that no descriptor has.
    ParentUnknown,
    /// An event is of a key whose id has a parent's id, and no key with that id runs.
    ParentNotRunning,
    /// A key starts or is skipped that was started or skipped earlier.
    RanAlready,
    /// A key finishes that doesn't run.
    NotRunning,
    /// A key finishes of which a child runs.
    ChildRunning,
}

/// The word of the rule.
impl fmt::Display for LifecycleRule {
    ghost output = { λ rule. Some (rule_text rule) };

    fn fmt<W: fmt::Write>(&self, f: &mut fmt::Formatter<W>) -> fmt::Result {
        match self {
            LifecycleRule::IdKnown => f.write_str("id-known"),
            LifecycleRule::ParentUnknown => f.write_str("parent-unknown"),
            LifecycleRule::ParentNotRunning => f.write_str("parent-not-running"),
            LifecycleRule::RanAlready => f.write_str("ran-already"),
            LifecycleRule::NotRunning => f.write_str("not-running"),
            LifecycleRule::ChildRunning => f.write_str("child-running"),
        }
    }
}

/// Whether a record keeps the lifecycle, and where it first doesn't.
#[derive(Clone, Copy, Debug, PartialEq, Eq)]
pub enum Lifecycle {
    /// No event breaks a rule, no key runs at the end, and each static key that is a root, or whose
    /// parent finishes successfully, starts or is skipped.
    Kept,
    /// The least position of an event that breaks a rule, and the first rule that it breaks.
    Broken(usize, LifecycleRule),
    /// No event breaks a rule, and this is the least key that runs at the end.
    Unfinished(u32),
    /// No event breaks a rule, no key runs at the end, and this is the least static key that
    /// neither starts nor is skipped, though it is a root or its parent finishes successfully.
    NeverRan(u32),
}

/// `yes`, or `no` and what comes first of the position and its rule, the key that doesn't end, and
/// the key that doesn't start.
impl fmt::Display for Lifecycle {
    ghost output = { λ lifecycle. Some (lifecycle_text lifecycle) };

    fn fmt<W: fmt::Write>(&self, f: &mut fmt::Formatter<W>) -> fmt::Result {
        match self {
            Lifecycle::Kept => f.write_str("yes"),
            Lifecycle::Broken(position, rule) => write!(f, "no {position} {rule}"),
            Lifecycle::Unfinished(key) => write!(f, "no end {key}"),
            Lifecycle::NeverRan(key) => write!(f, "no start {key}"),
        }
    }
}

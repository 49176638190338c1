//! Which descriptors of a record conflict over which locks.
ghost use Rattle.std.specs.Prelude.{◌≡◌, ◌↔◌, ℕ, List, Some, None, IsTrue, IfOk, IfSome, MatchOption, false, true};
ghost use Rattle.tk_events.specs.Event.{is_before};
ghost use Rattle.tk_record.specs.Entries.{desc};
ghost use Rattle.tk_query_locks.specs.Conflicts.{AreApart, ConflictOver, Holds, IsTestWithoutChild, Uses, Writes, global_name};
ghost use Rattle.tk_query_locks.specs.steps.Conflicts.{IsAtMost, IsDescribed, IsLeastLock};
ghost use Rattle.tk_query_locks.specs.steps.Parents.{IsUnwritten};

use crate::descent::are_apart;
use crate::parents::Parents;
use std::alloc::{AllocError, Global};
use std::marker::Model;
use tk_ids::{Descriptor, LockMode};
use tk_record::Record;

/// The name of the lock that each test without a child uses.
pub(crate) const GLOBAL: &str = "global";

/// Whether the descriptor holds the lock of this name for writing.
fn writes(descriptor: &Descriptor, name: &str) -> bool
    ensures { IsTrue result ↔ Writes name.now descriptor.now }
{
    for lock in descriptor.locks.as_slice() {
        if matches!(lock.mode, LockMode::ReadWrite) && lock.name.as_str() == name {
            return true;
        }
    }
    false
}

/// Whether the descriptor holds the lock of this name, for reading or for writing.
fn holds(descriptor: &Descriptor, name: &str) -> bool
    ensures { IsTrue result ↔ Holds name.now descriptor.now }
{
    for lock in descriptor.locks.as_slice() {
        if lock.name.as_str() == name {
            return true;
        }
    }
    false
}

/// Whether some descriptor of the record holds the lock of this name for writing.
fn is_written(record: &Record, name: &str) -> bool
    ensures { result ≡ false → IsUnwritten «record».now name.now }
{
    // For the proof: a descriptor that an event registers has no locks.
    record.shows_record();
    for key in 0..record.table().len() {
        if let Some(descriptor) = record.describe(key as u32) {
            if writes(descriptor, name) {
                return true;
            }
        }
    }
    false
}

/// A record, and what has to be known to say which of its descriptors conflict.
#[derive(Drop)]
pub(crate) struct Conflicts<'r> {
    record: &'r Record,
    // None where no descriptor holds `global` for writing.
    parents: Option<Parents>,
}

impl<'r> Model for Conflicts<'r> {
    ghost use Rattle.tk_record.specs.Recorded.{Recorded};
    ghost use Rattle.tk_query_locks.specs.steps.Parents.{AreParentsWhereUsed};

    ghost Value = { Recorded };

    ghost view = { λ c. c.«record».now };

    ghost invariant = { λ c. AreParentsWhereUsed c.«record».now c.parents };
}

impl<'r> Conflicts<'r> {
    /// Takes the parents of the record's descriptors, where a descriptor holds `global` for writing.
    pub(crate) fn of(alloc: Global, record: &'r Record) -> Result<Conflicts<'r>, AllocError>
        ensures { IfOk result (λ conflicts. conflicts ≡ «record».now) }
    {
        let parents = if is_written(record, GLOBAL) {
            Some(Parents::of(alloc, record)?)
        } else {
            None
        };
        Ok(Conflicts { record, parents })
    }

    /// The record.
    pub(crate) fn record(&self) -> &'r Record
        ensures { result.now ≡ self.now }
    {
        self.record
    }

    /// Whether the descriptor uses `global` as a test without a child. Where no descriptor holds it
    /// for writing, no test is said to.
    pub(crate) fn uses_global(&self, descriptor: &Descriptor) -> bool
        ensures yes { result ≡ true → IsTestWithoutChild self.now descriptor.now }
        ensures no { result ≡ false → IsTestWithoutChild self.now descriptor.now →
            IsUnwritten self.now global_name }
    {
        match &self.parents {
            Some(parents) => descriptor.dtype.is_test() && !parents.has(&descriptor.id),
            None => false,
        }
    }

    fn uses(&self, descriptor: &Descriptor, name: &str) -> bool
        ensures yes { result ≡ true → Uses self.now name.now descriptor.now }
        ensures no { result ≡ false → Uses self.now name.now descriptor.now →
            IsUnwritten self.now name.now }
    {
        holds(descriptor, name) || name == GLOBAL && self.uses_global(descriptor)
    }

    /// Whether the first descriptor holds the lock of this name for writing, and the other uses it.
    fn writes_beside(&self, writer: &Descriptor, other: &Descriptor, name: &str) -> bool
        requires { IsDescribed self.now writer.now }
        ensures { IsTrue result ↔ (Writes name.now writer.now × Uses self.now name.now other.now) }
    {
        if !writes(writer, name) {
            return false;
        }
        self.uses(other, name)
    }

    /// Whether two descriptors that are apart by descent conflict over the lock of this name.
    fn conflict_over(&self, a: &Descriptor, b: &Descriptor, name: &str) -> bool
        requires first { IsDescribed self.now a.now }
        requires second { IsDescribed self.now b.now }
        requires apart { AreApart a.now.id b.now.id }
        ensures { IsTrue result ↔ ConflictOver self.now name.now a.now b.now }
    {
        if self.writes_beside(a, b, name) {
            return true;
        }
        self.writes_beside(b, a, name)
    }

    /// The least of the names so far and another, where two descriptors that are apart by descent
    /// conflict over it.
    fn lesser<'d>(
        &self,
        a: &Descriptor,
        b: &Descriptor,
        least: Option<&'d str>,
        name: &'d str,
    ) -> Option<&'d str>
        requires first { IsDescribed self.now a.now }
        requires second { IsDescribed self.now b.now }
        requires apart { AreApart a.now.id b.now.id }
        requires over { IfSome least (λ l. ConflictOver self.now l.now a.now b.now) }
        ensures over { IfSome result (λ l. ConflictOver self.now l.now a.now b.now) }
        ensures kept { (other : List ℕ) → IsAtMost least.entry other → IsAtMost result other }
        ensures taken { ConflictOver self.now name.now a.now b.now → IsAtMost result name.now }
    {
        if !self.conflict_over(a, b, name) {
            return least;
        }
        let Some(other) = least else {
            return Some(name);
        };
        if name < other { Some(name) } else { least }
    }

    /// The least name of a lock over which two descriptors of the record conflict.
    pub(crate) fn least_lock<'d>(&self, a: &'d Descriptor, b: &Descriptor) -> Option<&'d str>
        requires first { IsDescribed self.now a.now }
        requires second { IsDescribed self.now b.now }
        ensures { MatchOption result
            ((name : List ℕ) → ¬ ConflictOver self.now name a.now b.now)
            (λ name. IsLeastLock self.now a.now b.now name.now) }
    {
        if !are_apart(&a.id, &b.id) {
            return None;
        }
        let mut least = self.lesser(a, b, None, GLOBAL);
        for lock in a.locks.as_slice() {
            least = self.lesser(a, b, least, lock.name.as_str());
        }
        least
    }
}

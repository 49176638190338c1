//! Numbers for the names of the locks over which descriptors may conflict.
ghost use Rattle.std.specs.Prelude.{◌≡◌, ◌≤◌, ◌+◌, Some, IfOk, OnOk, MatchOption};
ghost use Rattle.std.specs.List.{Contains};
ghost use Rattle.tk_ids.specs.declared.descriptors.Descriptor.{Descriptor};
ghost use Rattle.tk_record.specs.Entries.{desc};
ghost use Rattle.tk_query_locks.specs.declared.lock_numbers.NumberedLock.{NumberedLock};
ghost use Rattle.tk_query_locks.specs.Conflicts.{global_name};
ghost use Rattle.tk_query_locks.specs.steps.LockNumbers.{AddsLocks, AddsName, AreNumbered, AreNumberedOf, AreShared, IsUnshared, number_of, numbers_bound};

use crate::conflicts::GLOBAL;
use indexmap::IndexSet;
use std::alloc::{AllocError, Global};
use std::marker::Model;
use tk_ids::{Descriptor, LockMode, Text};
use tk_record::Record;

/// A lock of a descriptor, by the number of its name.
#[derive(Clone, Copy)]
pub(crate) struct NumberedLock {
    pub(crate) number: usize,
    pub(crate) mode: LockMode,
}

/// The locks of a descriptor that another one may hold too.
#[derive(Drop)]
pub(crate) struct NumberedLocks {
    items: Vec<NumberedLock>,
}

impl Model for NumberedLocks {
    ghost use Rattle.std.specs.Prelude.{List};
    ghost use Rattle.tk_query_locks.specs.declared.lock_numbers.NumberedLock.{NumberedLock};

    ghost Value = { List NumberedLock };

    ghost view = { λ l. l.items.items };
}

impl NumberedLocks {
    pub(crate) fn as_slice(&self) -> &[NumberedLock]
        ensures { result.now ≡ self.now }
    {
        self.items.as_slice()
    }
}

/// The names of the locks that descriptors hold, and a number for each that a second one holds too.
/// The lock `global` has a number of its own, the last one.
#[derive(Drop)]
pub(crate) struct LockNumbers {
    held: IndexSet<Text>,
    shared: IndexSet<Text>,
}

impl LockNumbers {
    /// Numbers the locks of a record's descriptors.
    pub(crate) fn of(alloc: Global, record: &Record) -> Result<LockNumbers, AllocError>
        ensures { IfOk result (AreShared «record».now) }
    {
        // For the proof: a descriptor that an event registers has no locks.
        record.shows_record();
        let mut numbers = LockNumbers {
            held: IndexSet::new(alloc),
            shared: IndexSet::new(alloc),
        };
        for key in 0..record.table().len() {
            let Some(descriptor) = record.describe(key as u32) else {
                continue;
            };
            numbers.add(descriptor)?;
        }
        Ok(numbers)
    }

    /// Adds the locks of a descriptor.
    fn add(&mut self, descriptor: &Descriptor) -> Result<(), AllocError>
        ensures { OnOk result (AddsLocks descriptor.now self.old self.new) }
    {
        for lock in descriptor.locks.as_slice() {
            self.add_name(&lock.name)?;
        }
        Ok(())
    }

    /// Adds a name to those that are held or, where it is one of them, to those that are shared.
    fn add_name(&mut self, name: &Text) -> Result<(), AllocError>
        ensures { OnOk result (AddsName name.now self.old self.new) }
    {
        if !self.held.contains(name) {
            self.held.insert(name.try_clone()?)?;
        } else if !self.shared.contains(name) {
            self.shared.insert(name.try_clone()?)?;
        }
        Ok(())
    }

    /// The number of a name that is shared, or `global`.
    fn number(&self, name: &Text) -> Option<usize>
        ensures { MatchOption result (IsUnshared self.now name.now)
            (λ number. number ≡ number_of self.now name.now) }
    {
        if name.as_str() == GLOBAL {
            return Some(self.global());
        }
        self.shared.get_index_of(name)
    }

    /// The number of `global`, which is the greatest one.
    pub(crate) fn global(&self) -> usize
        ensures value { result ≡ number_of self.now global_name }
        ensures last { result ≡ numbers_bound self.now }
    {
        self.shared.len()
    }

    /// How many numbers there are.
    pub(crate) fn count(&self) -> usize
        ensures { result ≡ numbers_bound self.now + 1 }
    {
        self.shared.len() + 1
    }

    /// The locks of a descriptor that have a number.
    fn numbered(&self, alloc: Global, descriptor: &Descriptor) -> Result<NumberedLocks, AllocError>
        ensures { IfOk result (λ list. AreNumberedOf self.now list descriptor.now) }
    {
        let mut items = Vec::new(alloc);
        for lock in descriptor.locks.as_slice() {
            let Some(number) = self.number(&lock.name) else {
                continue;
            };
            items.push(NumberedLock {
                number,
                mode: lock.mode,
            })?;
        }
        Ok(NumberedLocks { items })
    }

    /// The locks of a key's descriptor that have a number.
    fn numbered_of(
        &self,
        alloc: Global,
        record: &Record,
        key: u32,
    ) -> Result<NumberedLocks, AllocError>
        ensures each { IfOk result (λ list. (d : Descriptor) → desc «record».now key ≡ Some d →
            AreNumberedOf self.now list d) }
        ensures within { IfOk result (λ list. (lock : NumberedLock) → Contains list lock →
            lock.number ≤ numbers_bound self.now) }
    {
        match record.describe(key) {
            Some(descriptor) => self.numbered(alloc, descriptor),
            None => Ok(NumberedLocks {
                items: Vec::new(alloc),
            }),
        }
    }

    /// Under each static key the locks of its descriptor that have a number.
    pub(crate) fn lists(
        &self,
        alloc: Global,
        record: &Record,
    ) -> Result<Vec<NumberedLocks>, AllocError>
        ensures { IfOk result (λ lists. AreNumbered «record».now self.now lists.items) }
    {
        record.shows_record();
        let mut lists = Vec::new(alloc);
        for key in 0..record.table().len() {
            let list = self.numbered_of(alloc, record, key as u32)?;
            lists.push(list)?;
        }
        Ok(lists)
    }
}

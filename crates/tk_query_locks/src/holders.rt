//! Executions that conflict over a lock and overlap.
ghost use Rattle.std.specs.Prelude.{◌≡◌, ◌↔◌, ◌+◌, ◌<◌, ℕ, List, IsTrue, IfOk, OnOk, MatchOption, Some, [], true, false, get_or, length};
ghost use Rattle.std.specs.Option.{option_copied};
ghost use Rattle.std.specs.List.{Contains};
ghost use Rattle.tk_query_locks.specs.Conflicts.{ConflictAt, IsTestWithoutChild, descriptor_at, global_name};
ghost use Rattle.tk_query.specs.Ends.{AreEnds};
ghost use Rattle.tk_ids.specs.declared.descriptors.Descriptor.{Descriptor};
ghost use Rattle.tk_query_locks.specs.steps.Parents.{IsUnwritten};
ghost use Rattle.tk_query_locks.specs.steps.Holders.{AreForgotten, AreLasting, AreListed, AreReady, HaveAllLists, HaveLists, IsCollision, IsFirstMet, IsLeastAt, IsMeeting, Keeps, LockIsListed, LockMeetsNone, Meet, MeetsNone, Repeats, end_of, locks_at};

use crate::conflicts::Conflicts;
use crate::lock_numbers::{LockNumbers, NumberedLock, NumberedLocks};
use crate::start_lists::{StartLists, end_at};
use indexmap::IndexSet;
use std::alloc::{AllocError, Global};
use tk_ids::{Descriptor, LockMode, Text};
use tk_query::ends_of;
use tk_record::Events;

/// The starts of executions that may not have ended: those that hold a lock for writing, and the
/// others that use it, under the lock's number.
#[derive(Drop)]
struct Running {
    writers: StartLists,
    readers: StartLists,
}

/// Lets each execution last to the end of the record.
fn forget_ends(ends: &mut [usize])
    ensures { AreForgotten ends.old ends.new }
{
    let len = ends.len();
    for start in 0..len {
        if 0 < ends[start] {
            ends[start] = len;
        }
    }
}

/// The executions of a record, which may conflict over locks.
#[derive(Drop)]
pub(crate) struct Holders<'r> {
    conflicts: Conflicts<'r>,
    numbers: LockNumbers,
    // Under each static key the locks of its descriptor that have a number.
    locks: Vec<NumberedLocks>,
    // Under the position of each start the end of its execution, and 0 elsewhere.
    ends: Vec<usize>,
}

impl<'r> Holders<'r> {
    /// Takes the executions of the events.
    pub(crate) fn of(alloc: Global, events: &Events<'r>) -> Result<Holders<'r>, AllocError>
        ensures conflicts { IfOk result (λ h. h.conflicts ≡ events.now.recorded) }
        ensures ready { IfOk result AreReady }
        ensures ends { IfOk result (λ h. AreEnds events.now h.ends.items) }
    {
        let record = events.record();
        let numbers = LockNumbers::of(alloc, record)?;
        let locks = numbers.lists(alloc, record)?;
        Ok(Holders {
            conflicts: Conflicts::of(alloc, record)?,
            numbers,
            locks,
            ends: ends_of(alloc, events)?,
        })
    }

    /// Lets each execution last to the end of the record, so that all overlap.
    pub(crate) fn forget_ends(&mut self)
        ensures conflicts { self.new.conflicts ≡ self.old.conflicts }
        ensures ready { AreReady self.old → AreReady self.new }
        ensures ends { AreForgotten self.old.ends.items self.new.ends.items }
    {
        forget_ends(&mut self.ends);
    }

    fn end(&self, start: usize) -> usize
        ensures { result ≡ end_of self.now start }
    {
        end_at(&self.ends, start)
    }

    /// Whether an execution starts at `start` that ends after a position.
    fn runs_at(&self, start: usize, position: usize) -> bool
        ensures { IsTrue result ↔ (position < end_of self.now start) }
    {
        position < self.end(start)
    }

    /// The descriptor of the entry at a position.
    fn descriptor(&self, position: usize) -> Option<&Descriptor>
        ensures { option_copied result ≡ descriptor_at self.now.conflicts position }
    {
        let record = self.conflicts.record();
        let key = record.keys().get(position)?;
        record.describe(*key)
    }

    /// The numbered locks of the descriptor of the entry at a position.
    fn locks_at(&self, position: usize) -> &[NumberedLock]
        ensures { result.now ≡ locks_at self.now position }
    {
        let Some(key) = self.conflicts.record().keys().get(position) else {
            return &[];
        };
        match self.locks.get(*key as usize) {
            Some(locks) => locks.as_slice(),
            None => &[],
        }
    }

    /// The least name of a lock over which the descriptors of the entries at two positions
    /// conflict.
    fn least_lock(&self, first: usize, second: usize) -> Option<&str>
        ensures { MatchOption result
            ((name : List ℕ) → ¬ ConflictAt self.now.conflicts name first second)
            (λ name. IsLeastAt self.now.conflicts first second name.now) }
    {
        let a = self.descriptor(first)?;
        let b = self.descriptor(second)?;
        self.conflicts.least_lock(a, b)
    }

    /// Whether an execution that starts at `first`, and ends after `second`, conflicts with one
    /// that starts at `second`.
    fn meet(&self, first: usize, second: usize) -> bool
        ensures { IsTrue result ↔ Meet self.now first second }
    {
        if !self.runs_at(first, second) {
            return false;
        }
        if !self.runs_at(second, 0) {
            return false;
        }
        self.least_lock(first, second).is_some()
    }

    /// Whether one of the executions that start at these positions meets one that starts at
    /// `second`.
    fn some_meets(&self, starts: &[usize], second: usize) -> bool
        ensures { result ≡ false → (p : ℕ) → Contains starts.now p → ¬ Meet self.now p second }
    {
        for first in starts {
            if self.meet(*first, second) {
                return true;
            }
        }
        false
    }

    /// The first execution that conflicts with one that starts at `second`, and ends after it.
    fn first_met(&self, second: usize) -> Option<usize>
        ensures { MatchOption result (MeetsNone self.now second) (IsFirstMet self.now second) }
    {
        for first in 0..second {
            if self.meet(first, second) {
                return Some(first);
            }
        }
        None
    }

    /// Whether an execution in the lists of a lock meets one that starts at `second` and holds it.
    fn is_lock_held(&self, running: &Running, lock: NumberedLock, second: usize) -> bool
        requires { HaveLists running.now lock.number }
        ensures { result ≡ false → LockMeetsNone self.now running.now lock second }
    {
        if self.some_meets(running.writers.starts(lock.number), second) {
            return true;
        }
        match lock.mode {
            LockMode::Read => false,
            LockMode::ReadWrite => self.some_meets(running.readers.starts(lock.number), second),
        }
    }

    /// Whether the descriptor of the entry at a position uses `global` as a test without a child.
    fn uses_global(&self, position: usize) -> bool
        ensures { result ≡ false → (d : Descriptor) →
            descriptor_at self.now.conflicts position ≡ Some d →
            IsTestWithoutChild self.now.conflicts d →
            IsUnwritten self.now.conflicts global_name }
    {
        match self.descriptor(position) {
            Some(descriptor) => self.conflicts.uses_global(descriptor),
            None => false,
        }
    }

    /// Whether an execution that has not ended meets one that starts at `second`.
    fn is_held(&self, running: &Running, second: usize) -> bool
        requires ready { AreReady self.now }
        requires listed { AreListed self.now second running.now }
        ensures { result ≡ false → MeetsNone self.now second }
    {
        for lock in self.locks_at(second) {
            if self.is_lock_held(running, *lock, second) {
                return true;
            }
        }
        self.uses_global(second)
            && self.some_meets(running.writers.starts(self.numbers.global()), second)
    }

    /// The first execution that conflicts with one that starts at `second`, and ends after it. Only
    /// where one in the lists does are all that start before gone through.
    fn met_at(&self, running: &Running, second: usize) -> Option<usize>
        requires ready { AreReady self.now }
        requires listed { AreListed self.now second running.now }
        ensures { MatchOption result (MeetsNone self.now second) (IsFirstMet self.now second) }
    {
        if !self.is_held(running, second) {
            return None;
        }
        self.first_met(second)
    }

    /// Adds the execution that starts at `second` to the lists of a lock that it holds.
    fn take(
        &self,
        running: &mut Running,
        lock: NumberedLock,
        second: usize,
    ) -> Result<(), AllocError>
        requires { HaveLists running.old lock.number }
        ensures kept { OnOk result (Keeps self.now second running.old running.new) }
        ensures added { OnOk result (LockIsListed running.new lock second) }
    {
        match lock.mode {
            LockMode::Read => self.add_reader(running, lock.number, second),
            LockMode::ReadWrite => self.add_writer(running, lock.number, second),
        }
    }

    /// Adds the execution that starts at `second` to those that use a lock, and forgets the ended
    /// ones that hold it for writing.
    fn add_reader(
        &self,
        running: &mut Running,
        number: usize,
        second: usize,
    ) -> Result<(), AllocError>
        requires { HaveLists running.old number }
        ensures kept { OnOk result (Keeps self.now second running.old running.new) }
        ensures added { OnOk result (Contains (get_or running.new.readers number []) second) }
    {
        running.writers.forget(number, &self.ends, second);
        running.readers.push(number, second, &self.ends)?;
        Ok(())
    }

    /// Adds the execution that starts at `second` to those that hold a lock for writing, and forgets
    /// the ended ones that hold or use it.
    fn add_writer(
        &self,
        running: &mut Running,
        number: usize,
        second: usize,
    ) -> Result<(), AllocError>
        requires { HaveLists running.old number }
        ensures kept { OnOk result (Keeps self.now second running.old running.new) }
        ensures added { OnOk result (Contains (get_or running.new.writers number []) second) }
    {
        running.writers.forget(number, &self.ends, second);
        running.readers.forget(number, &self.ends, second);
        running.writers.push(number, second, &self.ends)?;
        Ok(())
    }

    /// Adds the execution that starts at `second` to the lists of the locks that it uses.
    fn start(&self, running: &mut Running, second: usize) -> Result<(), AllocError>
        requires ready { AreReady self.now }
        requires listed { AreListed self.now second running.old }
        requires within { second < length self.now.ends.items }
        ensures { OnOk result (AreListed self.now (second + 1) running.new) }
    {
        for lock in self.locks_at(second) {
            self.take(running, *lock, second)?;
        }
        if self.uses_global(second) {
            return self.add_reader(running, self.numbers.global(), second);
        }
        Ok(())
    }

    /// Whether the key that starts at `second` is among those of which an execution that started
    /// before lasts to the end.
    fn repeats(&self, lasting: &IndexSet<u32>, second: usize) -> bool
        requires { AreLasting self.now second lasting.now }
        ensures { result ≡ true → Repeats self.now second }
    {
        match self.conflicts.record().keys().get(second) {
            Some(key) => lasting.contains(key),
            None => false,
        }
    }

    /// Adds the key that starts at `second`, where that execution lasts to the end.
    fn note(&self, lasting: &mut IndexSet<u32>, second: usize) -> Result<(), AllocError>
        requires { AreLasting self.now second lasting.old }
        ensures { OnOk result (AreLasting self.now (second + 1) lasting.new) }
    {
        if self.end(second) < self.ends.len() {
            return Ok(());
        }
        if let Some(key) = self.conflicts.record().keys().get(second) {
            lasting.insert(*key)?;
        }
        Ok(())
    }

    fn none_running(&self, alloc: Global) -> Result<Running, AllocError>
        ensures { IfOk result (HaveAllLists self.now) }
    {
        let count = self.numbers.count();
        Ok(Running {
            writers: StartLists::new(alloc, count)?,
            readers: StartLists::new(alloc, count)?,
        })
    }

    /// Goes over the starts in their order, up to the first that conflicts with an execution that
    /// has not ended. A key of which an execution lasts to the end need not start again: whom it
    /// would meet has met that one.
    pub(crate) fn first_meeting(&self, alloc: Global) -> Result<Option<(usize, usize)>, AllocError>
        requires { AreReady self.now }
        ensures { IfOk result (IsMeeting self.now) }
    {
        let mut running = self.none_running(alloc)?;
        let mut lasting = IndexSet::new(alloc);
        for second in 0..self.ends.len() {
            if !self.runs_at(second, 0) {
                continue;
            }
            if self.repeats(&lasting, second) {
                continue;
            }
            if let Some(first) = self.met_at(&running, second) {
                return Ok(Some((first, second)));
            }
            self.start(&mut running, second)?;
            self.note(&mut lasting, second)?;
        }
        Ok(None)
    }

    /// Where executions meet first, if they do, and the least name of a lock over which they
    /// conflict.
    pub(crate) fn first_collision(
        &self,
        alloc: Global,
    ) -> Result<Option<(usize, usize, Text)>, AllocError>
        requires { AreReady self.now }
        ensures { IfOk result (IsCollision self.now) }
    {
        let Some((first, second)) = self.first_meeting(alloc)? else {
            return Ok(None);
        };
        let Some(name) = self.least_lock(first, second) else {
            unreachable!()
        };
        let name = Text::copy(alloc, name)?;
        Ok(Some((first, second, name)))
    }
}

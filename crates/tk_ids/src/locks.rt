//! The locks that descriptors declare.
ghost use Rattle.std.specs.Prelude.{◌≡◌, ◌==◌, ◌<◌, ◌++◌, ◌∷◌, ℕ, List, [], length, IsTrue, IfOk, OnOk, OnErr};
ghost use Rattle.std.specs.Prelude.{◌≤◌, true, false, slice_index_or, bytes_eq};
ghost use Rattle.tk_ids.specs.declared.locks.Lock.{Lock};
ghost use Rattle.std.specs.List.Sorted.{IsPartitionPoint};
ghost use Rattle.tk_ids.specs.steps.Table.{added};
ghost use Rattle.tk_ids.specs.KeptLocks.{kept_locks};
ghost use Rattle.tk_ids.specs.Locks.{AreLocks, is_before, mode_of, mode_with, stronger};

use crate::texts::Text;
use std::alloc::{AllocError, Global};
use std::marker::Model;

/// How a lock is held. JUnit: `ExclusiveResource.LockMode`.
#[derive(Clone, Copy, PartialEq, Eq, Debug)]
pub enum LockMode {
    /// Beside others that read.
    Read,
    /// Beside nobody else.
    ReadWrite,
}

impl LockMode {
    /// The mode that admits less beside it.
    pub fn stronger(self, other: LockMode) -> LockMode
        ensures { result ≡ stronger self other }
    {
        match self {
            LockMode::Read => other,
            LockMode::ReadWrite => LockMode::ReadWrite,
        }
    }
}

/// A lock that a descriptor declares. JUnit: `ExclusiveResource`.
#[derive(Debug, Drop)]
pub struct Lock {
    /// The name of the resource.
    pub name: Text,
    /// How it is held.
    pub mode: LockMode,
}

impl Lock {
    /// Makes another lock of the same name and mode.
    ///
    /// # Errors
    /// `AllocError` where a request for memory is refused.
    pub fn try_clone(&self) -> Result<Lock, AllocError>
        ensures { IfOk result (λ lock. lock ≡ self.now) }
    {
        Ok(Lock {
            name: self.name.try_clone()?,
            mode: self.mode,
        })
    }
}

// Whether a lock comes before one of this name.
fn is_before(lock: &Lock, name: &str) -> bool
    ensures { result ≡ is_before lock.now.name name.now }
{
    lock.name.as_str() < name
}

// How many locks come before one of this name.
fn place_of(locks: &[Lock], name: &str) -> usize
    requires { AreLocks locks.now }
    ensures within { result ≤ length locks.now }
    ensures place { IsPartitionPoint (λ l. is_before l.name name.now ≡ true)
        (λ l. is_before l.name name.now ≡ false) locks.now result }
{
    locks.partition_point(|lock| is_before(lock, name))
}

// Whether the lock at this place has this name.
fn has_name_at(locks: &[Lock], place: usize, name: &str) -> bool
    ensures yes { IsTrue result → (place < length locks.now)
        × ((d : Lock) → bytes_eq (slice_index_or locks.now place d).name name.now ≡ true) }
    ensures no { result ≡ false → (d : Lock) → place < length locks.now →
        bytes_eq (slice_index_or locks.now place d).name name.now ≡ false }
{
    match locks.get(place) {
        None => false,
        Some(lock) => lock.name.as_str() == name,
    }
}

// Adds a lock in its place.
fn add_to(locks: &mut Vec<Lock>, lock: Lock) -> Result<(), AllocError>
    requires { AreLocks locks.old.items }
    ensures ok { OnOk result (locks.new.items ≡ added locks.old.items lock) }
    ensures err { OnErr result (locks.new.items ≡ locks.old.items) }
{
    let place = place_of(locks.as_slice(), lock.name.as_str());
    if has_name_at(locks.as_slice(), place, lock.name.as_str()) {
        locks[place].mode = locks[place].mode.stronger(lock.mode);
    } else {
        locks.insert(place, lock)?;
    }
    Ok(())
}

// Copies the locks into a list of their own.
fn copy_locks(alloc: Global, locks: &[Lock]) -> Result<Vec<Lock>, AllocError>
    ensures { IfOk result (λ copied. copied.items ≡ locks.now) }
{
    let mut copied = Vec::with_capacity(alloc, locks.len())?;
    for lock in locks {
        copied.push(lock.try_clone()?)?;
    }
    Ok(copied)
}

// Keeps one lock alone.
fn only(alloc: Global, lock: Lock) -> Result<Option<Box<Vec<Lock>>>, AllocError>
    ensures { IfOk result (λ items. kept_locks items ≡ lock ∷ []) }
{
    Ok(Some(Box::new(alloc, vec![in alloc; lock]?)?))
}

/// The locks of a descriptor, in the order of their names' bytes. No two have one name, and no name
/// is empty.
#[derive(Debug, Drop)]
pub struct Locks {
    // None where there is no lock, so that a descriptor without locks needs no memory for them.
    items: Option<Box<Vec<Lock>>>,
}

impl Model for Locks {
    ghost use Rattle.std.specs.Prelude.{List};
    ghost use Rattle.tk_ids.specs.declared.locks.Lock.{Lock};
    ghost use Rattle.tk_ids.specs.KeptLocks.{kept_locks};
    ghost use Rattle.tk_ids.specs.Locks.{AreLocks};

    ghost Value = { List Lock };

    ghost view = { λ l. kept_locks l.items };

    ghost invariant = { λ l. AreLocks (kept_locks l.items) };
}

impl Locks {
    /// No lock.
    pub fn new() -> Locks
        ensures { result ≡ [] }
    {
        Locks { items: None }
    }

    /// Lends the locks.
    pub fn as_slice(&self) -> &[Lock]
        ensures { result.now ≡ self.now }
    {
        match &self.items {
            None => &[],
            Some(items) => items.as_slice(),
        }
    }

    /// Whether there is no lock.
    pub fn is_empty(&self) -> bool
        ensures { result ≡ (length self.now == 0) }
    {
        self.as_slice().is_empty()
    }

    /// Shows what holds of all locks of a descriptor: their order, and that each has a name.
    pub fn shows_order(&self)
        ensures { AreLocks self.now }
    {
        let _items = &self.items;
    }

    /// Adds a lock in its place. Where one of its name is there, the stronger of the two modes stays.
    ///
    /// # Errors
    /// `AllocError`. The locks are then unchanged, and the lock is dropped.
    pub fn add(&mut self, alloc: Global, lock: Lock) -> Result<(), AllocError>
        requires { 0 < length lock.name }
        ensures ok { OnOk result ((name : List ℕ) →
            mode_of self.new name ≡ mode_with self.old lock name) }
        ensures err { OnErr result (self.new ≡ self.old) }
    {
        match &mut self.items {
            None => self.items = only(alloc, lock)?,
            Some(items) => add_to(items, lock)?,
        }
        Ok(())
    }

    /// Puts a lock at the end.
    ///
    /// # Errors
    /// `AllocError`. The locks are then unchanged, and the lock is dropped.
    pub fn push(&mut self, alloc: Global, lock: Lock) -> Result<(), AllocError>
        requires { AreLocks (self.old ++ lock ∷ []) }
        ensures ok { OnOk result (self.new ≡ self.old ++ lock ∷ []) }
        ensures err { OnErr result (self.new ≡ self.old) }
    {
        match &mut self.items {
            None => self.items = only(alloc, lock)?,
            Some(items) => items.push(lock)?,
        }
        Ok(())
    }

    /// Makes another list of the same locks.
    ///
    /// # Errors
    /// `AllocError` where a request for memory is refused.
    pub fn try_clone(&self) -> Result<Locks, AllocError>
        ensures { IfOk result (λ locks. locks ≡ self.now) }
    {
        let Some(items) = &self.items else {
            return Ok(Locks::new());
        };
        let alloc = *items.allocator();
        let copied = copy_locks(alloc, items.as_slice())?;
        Ok(Locks {
            items: Some(Box::new(alloc, copied)?),
        })
    }
}

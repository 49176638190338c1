//! The table of static descriptors.
ghost use Rattle.std.specs.Prelude.{◌≡◌, ◌↔◌, ℕ, List, [], length, IsTrue, false, IfOk, IfSome, IfNone, Some, slice_get, None, MatchOption, ◌≤◌, ◌<◌, ◌∷◌, ◌++◌, OnOk, OnErr};
ghost use Rattle.std.specs.Option.{option_copied};
ghost use Rattle.std.specs.Slice.Iter.{iter_rest};
ghost use Rattle.tk_ids.specs.declared.tables.TheConstants.{MAX_DESCRIPTORS};
ghost use Rattle.tk_ids.specs.FaultTexts.{table_fault_text, lock_fault_text};

use crate::descriptors::{DType, Descriptor};
use crate::id_faults::IdFault;
use crate::id_texts::IdText;
use crate::ids::UniqueId;
use crate::locks::{Lock, LockMode, Locks};
use crate::segments::Segment;
use crate::texts::Text;
use indexmap::IndexMap;
use std::alloc::{AllocError, AllocFailed, Global};
use std::error::Error;
use std::marker::Model;
use std::{fmt, mem, slice};

/// Why a table refuses a descriptor.
#[derive(Clone, Copy, Debug, PartialEq, Eq)]
pub enum TableFault {
    /// The table has no descriptor with the parent's key, or with the parent's id.
    NoParent,
    /// The table has a descriptor with this id.
    Twice,
    /// The table has `MAX_DESCRIPTORS` descriptors.
    Full,
    /// The parent's id can't have this segment appended.
    Id(IdFault),
    /// A request for memory was refused.
    Memory,
}

impl fmt::Display for TableFault {
    ghost output = { λ fault. Some (table_fault_text fault) };

    fn fmt<W: fmt::Write>(&self, f: &mut fmt::Formatter<W>) -> fmt::Result {
        match self {
            TableFault::NoParent => f.write_str("no such parent"),
            TableFault::Twice => f.write_str("id is already in the table"),
            TableFault::Full => f.write_str("table is full"),
            TableFault::Id(fault) => write!(f, "{fault}"),
            TableFault::Memory => f.write_str("out of memory"),
        }
    }
}

impl Error for TableFault {}

impl<T: Drop> From<AllocFailed<T>> for TableFault {
    ghost use Rattle.tk_ids.specs.declared.tables.TableFault.TheVariants.{Memory};

    ghost from_gives = { λ _ e. e ≡ Memory };

    fn from(_: AllocFailed<T>) -> TableFault {
        TableFault::Memory
    }
}

impl From<AllocError> for TableFault {
    ghost use Rattle.tk_ids.specs.declared.tables.TableFault.TheVariants.{Memory};

    ghost from_gives = { λ _ e. e ≡ Memory };

    fn from(_: AllocError) -> TableFault {
        TableFault::Memory
    }
}

/// Why a table refuses a lock.
#[derive(Clone, Copy, Debug, PartialEq, Eq)]
pub enum LockFault {
    /// The table has no descriptor with the key.
    NoDescriptor,
    /// The lock's name is empty.
    NoName,
    /// A request for memory was refused.
    Memory,
}

impl fmt::Display for LockFault {
    ghost output = { λ fault. Some (lock_fault_text fault) };

    fn fmt<W: fmt::Write>(&self, f: &mut fmt::Formatter<W>) -> fmt::Result {
        match self {
            LockFault::NoDescriptor => f.write_str("no such descriptor"),
            LockFault::NoName => f.write_str("lock has no name"),
            LockFault::Memory => f.write_str("out of memory"),
        }
    }
}

impl Error for LockFault {}

impl From<AllocError> for LockFault {
    ghost use Rattle.tk_ids.specs.declared.tables.LockFault.TheVariants.{Memory};

    ghost from_gives = { λ _ e. e ≡ Memory };

    fn from(_: AllocError) -> LockFault {
        LockFault::Memory
    }
}

/// The most descriptors that a table may have.
pub const MAX_DESCRIPTORS: usize = 65_536;

/// Descriptors, no two with one id, in the order in which they were added.
///
/// A descriptor's key is its position, counted from 0.
#[derive(Drop)]
pub struct Table {
    by_text: IndexMap<IdText, Descriptor>,
}

impl Model for Table {
    ghost use Rattle.std.specs.Prelude.{◌≤◌, List, length};
    ghost use Rattle.std.specs.List.{AllByRecursion};
    ghost use Rattle.indexmap.specs.IndexMap.{values};
    ghost use Rattle.tk_ids.specs.declared.tables.TheConstants.{MAX_DESCRIPTORS};
    ghost use Rattle.tk_ids.specs.declared.descriptors.Descriptor.{Descriptor};

    ghost Value = { List Descriptor };

    ghost use Rattle.tk_ids.specs.Table.{IsKept, HasParents, HaveLocks};

    ghost view = { λ t. values t.by_text };

    ghost invariant = { λ t. AllByRecursion IsKept t.by_text.entries
        × (length t.by_text.entries ≤ MAX_DESCRIPTORS)
        × HasParents (values t.by_text) × HaveLocks (values t.by_text) };
}

impl Table {
    ghost use Rattle.tk_ids.specs.Table.{ids_of, HasId, AreDifferent, child_id, addition, IsAddedAs, HasParent, HasParents, HaveLocks, IsInsertedAs, IsLockedAs, locks_at, with_locks};
    ghost use Rattle.tk_ids.specs.Locks.{AreLocks};
    ghost use Rattle.tk_ids.specs.declared.locks.Lock.{Lock};
    ghost use Rattle.tk_ids.specs.steps.Table.{IsChildId, IsFreeAs, IsInsertableAs};
    ghost use Rattle.tk_ids.specs.IdText.{SegmentView, IsId, id_text};
    ghost use Rattle.tk_ids.specs.Answer.{IsMadeOf};

    /// Makes an empty table.
    pub fn new(alloc: Global) -> Table
        ensures { result ≡ [] }
    {
        Table {
            by_text: IndexMap::new(alloc),
        }
    }

    /// Makes an empty table with room for as many descriptors as `capacity`.
    ///
    /// # Errors
    /// `AllocError` where a request for memory is refused.
    pub fn with_capacity(alloc: Global, capacity: usize) -> Result<Table, AllocError>
        ensures { IfOk result (λ table. table ≡ []) }
    {
        Ok(Table {
            by_text: IndexMap::with_capacity(alloc, capacity)?,
        })
    }

    /// Counts the descriptors.
    pub fn len(&self) -> usize
        ensures len { result ≡ length self.now }
        ensures limit { result ≤ MAX_DESCRIPTORS }
    {
        self.by_text.len()
    }

    /// Whether there is no descriptor.
    pub fn is_empty(&self) -> bool
        ensures { IsTrue result ↔ (self.now ≡ []) }
    {
        self.by_text.is_empty()
    }

    // Whether there are `MAX_DESCRIPTORS` descriptors.
    fn is_full(&self) -> bool
        ensures full { IsTrue result → length self.now ≡ MAX_DESCRIPTORS }
        ensures room { result ≡ false → length self.now < MAX_DESCRIPTORS }
    {
        self.len() >= MAX_DESCRIPTORS
    }

    /// Lends the descriptors, in the order of their keys.
    pub fn iter(&self) -> slice::Iter<'_, Descriptor>
        ensures { iter_rest result ≡ self.now }
    {
        self.by_text.values().as_slice().iter()
    }

    /// Returns the descriptor with this key, or `None` where there is no such key.
    pub fn get(&self, key: u32) -> Option<&Descriptor>
        ensures { option_copied result ≡ slice_get self.now key }
    {
        let (_, descriptor) = self.by_text.get_index(key as usize)?;
        Some(descriptor)
    }

    /// Returns the key of the descriptor with this id, or `None` where no descriptor has it.
    pub fn find(&self, id: &UniqueId) -> Option<u32>
        ensures found { IfSome result (λ key. slice_get (ids_of self.now) key ≡ Some id.now) }
        ensures none { IfNone result (¬ HasId self.now id.now) }
        ensures different { AreDifferent self.now }
    {
        let index = self.by_text.get_index_of(id.as_text().as_str())?;
        Some(index as u32)
    }

    /// Shows what holds of each table: no two descriptors have one id.
    pub fn shows_different_ids(&self)
        ensures { AreDifferent self.now }
    {
        if let Some(descriptor) = self.get(0) {
            let _found = self.find(&descriptor.id);
        }
    }

    /// Shows what holds of each table: of each id that isn't a root's, the one above it has a lower
    /// key.
    pub fn shows_parents(&self)
        ensures { HasParents self.now }
    {
        let _entries = &self.by_text;
    }

    /// Shows what holds of each table: the locks of its descriptors are in their order.
    pub fn shows_locks(&self)
        ensures { HaveLocks self.now }
    {
        let _entries = &self.by_text;
    }

    // Makes the id of a child of this parent, or of a root; nothing where there is no such parent.
    fn id_below(
        &self,
        alloc: Global,
        parent: Option<u32>,
        segment: &Segment,
    ) -> Option<Result<UniqueId, IdFault>>
        ensures { MatchOption result (child_id self.now parent segment.now ≡ None)
            (λ made. (id : List SegmentView) × (child_id self.now parent segment.now ≡ Some id)
            × IsMadeOf id made) }
    {
        match parent {
            None => Some(UniqueId::of(alloc, segment)),
            Some(key) => {
                let descriptor = self.get(key)?;
                Some(descriptor.id.append(alloc, segment))
            }
        }
    }

    // Makes the id of a child, or of a root. The fault is the table's.
    fn child_id(
        &self,
        alloc: Global,
        parent: Option<u32>,
        segment: &Segment,
    ) -> Result<UniqueId, TableFault>
        ensures { IsChildId self.now parent segment.now result }
    {
        match self.id_below(alloc, parent, segment) {
            None => Err(TableFault::NoParent),
            Some(Ok(id)) => Ok(id),
            Some(Err(IdFault::Memory)) => Err(TableFault::Memory),
            Some(Err(_)) if self.is_full() => Err(TableFault::Full),
            Some(Err(fault)) => Err(TableFault::Id(fault)),
        }
    }

    // Puts a descriptor with a new id at the end.
    fn push(&mut self, descriptor: Descriptor) -> Result<(), AllocError>
        requires parent { HasParent self.old descriptor.id }
        requires absent { ¬ HasId self.old descriptor.id }
        requires room { length self.old < MAX_DESCRIPTORS }
        ensures ok { OnOk result (self.new ≡ self.old ++ descriptor ∷ []) }
        ensures err { OnErr result (self.new ≡ self.old) }
    {
        descriptor.locks.shows_order();
        let text = descriptor.id.shared_text()?;
        self.by_text.insert(text, descriptor)?;
        Ok(())
    }

    // Refuses an id that some descriptor has, and any id where the table is full.
    fn check_free(&self, id: &UniqueId) -> Result<(), TableFault>
        ensures { IsFreeAs self.now id.now result }
    {
        if self.find(id).is_some() {
            return Err(TableFault::Twice);
        }
        if self.is_full() {
            return Err(TableFault::Full);
        }
        Ok(())
    }

    /// Adds a descriptor below the parent with this key, or as a root, and returns its key.
    ///
    /// The descriptor's id is the parent's with `segment` appended, or `segment` alone.
    ///
    /// # Errors
    /// The first fault in the order of `TableFault`. The table is then unchanged.
    pub fn add(
        &mut self,
        alloc: Global,
        parent: Option<u32>,
        segment: &Segment,
        name: &str,
        dtype: DType,
    ) -> Result<u32, TableFault>
        ensures { IsAddedAs self.old self.new (addition parent segment.now name.now dtype) result }
    {
        // For the proof: the table's invariant, as it was before the call.
        let _entries = &self.by_text;
        let id = self.child_id(alloc, parent, segment)?;
        self.check_free(&id)?;
        let name = Text::copy(alloc, name)?;
        let key = self.len() as u32;
        self.push(Descriptor {
            id,
            name,
            dtype,
            locks: Locks::new(),
        })?;
        Ok(key)
    }

    // Whether some descriptor has the id with this text.
    fn has_text(&self, text: &str) -> bool
        ensures { (id : List SegmentView) → IsId id → text.now ≡ id_text id →
            IsTrue result ↔ HasId self.now id }
    {
        self.by_text.get_index_of(text).is_some()
    }

    // Whether the id is a root's, or the table has the id above it.
    fn has_parent(&self, id: &UniqueId) -> bool
        ensures { IsTrue result ↔ HasParent self.now id.now }
    {
        match id.parent_text() {
            None => true,
            Some(text) => self.has_text(text),
        }
    }

    // Refuses an id under which no descriptor can be inserted.
    fn check_insertion(&self, id: &UniqueId) -> Result<(), TableFault>
        ensures { IsInsertableAs self.now id.now result }
    {
        if !self.has_parent(id) {
            return Err(TableFault::NoParent);
        }
        self.check_free(id)
    }

    /// Adds a descriptor under its own id, and returns its key.
    ///
    /// # Errors
    /// `NoParent` where the id has more than one segment and no descriptor has the id without the
    /// last; `Twice`, `Full` or `Memory`. The table is then unchanged.
    pub fn insert(&mut self, descriptor: Descriptor) -> Result<u32, TableFault>
        ensures { IsInsertedAs self.old self.new descriptor result }
    {
        // For the proof: the table's invariant, as it was before the call.
        let _entries = &self.by_text;
        self.check_insertion(&descriptor.id)?;
        let key = self.len() as u32;
        self.push(descriptor)?;
        Ok(key)
    }

    /// Puts a descriptor at the end. Unlike [`Table::insert`], it doesn't look up the parent and
    /// the id: the caller knows that the one is there and the other isn't.
    ///
    /// # Errors
    /// `AllocError`. The table is then unchanged.
    pub fn append(&mut self, descriptor: Descriptor) -> Result<(), AllocError>
        requires parent { HasParent self.old descriptor.id }
        requires absent { ¬ HasId self.old descriptor.id }
        requires room { length self.old < MAX_DESCRIPTORS }
        ensures ok { OnOk result (self.new ≡ self.old ++ descriptor ∷ []) }
        ensures err { OnErr result (self.new ≡ self.old) }
    {
        self.push(descriptor)
    }

    // Gives the descriptor with this key other locks, and returns those that it had.
    fn replace_locks(&mut self, key: u32, locks: Locks) -> Locks
        requires { key < length self.old }
        ensures before { result ≡ locks_at self.old key }
        ensures after { self.new ≡ with_locks self.old key locks }
    {
        locks.shows_order();
        let Some(descriptor) = self.by_text.get_index_mut(key as usize) else {
            return locks;
        };
        mem::replace(&mut descriptor.locks, locks)
    }

    /// Adds a lock to the descriptor with this key. Where it has one of this name, the stronger of
    /// the two modes stays.
    ///
    /// # Errors
    /// The first fault in the order of `LockFault`. The table is then unchanged.
    pub fn lock(
        &mut self,
        alloc: Global,
        key: u32,
        name: &str,
        mode: LockMode,
    ) -> Result<(), LockFault>
        ensures { IsLockedAs self.old self.new key
            (record { name = name.now; mode = mode }) result }
    {
        if key as usize >= self.len() {
            return Err(LockFault::NoDescriptor);
        }
        if name.is_empty() {
            return Err(LockFault::NoName);
        }
        let name = Text::copy(alloc, name)?;
        let mut locks = self.replace_locks(key, Locks::new());
        let added = locks.add(alloc, Lock { name, mode });
        let _none = self.replace_locks(key, locks);
        added?;
        Ok(())
    }

    /// Puts a lock after those of the descriptor with this key. Unlike [`Table::lock`], it doesn't
    /// look for its place: the caller knows that its name comes after all of theirs.
    ///
    /// # Errors
    /// `AllocError`. The table is then unchanged.
    pub fn push_lock(&mut self, alloc: Global, key: u32, lock: Lock) -> Result<(), AllocError>
        requires known { key < length self.old }
        requires order { AreLocks (locks_at self.old key ++ lock ∷ []) }
        ensures ok { OnOk result (self.new ≡
            with_locks self.old key (locks_at self.old key ++ lock ∷ [])) }
        ensures err { OnErr result (self.new ≡ self.old) }
    {
        let mut locks = self.replace_locks(key, Locks::new());
        let pushed = locks.push(alloc, lock);
        let _none = self.replace_locks(key, locks);
        pushed?;
        Ok(())
    }
}

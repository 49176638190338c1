//! The ids of which some descriptor is a child.
ghost use Rattle.std.specs.Prelude.{◌≡◌, ◌↔◌, ℕ, List, Some, true, IsTrue, IfOk, OnOk, slice_get};
ghost use Rattle.tk_events.specs.declared.events.Entry.{Entry};
ghost use Rattle.tk_events.specs.declared.kinds.Kind.TheVariants.{Dynamic};
ghost use Rattle.tk_record.specs.Entries.{of_kind};
ghost use Rattle.tk_record.specs.Recorded.{Recorded};
ghost use Rattle.tk_query_locks.specs.Conflicts.{HasChild};
ghost use Rattle.tk_query_locks.specs.steps.Parents.{AreParents, AreParentsOnly, HasParentOf, has_text};

use indexmap::IndexSet;
use std::alloc::{AllocError, Global};
use tk_events::Kind;
use tk_ids::{IdText, UniqueId};
use tk_record::Record;

/// The ids of which a descriptor of a record is a child, by their texts.
#[derive(Drop)]
pub(crate) struct Parents {
    texts: IndexSet<IdText>,
}

impl Parents {
    /// Takes the parents of all descriptors of a record.
    pub(crate) fn of(alloc: Global, record: &Record) -> Result<Parents, AllocError>
        ensures { IfOk result (AreParents «record».now) }
    {
        let mut parents = Parents {
            texts: IndexSet::new(alloc),
        };
        for key in 0..record.table().len() {
            parents.add(alloc, record, key as u32)?;
        }
        for position in 0..record.len() {
            parents.add_registered(alloc, record, position)?;
        }
        Ok(parents)
    }

    /// Adds the parent of the descriptor that the entry at a position registers, if it does.
    fn add_registered(
        &mut self,
        alloc: Global,
        record: &Record,
        position: usize,
    ) -> Result<(), AllocError>
        requires { AreParentsOnly «record».now self.old }
        ensures only { OnOk result (AreParentsOnly «record».now self.new) }
        ensures kept { OnOk result ((text : List ℕ) →
            has_text self.old text ≡ true → has_text self.new text ≡ true) }
        ensures added { OnOk result ((e : Entry) →
            slice_get «record».now.entries position ≡ Some e → of_kind Dynamic e ≡ true →
            HasParentOf «record».now self.new e.event.key) }
    {
        match record.entry(position) {
            Some(view) if matches!(view.kind, Kind::Dynamic) => self.add(alloc, record, view.key),
            _ => Ok(()),
        }
    }

    /// Adds the parent of the descriptor of a key.
    fn add(&mut self, alloc: Global, record: &Record, key: u32) -> Result<(), AllocError>
        requires { AreParentsOnly «record».now self.old }
        ensures only { OnOk result (AreParentsOnly «record».now self.new) }
        ensures kept { OnOk result ((text : List ℕ) →
            has_text self.old text ≡ true → has_text self.new text ≡ true) }
        ensures added { OnOk result (HasParentOf «record».now self.new key) }
    {
        let Some(descriptor) = record.describe(key) else {
            return Ok(());
        };
        if let Some(parent) = descriptor.id.parent(alloc)? {
            self.texts.insert(parent.shared_text()?)?;
        }
        Ok(())
    }

    /// Whether some descriptor is a child of the id.
    pub(crate) fn has(&self, id: &UniqueId) -> bool
        ensures { (r : Recorded) → AreParents r self.now → IsTrue result ↔ HasChild r id.now }
    {
        self.texts.contains(id.as_text().as_str())
    }
}

//! What one more event of a record breaks, and what it changes.
ghost use Rattle.std.specs.Prelude.{◌≡◌, ℕ, ◌<◌, Some, IfOk, OnOk, slice_get};
ghost use Rattle.tk_ids.specs.IdText.{IsId};
ghost use Rattle.tk_events.specs.declared.kinds.Kind.TheVariants.{Dynamic};
ghost use Rattle.tk_ids.specs.Table.{AreDifferent};
ghost use Rattle.tk_record.specs.Entries.{of_kind, with_entry};
ghost use Rattle.tk_record.specs.Recorded.{Recorded};
ghost use Rattle.tk_record.specs.Record.{entry_of_view};
ghost use Rattle.tk_record.specs.declared.records.TheConstants.{MAX_ENTRIES};
ghost use Rattle.tk_query_lifecycle.specs.Lifecycle.{HasId, first_entries};
ghost use Rattle.tk_query_lifecycle.specs.steps.Progress.{AreAdvanced, AreIds, AreNoted, IsChecked, IsFirstOfNeverRun, IsFirstOfRuns, IsFound, IsKnownId, IsKnownParent, IsProgress, IsSought, IsTaken, IsWhetherNeverRun, is_at_rest, is_due, missing_parent, next_event};
ghost use Rattle.tk_query_lifecycle.specs.steps.KeyStates.{state_of};

use crate::key_states::{KeyStates, Parent};
use crate::lifecycle_rules::LifecycleRule;
use crate::registered_ids::RegisteredIds;
use std::alloc::{AllocError, Global};
use tk_events::Kind;
use tk_ids::{Descriptor, UniqueId};
use tk_record::{EntryView, Record};

/// What is known after the first events of a record.
#[derive(Drop)]
pub(crate) struct Progress {
    states: KeyStates,
    ids: RegisteredIds,
}

// Whether an event registers a descriptor.
fn registers(event: &EntryView) -> bool
    ensures { result ≡ of_kind Dynamic (entry_of_view event.now) }
{
    event.kind == Kind::Dynamic
}

// The rule that an event breaks of whose parent there is no descriptor.
fn missing_parent(registers: bool) -> LifecycleRule
    ensures { result ≡ missing_parent registers }
{
    if registers {
        LifecycleRule::ParentUnknown
    } else {
        LifecycleRule::ParentNotRunning
    }
}

impl Progress {
    /// Makes what is known before the first event.
    pub(crate) fn new(alloc: Global, record: &Record) -> Progress
        requires { AreDifferent «record».now.table }
        ensures { IsProgress (first_entries 0 «record».now) result.states result.ids }
    {
        Progress {
            states: KeyStates::new(alloc),
            ids: RegisteredIds::new(alloc),
        }
    }

    // Looks up the key of an id, static or registered.
    fn find(&self, record: &Record, id: &UniqueId) -> Option<u32>
        ensures { (past : Recorded) → past.table ≡ «record».now.table → AreIds past self.now.ids
            → IsFound past id.now result }
    {
        match record.table().find(id) {
            Some(key) => Some(key),
            None => self.ids.key_of(id),
        }
    }

    // Whether an event registers an id that a descriptor has already.
    fn knows_id(&self, record: &Record, registers: bool, id: &UniqueId) -> bool
        ensures { (past : Recorded) → past.table ≡ «record».now.table → AreIds past self.now.ids
            → IsKnownId past registers id.now result }
    {
        registers && self.find(record, id).is_some()
    }

    // Looks up the parent of an id; None where no descriptor has the parent's id.
    fn seek_parent(
        &self,
        alloc: Global,
        record: &Record,
        id: &UniqueId,
    ) -> Result<Option<Parent>, AllocError>
        ensures { IfOk result (λ found. (past : Recorded) → past.table ≡ «record».now.table
            → AreIds past self.now.ids → IsSought past id.now found) }
    {
        let Some(parent) = id.parent(alloc)? else {
            return Ok(Some(Parent::Root));
        };
        Ok(self.find(record, &parent).map(Parent::Key))
    }

    // Looks up the parent of an id, where it wasn't before.
    fn parent_of(
        &self,
        alloc: Global,
        record: &Record,
        id: &UniqueId,
        before: Parent,
    ) -> Result<Option<Parent>, AllocError>
        ensures { IfOk result (λ found. (past : Recorded) → past.table ≡ «record».now.table
            → AreIds past self.now.ids → IsKnownParent past id.now before found) }
    {
        match before {
            Parent::Unsought => self.seek_parent(alloc, record, id),
            _ => Ok(Some(before)),
        }
    }

    // Whether there is a parent, and it doesn't run.
    fn is_at_rest(&self, parent: Parent) -> bool
        ensures { result ≡ is_at_rest self.now.states parent }
    {
        match parent {
            Parent::Key(key) => !self.states.at(key).runs(),
            _ => false,
        }
    }

    // Looks for a rule that the event breaks. Where it breaks none, answers the parent of its key.
    fn check(
        &self,
        alloc: Global,
        record: &Record,
        descriptor: &Descriptor,
        event: &EntryView,
    ) -> Result<Result<Parent, LifecycleRule>, AllocError>
        ensures { IfOk result (λ found. (past : Recorded) → past.table ≡ «record».now.table
            → IsProgress past self.now.states self.now.ids
            → HasId (with_entry past (entry_of_view event.now)) event.now.key descriptor.now.id
            → IsChecked (next_event past (entry_of_view event.now))
            self.now.states descriptor.now.id found) }
    {
        let registers = registers(event);
        if self.knows_id(record, registers, &descriptor.id) {
            return Ok(Err(LifecycleRule::IdKnown));
        }
        let state = self.states.at(event.key);
        let Some(parent) = self.parent_of(alloc, record, &descriptor.id, state.parent)? else {
            return Ok(Err(missing_parent(registers)));
        };
        if self.is_at_rest(parent) {
            return Ok(Err(LifecycleRule::ParentNotRunning));
        }
        match state.refuse(event.kind) {
            Some(rule) => Ok(Err(rule)),
            None => Ok(Ok(parent)),
        }
    }

    // Takes an event that breaks no rule.
    fn note(
        &mut self,
        alloc: Global,
        descriptor: &Descriptor,
        event: &EntryView,
        parent: Parent,
    ) -> Result<(), AllocError>
        requires { (key : ℕ) → (state_of self.old.states key).running_children < MAX_ENTRIES }
        ensures ids { OnOk result (AreNoted self.old.ids self.new.ids
            (entry_of_view event.now) descriptor.now.id) }
        ensures id { OnOk result (IsId descriptor.now.id) }
        ensures states { OnOk result (AreAdvanced self.old.states self.new.states
            (entry_of_view event.now) parent) }
    {
        // For the proof: what every id is.
        let _text = descriptor.id.as_text();
        if registers(event) {
            self.ids.note(&descriptor.id, event.key)?;
        }
        self.states.advance(alloc, event, parent)?;
        self.states.count_child(alloc, parent, event.kind)
    }

    /// Takes the event at a position, and answers the first rule that it breaks.
    pub(crate) fn take(
        &mut self,
        alloc: Global,
        record: &Record,
        position: usize,
        event: &EntryView,
    ) -> Result<Option<LifecycleRule>, AllocError>
        requires stands { slice_get «record».now.entries position ≡ Some (entry_of_view event.now) }
        requires progress { IsProgress (first_entries position «record».now)
            self.old.states self.old.ids }
        ensures { IfOk result (IsTaken
            (next_event (first_entries position «record».now) (entry_of_view event.now))
            self.new.states self.new.ids) }
    {
        record.shows_record();
        let Some(descriptor) = record.describe(event.key) else {
            return Ok(None);
        };
        match self.check(alloc, record, descriptor, event)? {
            Err(rule) => Ok(Some(rule)),
            Ok(parent) => {
                self.note(alloc, descriptor, event, parent)?;
                Ok(None)
            }
        }
    }

    /// The least key that runs.
    pub(crate) fn first_running(&self) -> Option<u32>
        ensures { (r : Recorded) → IsProgress r self.now.states self.now.ids
            → IsFirstOfRuns r result }
    {
        self.states.first_running()
    }

    // Whether a key with this parent is due: there is none, or it finished successfully.
    fn is_due(&self, parent: Parent) -> bool
        ensures { result ≡ is_due self.now.states parent }
    {
        match parent {
            Parent::Key(key) => self.states.at(key).succeeded,
            _ => true,
        }
    }

    // Whether a static key neither starts nor is skipped, though it is a root or its parent
    // succeeds.
    fn never_ran(
        &self,
        alloc: Global,
        record: &Record,
        key: u32,
        descriptor: &Descriptor,
    ) -> Result<bool, AllocError>
        requires stands { slice_get «record».now.table key ≡ Some descriptor.now }
        requires progress { IsProgress «record».now self.now.states self.now.ids }
        ensures { IfOk result (IsWhetherNeverRun «record».now key) }
    {
        if self.states.at(key).has_run() {
            return Ok(false);
        }
        match self.seek_parent(alloc, record, &descriptor.id)? {
            Some(parent) => Ok(self.is_due(parent)),
            None => Ok(false),
        }
    }

    /// The least static key that neither starts nor is skipped, though it is a root or its parent
    /// succeeds.
    pub(crate) fn first_never_run(
        &self,
        alloc: Global,
        record: &Record,
    ) -> Result<Option<u32>, AllocError>
        requires { IsProgress «record».now self.now.states self.now.ids }
        ensures { IfOk result (IsFirstOfNeverRun «record».now) }
    {
        // For the proof: that a table is short.
        record.shows_record();
        let table = record.table();
        let mut key = 0;
        'statics: while let Some(descriptor) = table.get(key) {
            if self.never_ran(alloc, record, key, descriptor)? {
                return Ok(Some(key));
            }
            key += 1;
        }
        Ok(None)
    }
}

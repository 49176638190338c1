//! What is kept of each key while the events of a record are gone through.
ghost use Rattle.std.specs.Prelude.{◌≡◌, ℕ, ◌<◌, [], get_or, not, set, IfSome, OnOk};
ghost use Rattle.tk_events.specs.declared.statuses.Status.TheVariants.{Successful};
ghost use Rattle.tk_record.specs.Entries.{of_status};
ghost use Rattle.tk_record.specs.Record.{entry_of_view};
ghost use Rattle.tk_record.specs.declared.records.TheConstants.{MAX_ENTRIES};
ghost use Rattle.tk_query_lifecycle.specs.steps.KeyStates.{idle, is_idle, is_running, padded, state_of, advanced, refusal, ArePut, IsCounted, IsFirstRunning};

use crate::lifecycle_rules::LifecycleRule;
use std::alloc::{AllocError, Global};
use std::marker::Model;
use tk_events::{Kind, Outcome, Payload};
use tk_ids::MAX_DESCRIPTORS;
use tk_record::EntryView;

/// Where a key is in its execution.
#[derive(Clone, Copy)]
pub(crate) enum Phase {
    /// It was neither started nor skipped.
    Idle,
    /// It was started, and hasn't finished.
    Running,
    /// It finished or was skipped.
    Ended,
}

/// The parent of a key.
#[derive(Clone, Copy)]
pub(crate) enum Parent {
    /// It wasn't looked up.
    Unsought,
    /// The key's id has one segment.
    Root,
    /// The key of the parent.
    Key(u32),
}

/// What is kept of a key.
#[derive(Clone, Copy)]
pub(crate) struct KeyState {
    pub(crate) phase: Phase,
    pub(crate) succeeded: bool,
    pub(crate) parent: Parent,
    pub(crate) running_children: u32,
}

// Whether an event is a successful finish.
fn succeeds(event: &EntryView) -> bool
    ensures { result ≡ of_status Successful (entry_of_view event.now) }
{
    matches!(
        (event.kind, event.payload),
        (Kind::Finished, Payload::Outcome(Outcome::Successful))
    )
}

impl KeyState {
    // Makes the state of a key without an event.
    fn idle() -> KeyState
        ensures { result ≡ idle }
    {
        KeyState {
            phase: Phase::Idle,
            succeeded: false,
            parent: Parent::Unsought,
            running_children: 0,
        }
    }

    /// Whether the key runs.
    pub(crate) fn runs(&self) -> bool
        ensures { result ≡ is_running self.now.phase }
    {
        matches!(self.phase, Phase::Running)
    }

    /// Whether the key was started or skipped.
    pub(crate) fn has_run(&self) -> bool
        ensures { result ≡ not (is_idle self.now.phase) }
    {
        !matches!(self.phase, Phase::Idle)
    }

    /// Answers which rule an event of this kind breaks, by the state of its key alone.
    pub(crate) fn refuse(&self, kind: Kind) -> Option<LifecycleRule>
        ensures { result ≡ refusal kind self.now }
    {
        match (kind, self.phase) {
            (Kind::Started | Kind::Skipped, Phase::Running | Phase::Ended) => {
                Some(LifecycleRule::RanAlready)
            }
            (Kind::Finished, Phase::Idle | Phase::Ended) => Some(LifecycleRule::NotRunning),
            (Kind::Finished, Phase::Running) if self.running_children != 0 => {
                Some(LifecycleRule::ChildRunning)
            }
            _ => None,
        }
    }

    // Makes the state after an event of the key, where the parent was looked up.
    fn advance(self, event: &EntryView, parent: Parent) -> KeyState
        ensures { result ≡ advanced (entry_of_view event.now) parent self }
    {
        let phase = match event.kind {
            Kind::Started => Phase::Running,
            Kind::Skipped | Kind::Finished => Phase::Ended,
            _ => self.phase,
        };
        KeyState {
            phase,
            succeeded: self.succeeded || succeeds(event),
            parent,
            running_children: self.running_children,
        }
    }
}

/// How many keys share a row: the static ones, or those that one worker may register.
pub(crate) const KEYS_IN_ROW: usize = MAX_DESCRIPTORS;

/// The states of the first keys of a row; a key without one is idle.
#[derive(Drop)]
struct Row {
    items: Vec<KeyState>,
}

impl Model for Row {
    ghost use Rattle.std.specs.Prelude.{List, ◌≤◌, length};
    ghost use Rattle.tk_query_lifecycle.specs.declared.key_states.KeyState.{KeyState};
    ghost use Rattle.tk_query_lifecycle.specs.declared.key_states.TheConstants.{KEYS_IN_ROW};

    ghost Value = { List KeyState };

    ghost view = { λ row. row.items.items };

    ghost invariant = { λ row. length row.items.items ≤ KEYS_IN_ROW };
}

impl Row {
    fn new(alloc: Global) -> Row
        ensures { result ≡ [] }
    {
        Row {
            items: Vec::new(alloc),
        }
    }

    fn at(&self, index: usize) -> KeyState
        ensures { result ≡ state_of self.now index }
    {
        match self.items.get(index) {
            Some(state) => *state,
            None => KeyState::idle(),
        }
    }

    fn put(&mut self, index: usize, state: KeyState) -> Result<(), AllocError>
        requires { index < KEYS_IN_ROW }
        ensures { OnOk result
            (padded KEYS_IN_ROW self.new ≡ set (padded KEYS_IN_ROW self.old) index state) }
    {
        while self.items.len() <= index {
            self.items.push(KeyState::idle())?;
        }
        self.items[index] = state;
        Ok(())
    }

    fn first_running(&self) -> Option<u32>
        ensures first { IsFirstRunning self.now result }
        ensures within { IfSome result (λ index. index < KEYS_IN_ROW) }
    {
        for (index, state) in self.items.iter().enumerate() {
            if state.runs() {
                return Some(index as u32);
            }
        }
        None
    }
}

/// The states of keys, which a contract sees in the order of the keys; a key without one is idle.
///
/// There is a row for the static keys, and one for those that each worker registers: so a key
/// registered by the last worker takes no memory for the keys of the others.
#[derive(Drop)]
pub(crate) struct KeyStates {
    rows: Vec<Row>,
}

impl Model for KeyStates {
    ghost use Rattle.std.specs.Prelude.{List, ◌≤◌, ◌^◌, length};
    ghost use Rattle.tk_query_lifecycle.specs.declared.key_states.KeyState.{KeyState};
    ghost use Rattle.tk_query_lifecycle.specs.steps.KeyStates.{by_key};

    ghost Value = { List KeyState };

    ghost view = { λ s. by_key s.rows.items };

    // Keys are u32.
    ghost invariant = { λ s. length s.rows.items ≤ 2 ^ 16 };
}

impl KeyStates {
    /// Makes states of no key.
    pub(crate) fn new(alloc: Global) -> KeyStates
        ensures { result ≡ [] }
    {
        KeyStates {
            rows: Vec::new(alloc),
        }
    }

    /// The state of a key.
    pub(crate) fn at(&self, key: u32) -> KeyState
        ensures { result ≡ state_of self.now key }
    {
        match self.rows.get(key as usize / KEYS_IN_ROW) {
            Some(row) => row.at(key as usize % KEYS_IN_ROW),
            None => KeyState::idle(),
        }
    }

    // Stores the state of a key.
    fn put(&mut self, alloc: Global, key: u32, state: KeyState) -> Result<(), AllocError>
        ensures { OnOk result (ArePut self.old self.new key state) }
    {
        let row = key as usize / KEYS_IN_ROW;
        while self.rows.len() <= row {
            self.rows.push(Row::new(alloc))?;
        }
        self.rows[row].put(key as usize % KEYS_IN_ROW, state)
    }

    /// Takes an event of a key whose parent was looked up.
    pub(crate) fn advance(
        &mut self,
        alloc: Global,
        event: &EntryView,
        parent: Parent,
    ) -> Result<(), AllocError>
        ensures { OnOk result (ArePut self.old self.new event.now.key
            (advanced (entry_of_view event.now) parent (state_of self.old event.now.key))) }
    {
        let state = self.at(event.key).advance(event, parent);
        self.put(alloc, event.key, state)
    }

    /// Counts a child of `parent` that starts, and no longer one that finishes.
    pub(crate) fn count_child(
        &mut self,
        alloc: Global,
        parent: Parent,
        kind: Kind,
    ) -> Result<(), AllocError>
        requires { (key : ℕ) → (state_of self.old key).running_children < MAX_ENTRIES }
        ensures { OnOk result (IsCounted kind parent self.old self.new) }
    {
        let Parent::Key(key) = parent else {
            return Ok(());
        };
        let mut state = self.at(key);
        match kind {
            Kind::Started => state.running_children += 1,
            Kind::Finished => {
                state.running_children = state.running_children.saturating_sub(1);
            }
            _ => {}
        }
        self.put(alloc, key, state)
    }

    /// The least key that runs.
    pub(crate) fn first_running(&self) -> Option<u32>
        ensures { IsFirstRunning self.now result }
    {
        for (number, row) in self.rows.iter().enumerate() {
            if let Some(index) = row.first_running() {
                return Some((number * KEYS_IN_ROW) as u32 + index);
            }
        }
        None
    }
}

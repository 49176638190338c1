//! The starts of executions that have not ended.
ghost use Rattle.std.specs.Prelude.{◌≡◌, ℕ, ◌==◌, ◌<◌, ◌≤◌, if◌then◌else◌, [], None, get_or, length, set, IfOk, OnOk};
ghost use Rattle.tk_query.specs.Pairing.{open_of, HasSlot, HaveSlots};

use std::alloc::{AllocError, Global};
use std::marker::Model;
use std::mem;
use tk_ids::MAX_DESCRIPTORS;
use tk_record::Record;

/// How many keys share a row: those that one worker may register.
pub(crate) const KEYS_IN_ROW: usize = MAX_DESCRIPTORS;

/// The open starts of the keys of one row, each with its position and its stamp.
#[derive(Drop)]
struct Row {
    slots: Vec<Option<(usize, u64)>>,
}

impl Model for Row {
    ghost use Rattle.std.specs.Prelude.{List, Option, ℕ};

    ghost Value = { List (Option (ℕ × ℕ)) };

    ghost view = { λ r. r.slots.items };
}

impl Row {
    fn new(alloc: Global) -> Row
        ensures { result ≡ [] }
    {
        Row {
            slots: Vec::new(alloc),
        }
    }

    /// Makes slots without a start, up to this one.
    fn make_slot(&mut self, index: usize) -> Result<(), AllocError>
        ensures slot { OnOk result (index < length self.new) }
        ensures longer { OnOk result (length self.old ≤ length self.new) }
        ensures starts { OnOk result ((i : ℕ) → get_or self.new i None ≡ get_or self.old i None) }
    {
        while self.slots.len() <= index {
            self.slots.push(None)?;
        }
        Ok(())
    }

    /// Puts a start, or none, into a slot, and gives what was there.
    fn replace(&mut self, index: usize, start: Option<(usize, u64)>) -> Option<(usize, u64)>
        requires { index < length self.old }
        ensures before { result ≡ get_or self.old index None }
        ensures after { self.new ≡ set self.old index start }
    {
        mem::replace(&mut self.slots[index], start)
    }
}

/// The open start of each key that has one.
#[derive(Drop)]
pub(crate) struct OpenStarts {
    rows: Vec<Row>,
}

impl Model for OpenStarts {
    ghost use Rattle.std.specs.Prelude.{List, Option, ℕ};

    ghost Value = { List (List (Option (ℕ × ℕ))) };

    ghost view = { λ s. s.rows.items };
}

impl OpenStarts {
    /// Makes slots without a start, for each key of the record's entries.
    pub(crate) fn for_record(alloc: Global, record: &Record) -> Result<OpenStarts, AllocError>
        ensures slots { IfOk result (HaveSlots «record».now) }
        ensures none { IfOk result (λ starts. (q : ℕ) → open_of starts q ≡ None) }
    {
        let mut starts = OpenStarts {
            rows: Vec::new(alloc),
        };
        for key in record.keys() {
            starts.make_slot(alloc, *key)?;
        }
        Ok(starts)
    }

    /// Makes a slot for a key, where it has none.
    fn make_slot(&mut self, alloc: Global, key: u32) -> Result<(), AllocError>
        ensures slot { OnOk result (HasSlot self.new key) }
        ensures kept { OnOk result ((q : ℕ) → HasSlot self.old q → HasSlot self.new q) }
        ensures starts { OnOk result ((q : ℕ) → open_of self.new q ≡ open_of self.old q) }
    {
        let row = key as usize / KEYS_IN_ROW;
        while self.rows.len() <= row {
            self.rows.push(Row::new(alloc))?;
        }
        self.rows[row].make_slot(key as usize % KEYS_IN_ROW)
    }

    /// Makes a start, or none, the open one of a key that has a slot, and gives the one before.
    pub(crate) fn replace(&mut self, key: u32, start: Option<(usize, u64)>) -> Option<(usize, u64)>
        requires { HasSlot self.old key }
        ensures before { result ≡ open_of self.old key }
        ensures after { (q : ℕ) → open_of self.new q
            ≡ (if key == q then start else open_of self.old q) }
        ensures slots { (q : ℕ) → HasSlot self.old q → HasSlot self.new q }
    {
        let row = key as usize / KEYS_IN_ROW;
        self.rows[row].replace(key as usize % KEYS_IN_ROW, start)
    }
}

//! The keys of registered ids.
ghost use Rattle.std.specs.Prelude.{◌≡◌, ℕ, List, [], Some, OnOk, if◌then◌else◌, bytes_eq};
ghost use Rattle.tk_ids.specs.IdText.{IsId, id_text};
ghost use Rattle.tk_query_lifecycle.specs.steps.KeyStates.{key_under};

use indexmap::IndexMap;
use std::alloc::{AllocError, Global};
use std::marker::Model;
use tk_ids::{IdText, UniqueId};

/// The keys of registered descriptors, by the texts of their ids.
#[derive(Drop)]
pub(crate) struct RegisteredIds {
    keys: IndexMap<IdText, u32>,
}

impl Model for RegisteredIds {
    ghost use Rattle.std.specs.Prelude.{ℕ, List};

    ghost Value = { List (List ℕ × ℕ) };

    ghost view = { λ ids. ids.keys.entries };
}

impl RegisteredIds {
    /// Makes a map without an id.
    pub(crate) fn new(alloc: Global) -> RegisteredIds
        ensures { result ≡ [] }
    {
        RegisteredIds {
            keys: IndexMap::new(alloc),
        }
    }

    /// The key of a registered id.
    pub(crate) fn key_of(&self, id: &UniqueId) -> Option<u32>
        ensures key { result ≡ key_under self.now (id_text id.now) }
        // What every id is.
        ensures id { IsId id.now }
    {
        self.keys.get(id.as_text().as_str()).copied()
    }

    /// Stores the key of an id that an event registers.
    pub(crate) fn note(&mut self, id: &UniqueId, key: u32) -> Result<(), AllocError>
        ensures { OnOk result ((text : List ℕ) → key_under self.new text
            ≡ (if bytes_eq text (id_text id.now) then Some key else key_under self.old text)) }
    {
        self.keys.insert(id.shared_text()?, key)?;
        Ok(())
    }
}

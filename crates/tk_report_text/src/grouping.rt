//! The events of a record, gathered by the texts of their ids.
ghost use Rattle.std.specs.Prelude.{◌≡◌, ℕ, List, [], true, is_some, IfOk, OnOk};
ghost use Rattle.tk_ids.specs.IdText.{id_text};
ghost use Rattle.tk_record.specs.Entries.{desc};
ghost use Rattle.tk_report_text.specs.Labels.{labels};
ghost use Rattle.tk_report_text.specs.steps.{lines_in, text_of, IsGrouped, IndexesId, AddsEvent, IsKept, IsInOrder};

use crate::lines::Lines;
use std::alloc::{AllocError, Global};
use std::collections::HashMap;
use tk_ids::UniqueId;
use tk_record::{EntryView, Record};

/// The lines of each id. Keys whose ids have one text share their lines.
#[derive(Drop)]
struct LinesById<'r> {
    /// Each id with its lines: first the table's ids, each at the index that is its key, and then
    /// those that only events register. Texts are borrowed from the record.
    ids: Vec<(&'r str, Lines)>,
    /// The index of each id that isn't in the table, by the id's text.
    dynamic_ids: HashMap<&'r str, usize>,
    /// The index of the id of a dynamic key, so that a text is looked up once for each such key.
    dynamic_keys: HashMap<u32, usize>,
}

impl<'r> LinesById<'r> {
    // Lists the ids of the table, without a line.
    fn new(alloc: Global, record: &'r Record) -> Result<LinesById<'r>, AllocError>
        ensures grouped { IfOk result (IsGrouped «record».now) }
        ensures empty { IfOk result (λ kept. (x : List ℕ) → lines_in kept.ids.items x ≡ []) }
    {
        let table = record.table();
        table.shows_different_ids();
        let mut ids = Vec::with_capacity(alloc, table.len())?;
        'descriptors: for descriptor in table.iter() {
            ids.push((descriptor.id.as_text().as_str(), Lines::new(alloc)))?;
        }
        Ok(LinesById {
            ids,
            dynamic_ids: HashMap::new(alloc),
            dynamic_keys: HashMap::new(alloc),
        })
    }

    // Finds the index of an id: its key where the table has it. Another id gets the next index
    // where it is new.
    fn index_of_id(
        &mut self,
        alloc: Global,
        record: &'r Record,
        id: &'r UniqueId,
    ) -> Result<usize, AllocError>
        requires { IsGrouped «record».now self.old }
        ensures { IfOk result (IndexesId «record».now self.old self.new (id_text id.now)) }
    {
        if let Some(key) = record.table().find(id) {
            return Ok(key as usize);
        }
        let text = id.as_text().as_str();
        if let Some(index) = self.dynamic_ids.get(&text) {
            return Ok(*index);
        }
        let next = self.ids.len();
        self.dynamic_ids.insert(text, next)?;
        self.ids.push((text, Lines::new(alloc)))?;
        Ok(next)
    }

    // Finds the index of the id of a dynamic key.
    fn index_of_dynamic_key(
        &mut self,
        alloc: Global,
        record: &'r Record,
        key: u32,
    ) -> Result<usize, AllocError>
        requires grouped { IsGrouped «record».now self.old }
        requires known { is_some (desc «record».now key) ≡ true }
        ensures { IfOk result
            (IndexesId «record».now self.old self.new (text_of «record».now key)) }
    {
        if let Some(index) = self.dynamic_keys.get(&key) {
            return Ok(*index);
        }
        let Some(descriptor) = record.describe(key) else {
            unreachable!()
        };
        let index = self.index_of_id(alloc, record, &descriptor.id)?;
        self.dynamic_keys.insert(key, index)?;
        Ok(index)
    }

    // Finds the index of the id of a key: a static key is itself the index.
    fn index_of_key(
        &mut self,
        alloc: Global,
        record: &'r Record,
        key: u32,
    ) -> Result<usize, AllocError>
        requires grouped { IsGrouped «record».now self.old }
        requires known { is_some (desc «record».now key) ≡ true }
        ensures { IfOk result
            (IndexesId «record».now self.old self.new (text_of «record».now key)) }
    {
        let index = key as usize;
        if index < record.table().len() {
            return Ok(index);
        }
        self.index_of_dynamic_key(alloc, record, key)
    }

    // Adds the line of an event to those of its id.
    fn add(
        &mut self,
        alloc: Global,
        record: &'r Record,
        view: &EntryView<'_>,
    ) -> Result<(), AllocError>
        requires grouped { IsGrouped «record».now self.old }
        requires known { is_some (desc «record».now view.now.key) ≡ true }
        ensures { OnOk result (AddsEvent «record».now self.old self.new view.now) }
    {
        let index = self.index_of_key(alloc, record, view.key)?;
        self.ids[index].1.add(view)
    }
}

/// Gathers the lines of each id. Those of an id that has no event are empty.
pub(crate) fn lines_of<'r>(
    alloc: Global,
    record: &'r Record,
) -> Result<Vec<(&'r str, Lines)>, AllocError>
    ensures { IfOk result (λ ids. IsKept (labels «record».now) ids.items) }
{
    record.shows_record();
    let mut kept = LinesById::new(alloc, record)?;
    'entries: for view in record.iter() {
        kept.add(alloc, record, &view)?;
    }
    Ok(kept.ids)
}

/// Keeps the ids that have a line, and sorts them by their texts.
pub(crate) fn in_order<'r>(
    mut ids: Vec<(&'r str, Lines)>,
) -> Result<Vec<(&'r str, Lines)>, AllocError>
    ensures { IfOk result (λ sorted. IsInOrder ids.entry.items sorted.items) }
{
    ids.retain(|entry| !entry.1.is_empty());
    ids.sort_by_key(|entry| entry.0)?;
    Ok(ids)
}

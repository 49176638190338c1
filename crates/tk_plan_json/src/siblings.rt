//! The children of one parent.
ghost use Rattle.std.specs.Prelude.{◌≡◌, ◌++◌, ◌∷◌, [], not, IfOk, if◌then◌else◌};
ghost use Rattle.std.specs.List.{list_any};
ghost use Rattle.tk_plan_json.specs.Verdicts.{same_segment};
ghost use Rattle.tk_plan_json.specs.steps.CodeValues.{json_segment_text};

use crate::members::member_values::TwoTexts;
use indexmap::IndexSet;
use std::alloc::{AllocError, Global};
use std::marker::Model;
use tk_ids::Text;

/// The segments of a parent's children, as far as they were read.
#[derive(Drop)]
pub(crate) struct Siblings {
    keys: IndexSet<(Text, Text)>,
}

impl Model for Siblings {
    ghost use Rattle.std.specs.Prelude.{List, map, ℕ};
    ghost use Rattle.tk_ids.specs.IdText.{SegmentView};
    ghost use Rattle.tk_plan_json.specs.steps.Fields.{segments_of};

    ghost Value = { List SegmentView };

    ghost view = { λ s. segments_of s.keys.keys };
}

impl Siblings {
    /// No segments, with room for as many as `capacity`.
    ///
    /// # Errors
    /// `AllocError` where a request for memory is refused.
    pub fn with_capacity(alloc: Global, capacity: usize) -> Result<Siblings, AllocError>
        ensures { IfOk result (λ siblings. siblings ≡ []) }
    {
        Ok(Siblings {
            keys: IndexSet::with_capacity(alloc, capacity)?,
        })
    }

    /// Puts a copy of a segment at the end unless it is there; answers whether it was put.
    ///
    /// # Errors
    /// `AllocError` where a request for memory is refused.
    pub fn insert(&mut self, alloc: Global, segment: TwoTexts<'_>) -> Result<bool, AllocError>
        ensures answer { IfOk result (λ is_new.
            is_new ≡ not (list_any (same_segment (json_segment_text segment.entry)) self.old)) }
        ensures segments { IfOk result (λ is_new.
            self.new ≡ (if is_new then self.old ++ json_segment_text segment.entry ∷ []
            else self.old)) }
    {
        let tag = Text::copy(alloc, segment.first)?;
        let value = Text::copy(alloc, segment.second)?;
        Ok(self.keys.insert((tag, value))?)
    }
}

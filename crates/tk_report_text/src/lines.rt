//! The lines that a report has below an id.
ghost use Rattle.std.specs.Prelude.{◌≡◌, ◌++◌, [], OnOk};
ghost use Rattle.tk_record.specs.Lines.{joined, tail};
ghost use Rattle.tk_report_text.specs.steps.{is_empty, tail_line};

use std::alloc::{AllocError, Global};
use std::marker::Model;
use tk_record::EntryView;
use tk_record_text::push_tail;

// How many bytes are reserved for the lines of an id, as a start and a finish; longer ones grow.
const LINES_CAPACITY: usize = 24;

/// Lines of one id, which contracts see as their bytes.
#[derive(Drop)]
pub(crate) struct Lines {
    bytes: Vec<u8>,
}

impl Model for Lines {
    ghost use Rattle.std.specs.Prelude.{ℕ, List};

    ghost Value = { List ℕ };

    ghost view = { λ l. l.bytes.items };
}

impl Lines {
    /// Makes an empty list of lines, which has no memory yet.
    pub(crate) fn new(alloc: Global) -> Lines
        ensures { result ≡ [] }
    {
        Lines {
            bytes: Vec::new(alloc),
        }
    }

    /// Says whether there is no line.
    pub(crate) fn is_empty(&self) -> bool
        ensures { result ≡ is_empty self.now }
    {
        self.bytes.is_empty()
    }

    /// Adds the line of an event.
    pub(crate) fn add(&mut self, view: &EntryView<'_>) -> Result<(), AllocError>
        ensures { OnOk result (self.new
            ≡ self.old ++ tail_line (joined (tail view.now.kind view.now.payload.now))) }
    {
        if self.bytes.is_empty() {
            self.bytes.reserve(LINES_CAPACITY)?;
        }
        self.bytes.extend_from_slice(b"  ")?;
        push_tail(&mut self.bytes, view)?;
        self.bytes.push(b'\n')?;
        Ok(())
    }

    /// Gives the bytes of the lines.
    pub(crate) fn as_bytes(&self) -> &[u8]
        ensures { result.now ≡ self.now }
    {
        self.bytes.as_slice()
    }
}

//! Readers and writers of std as sources and targets.
ghost use Rattle.std.specs.Prelude.{◌≡◌, false};

use crate::streams::{Broken, Source, Target};
use std::io::{Read, Write};

/// A reader of std as a source. Each error breaks it.
#[derive(Drop)]
pub struct StdSource<R> {
    reader: R,
    broken: bool,
}

impl<R: Read> StdSource<R> {
    /// Makes a source of what the reader gives.
    pub fn new(reader: R) -> StdSource<R>
        ensures reader { result.reader ≡ reader }
        ensures broken { result.broken ≡ false }
    {
        StdSource {
            reader,
            broken: false,
        }
    }
}

impl<R: Read> Source for StdSource<R> {
    ghost remaining = { λ s. R.remaining s.reader };

    ghost broken = { λ s. s.broken };

    fn read_some(&mut self, buffer: &mut [u8]) -> Result<usize, Broken> {
        if self.broken {
            return Err(Broken);
        }
        match self.reader.read(buffer) {
            Ok(count) => Ok(count),
            Err(_) => {
                self.broken = true;
                Err(Broken)
            }
        }
    }

    fn is_broken(&self) -> bool {
        self.broken
    }
}

/// A writer of std as a target. Each error breaks it, and so does a write that takes no byte.
#[derive(Drop)]
pub struct StdTarget<W> {
    writer: W,
    broken: bool,
}

impl<W: Write> StdTarget<W> {
    /// Makes a target that gives the writer what it takes.
    pub fn new(writer: W) -> StdTarget<W>
        ensures writer { result.writer ≡ writer }
        ensures broken { result.broken ≡ false }
    {
        StdTarget {
            writer,
            broken: false,
        }
    }
}

impl<W: Write> Target for StdTarget<W> {
    ghost contents = { λ t. W.contents t.writer };

    ghost broken = { λ t. t.broken };

    fn write_some(&mut self, bytes: &[u8]) -> Result<usize, Broken> {
        if self.broken {
            return Err(Broken);
        }
        match self.writer.write(bytes) {
            Ok(count) if 0 < count || bytes.is_empty() => Ok(count),
            _ => {
                self.broken = true;
                Err(Broken)
            }
        }
    }

    fn is_broken(&self) -> bool {
        self.broken
    }
}

//! Memory as a source and as a target.
ghost use Rattle.std.specs.Prelude.{◌≡◌, [], false, Some};

use crate::streams::{Broken, Source, Target};
use std::alloc::Global;
use std::marker::Model;

/// Bytes of memory, as a source. It never breaks. A contract sees the bytes that are left.
#[derive(Drop)]
pub struct ByteSource<'a> {
    rest: &'a [u8],
}

impl<'a> Model for ByteSource<'a> {
    ghost use Rattle.std.specs.Prelude.{ℕ, List};

    ghost Value = { List ℕ };

    ghost view = { λ s. s.rest.now };
}

impl<'a> ByteSource<'a> {
    /// Makes a source of these bytes.
    pub fn new(bytes: &'a [u8]) -> ByteSource<'a>
        ensures { result ≡ bytes.now }
    {
        ByteSource { rest: bytes }
    }
}

impl<'a> Source for ByteSource<'a> {
    ghost remaining = { λ s. Some s };

    ghost broken = { λ _. false };

    fn read_some(&mut self, buffer: &mut [u8]) -> Result<usize, Broken> {
        let count = buffer.len().min(self.rest.len());
        let (prefix, rest) = self.rest.split_at(count);
        buffer[..count].copy_from_slice(prefix);
        self.rest = rest;
        Ok(count)
    }

    fn is_broken(&self) -> bool {
        false
    }
}

/// Memory that takes bytes. It breaks where an allocation fails.
#[derive(Drop)]
pub struct ByteTarget {
    taken: Vec<u8>,
    broken: bool,
}

impl Model for ByteTarget {
    ghost use Rattle.tk_streams.specs.Stream.{ByteTargetView};

    ghost Value = { ByteTargetView };

    ghost view = { λ t. record { bytes = t.taken.items; broken = t.broken } };
}

impl ByteTarget {
    /// Makes a target that took nothing yet.
    pub fn new(alloc: Global) -> ByteTarget
        ensures bytes { result.bytes ≡ [] }
        ensures broken { result.broken ≡ false }
    {
        ByteTarget {
            taken: Vec::new(alloc),
            broken: false,
        }
    }

    /// Lends all that it took.
    pub fn bytes(&self) -> &[u8]
        ensures { result.now ≡ self.now.bytes }
    {
        self.taken.as_slice()
    }
}

impl Target for ByteTarget {
    ghost contents = { λ t. Some t.bytes };

    ghost broken = { λ t. t.broken };

    fn write_some(&mut self, bytes: &[u8]) -> Result<usize, Broken> {
        if self.broken {
            return Err(Broken);
        }
        if self.taken.extend_from_slice(bytes).is_err() {
            self.broken = true;
            return Err(Broken);
        }
        Ok(bytes.len())
    }

    fn is_broken(&self) -> bool {
        self.broken
    }
}

//! Devices that pass one byte a call, and break at some call.
ghost use Rattle.std.specs.Prelude.{◌≡◌, true, None, IsErr, is_err};

use std::alloc::Global;
use tk_streams::{Broken, Source, Target};

/// The calls that are left until a device breaks.
#[derive(Drop)]
struct Countdown {
    left: usize,
    broken: bool,
}

impl Countdown {
    fn new(left: usize) -> Countdown {
        Countdown {
            left,
            broken: false,
        }
    }

    fn step(&mut self) -> Result<(), Broken>
        ensures broken { self.new.broken ≡ is_err result }
        ensures stays_broken { self.old.broken ≡ true → IsErr result }
    {
        if self.broken || self.left == 0 {
            self.broken = true;
            return Err(Broken);
        }
        self.left -= 1;
        Ok(())
    }
}

/// Gives one byte of a text a call, and breaks at some call.
#[derive(Drop)]
pub struct OneByteSource<'a> {
    rest: &'a [u8],
    calls: Countdown,
}

impl<'a> OneByteSource<'a> {
    /// A source of these bytes that breaks at the call with this number, counted from 0.
    pub fn new(bytes: &'a [u8], breaks_at: usize) -> OneByteSource<'a> {
        OneByteSource {
            rest: bytes,
            calls: Countdown::new(breaks_at),
        }
    }

    /// How many bytes it did not give yet.
    pub fn left(&self) -> usize {
        self.rest.len()
    }
}

impl<'a> Source for OneByteSource<'a> {
    ghost remaining = { λ _. None };

    ghost broken = { λ s. s.calls.broken };

    fn read_some(&mut self, buffer: &mut [u8]) -> Result<usize, Broken> {
        self.calls.step()?;
        let rest = self.rest;
        if buffer.is_empty() || rest.is_empty() {
            return Ok(0);
        }
        buffer[0] = rest[0];
        self.rest = &rest[1..];
        Ok(1)
    }

    fn is_broken(&self) -> bool {
        self.calls.broken
    }
}

/// Takes one byte a call and keeps it, and breaks at some call.
#[derive(Drop)]
pub struct OneByteTarget {
    taken: Vec<u8>,
    calls: Countdown,
}

impl OneByteTarget {
    /// A target that breaks at the call with this number, counted from 0.
    pub fn new(alloc: Global, breaks_at: usize) -> OneByteTarget {
        OneByteTarget {
            taken: Vec::new(alloc),
            calls: Countdown::new(breaks_at),
        }
    }

    /// All that it took.
    pub fn taken(&self) -> &[u8] {
        self.taken.as_slice()
    }
}

impl Target for OneByteTarget {
    ghost contents = { λ _. None };

    ghost broken = { λ t. t.calls.broken };

    fn write_some(&mut self, bytes: &[u8]) -> Result<usize, Broken> {
        self.calls.step()?;
        if bytes.is_empty() {
            return Ok(0);
        }
        if self.taken.push(bytes[0]).is_err() {
            self.calls.broken = true;
            return Err(Broken);
        }
        Ok(1)
    }

    fn is_broken(&self) -> bool {
        self.calls.broken
    }
}

//! Where bytes come from and go to.
ghost use Rattle.std.specs.Prelude.{◌≡◌, ℕ, List, Bool, true, Option, Some, codes, is_err, IsErr, OnErr};
ghost use Rattle.std.specs.Io.KnownBytes.{Keeps};
ghost use Rattle.tk_streams.specs.Stream.{ReadTakes, WriteAdds};

use std::error::Error;
use std::fmt;

/// A device failed. Each later call on it fails too.
#[derive(Clone, Copy, Debug, PartialEq, Eq)]
pub struct Broken;

impl fmt::Display for Broken {
    ghost output = { λ _. Some (codes "device failed") };

    fn fmt<W: fmt::Write>(&self, f: &mut fmt::Formatter<W>) -> fmt::Result {
        f.write_str("device failed")
    }
}

impl Error for Broken {}

/// Where bytes come from.
///
/// A device whose failing read may take bytes is a source too, with `remaining` none: no clause then
/// says which bytes it gave.
pub trait Source {
    /// The bytes that reads will give from here on, where they are known.
    ghost remaining: { Self → Option (List ℕ) };

    /// Whether a call has answered `Broken`.
    ghost broken: { Self → Bool };

    /// Reads into the start of the buffer, and answers how many bytes it read. At a buffer that is
    /// not empty, 0 is the end of the input.
    ///
    /// # Errors
    /// `Broken` where the read fails, and at each call after that. No byte is then taken.
    fn read_some(&mut self, buffer: &mut [u8]) -> Result<usize, Broken>
        ensures bytes { ReadTakes (remaining self.old) (remaining self.new) result buffer.new }
        ensures keeps { OnErr result (Keeps (remaining self.old) (remaining self.new)) }
        ensures broken { broken self.new ≡ is_err result }
        ensures stays_broken { broken self.old ≡ true → IsErr result };

    /// Whether a call has answered `Broken`.
    fn is_broken(&self) -> bool
        ensures { result ≡ broken self.now };
}

/// Where bytes go to.
///
/// A device whose failing write may take bytes is a target too, with `contents` none: no clause then
/// says which bytes it took.
pub trait Target {
    /// The bytes that it took so far, where they are known.
    ghost contents: { Self → Option (List ℕ) };

    /// Whether a call has answered `Broken`.
    ghost broken: { Self → Bool };

    /// Writes a prefix of the bytes, and answers how many it wrote: at least one of a slice that is
    /// not empty.
    ///
    /// # Errors
    /// `Broken` where the write fails, and at each call after that. No byte is then taken.
    fn write_some(&mut self, bytes: &[u8]) -> Result<usize, Broken>
        ensures bytes { WriteAdds (contents self.old) (contents self.new) result bytes.now }
        ensures broken { broken self.new ≡ is_err result }
        ensures stays_broken { broken self.old ≡ true → IsErr result };

    /// Whether a call has answered `Broken`.
    fn is_broken(&self) -> bool
        ensures { result ≡ broken self.now };
}

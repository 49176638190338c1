//! Reading to the end of a source, and writing all of a text.
ghost use Rattle.std.specs.Prelude.{◌≡◌, ◌<◌, ◌≤◌, ◌+◌, ◌++◌, ℕ, List, [], length, take, true, false, Option, Some, None, IfSome, IfOk, OnOk, OnErr, IsErrOf, IsErr, ◌^◌};
ghost use Rattle.std.specs.Io.KnownBytes.{Consumes, Appends, IsAtEnd};
ghost use Rattle.tk_streams.specs.Stream.{ConsumesUpTo, IsLoaded, AppendsPrefix};
ghost use Rattle.tk_streams.specs.FaultTexts.{load_fault_text};
ghost use Rattle.tk_streams.specs.declared.transfers.LoadFault.TheVariants.{Memory};
ghost use Rattle.tk_streams.specs.declared.transfers.TheConstants.{CHUNK};

use crate::streams::{Broken, Source, Target};
use std::alloc::{AllocError, Global};
use std::error::Error;
use std::fmt;

/// Why `load` did not read a source to its end.
#[derive(Clone, Copy, Debug, PartialEq, Eq)]
pub enum LoadFault {
    /// The source has more bytes than the limit.
    TooLarge,
    /// The source is broken.
    Device,
    /// A request for memory was refused.
    Memory,
}

impl fmt::Display for LoadFault {
    ghost output = { λ fault. Some (load_fault_text fault) };

    fn fmt<W: fmt::Write>(&self, f: &mut fmt::Formatter<W>) -> fmt::Result {
        match self {
            LoadFault::TooLarge => f.write_str("input too large"),
            LoadFault::Device => f.write_str("device failed"),
            LoadFault::Memory => f.write_str("out of memory"),
        }
    }
}

impl Error for LoadFault {}

impl From<AllocError> for LoadFault {
    ghost from_gives = { λ _ e. e ≡ Memory };

    fn from(_e: AllocError) -> LoadFault {
        LoadFault::Memory
    }
}

/// How many bytes a reader asks a source for at a time.
pub const CHUNK: usize = 65_536;

/// Reads a source to its end, where it has at most `limit` bytes.
///
/// After the read that goes past the limit, which takes at most `CHUNK` bytes, the source is not
/// read again.
///
/// # Errors
/// `TooLarge` where the source has more bytes, `Device` where it broke, or `Memory`.
pub fn load<S: Source>(alloc: Global, source: &mut S, limit: usize) -> Result<Vec<u8>, LoadFault>
    ensures ok { IfOk result (λ bytes.
        IsLoaded (S.remaining source.old) (S.remaining source.new) bytes.items) }
    ensures within { IfOk result (λ bytes. length bytes.items ≤ limit) }
    ensures ready { OnOk result (S.broken source.new ≡ false) }
    ensures too_large { IsErrOf result LoadFault.TooLarge
        → IfSome (S.remaining source.old) (λ bytes. limit < length bytes) }
    ensures device { IsErrOf result LoadFault.Device → S.broken source.new ≡ true }
    ensures stops { OnErr result
        (ConsumesUpTo (limit + CHUNK) (S.remaining source.old) (S.remaining source.new)) }
    ensures device_within { IsErrOf result LoadFault.Device →
        ConsumesUpTo limit (S.remaining source.old) (S.remaining source.new) }
    ensures memory_within { IsErrOf result LoadFault.Memory →
        ConsumesUpTo limit (S.remaining source.old) (S.remaining source.new) }
    ensures too_large_ready { IsErrOf result LoadFault.TooLarge → S.broken source.new ≡ false }
    ensures memory_ready { IsErrOf result LoadFault.Memory → S.broken source.new ≡ false }
{
    let mut bytes = Vec::new(alloc);
    let mut chunk = [0u8; CHUNK];
    loop {
        let Ok(count) = source.read_some(&mut chunk) else {
            return Err(LoadFault::Device);
        };
        if count == 0 {
            return Ok(bytes);
        }
        if count > limit - bytes.len() {
            return Err(LoadFault::TooLarge);
        }
        bytes.extend_from_slice(&chunk[..count])?;
    }
}

/// Writes all of the bytes.
///
/// # Errors
/// `Broken` where the target broke. A prefix of the bytes was then written.
pub fn write_all<T: Target>(target: &mut T, bytes: &[u8]) -> Result<(), Broken>
    ensures ok { OnOk result (Appends (T.contents target.old) (T.contents target.new) bytes.now) }
    ensures err { OnErr result
        (AppendsPrefix (T.contents target.old) (T.contents target.new) bytes.now) }
    ensures broken { OnErr result (T.broken target.new ≡ true) }
{
    let mut rest = bytes;
    while !rest.is_empty() {
        let count = target.write_some(rest)?;
        rest = &rest[count..];
    }
    Ok(())
}

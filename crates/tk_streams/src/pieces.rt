//! Bytes on their way to a target, in pieces.
ghost use Rattle.std.specs.Prelude.{◌≡◌, ◌<◌, length, ◌++◌, ◌∷◌, ℕ, List, [], Option, true, false, if◌then◌else◌, OnErr, OnOk};
ghost use Rattle.std.specs.Io.KnownBytes.{Appends};
ghost use Rattle.tk_streams.specs.Stream.{AppendsPrefix};
ghost use Rattle.tk_streams.specs.declared.pieces.TheConstants.{PIECE};
ghost use Rattle.tk_streams.specs.Pieces.{AddsTo, IsSent, outgoing};
ghost use Rattle.tk_streams.specs.steps.{IsWrittenTo};

use crate::streams::{Broken, Target};
use crate::transfers::write_all;
use std::marker::Model;

// How many bytes a piece holds.
const PIECE: usize = 65_536;

/// Bytes that wait to be written, at most 64 KiB. Contracts see those that wait.
///
/// A target that broke takes no more; what waits then is dropped.
#[derive(Drop)]
pub struct Piece {
    bytes: [u8; PIECE],
    count: usize,
}

impl Model for Piece {
    ghost use Rattle.std.specs.Prelude.{ℕ, ◌≤◌, List, take};
    ghost use Rattle.tk_streams.specs.declared.pieces.TheConstants.{PIECE};

    ghost Value = { List ℕ };

    ghost view = { λ p. take p.count p.bytes };

    ghost invariant = { λ p. p.count ≤ PIECE };
}

// Writes the bytes to a target that is whole.
fn write_on<T: Target>(target: &mut T, bytes: &[u8])
    ensures { IsWrittenTo (outgoing (T.contents target.old) (T.broken target.old) bytes.now)
        (outgoing (T.contents target.new) (T.broken target.new) []) }
{
    if !target.is_broken() {
        let _written = write_all(target, bytes);
    }
}

impl Piece {
    /// Makes a piece that holds no byte yet.
    pub fn new() -> Piece
        ensures { result ≡ [] }
    {
        Piece {
            bytes: [0; PIECE],
            count: 0,
        }
    }

    // Takes the bytes, where there is room for them.
    fn keep(&mut self, bytes: &[u8]) -> bool
        ensures { self.new ≡ (if result then self.old ++ bytes.now else self.old) }
    {
        if bytes.len() > PIECE - self.count {
            return false;
        }
        let end = self.count + bytes.len();
        let all = &mut self.bytes[..];
        all[self.count..end].copy_from_slice(bytes);
        self.count = end;
        true
    }

    // Writes what waits.
    fn send<T: Target>(&mut self, target: &mut T)
        ensures sent { IsWrittenTo (outgoing (T.contents target.old) (T.broken target.old) self.old)
            (outgoing (T.contents target.new) (T.broken target.new) self.new) }
        ensures empty { self.new ≡ [] }
    {
        write_on(target, &self.bytes[..self.count]);
        self.count = 0;
    }

    /// Adds bytes, and writes what waits once there is no room for them.
    pub fn put<T: Target>(&mut self, target: &mut T, bytes: &[u8])
        ensures { AddsTo T.contents T.broken target.old target.new self.old self.new bytes.now }
    {
        if self.keep(bytes) {
            return;
        }
        self.send(target);
        if self.keep(bytes) {
            return;
        }
        write_on(target, bytes);
    }

    // Takes a byte, for which there is room.
    fn push(&mut self, byte: u8)
        requires { length self.old < PIECE }
        ensures { self.new ≡ self.old ++ byte ∷ [] }
    {
        self.bytes[self.count] = byte;
        self.count += 1;
    }

    // Writes what waits where there is no room for a byte.
    fn make_room<T: Target>(&mut self, target: &mut T)
        ensures sent { AddsTo T.contents T.broken target.old target.new self.old self.new [] }
        ensures room { length self.new < PIECE }
    {
        if self.count == PIECE {
            self.send(target);
        }
    }

    /// Adds a byte, and writes what waits before it where there is no room for it.
    pub fn put_byte<T: Target>(&mut self, target: &mut T, byte: u8)
        ensures { AddsTo T.contents T.broken target.old target.new self.old self.new (byte ∷ []) }
    {
        self.make_room(target);
        self.push(byte);
    }

    /// Writes what waits at the end.
    ///
    /// # Errors
    /// `Broken` where the target is broken. A prefix of all that was added was then written.
    pub fn finish<T: Target>(&mut self, target: &mut T) -> Result<(), Broken>
        ensures ok { OnOk result ((start : Option (List ℕ)) (text : List ℕ)
            → IsSent start text (outgoing (T.contents target.old) (T.broken target.old) self.old)
            → Appends start (T.contents target.new) text) }
        ensures err { OnErr result ((start : Option (List ℕ)) (text : List ℕ)
            → IsSent start text (outgoing (T.contents target.old) (T.broken target.old) self.old)
            → AppendsPrefix start (T.contents target.new) text) }
        ensures broken { OnErr result (T.broken target.new ≡ true) }
    {
        self.send(target);
        if target.is_broken() {
            return Err(Broken);
        }
        Ok(())
    }
}

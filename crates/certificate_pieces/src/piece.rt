//! Bytes that wait until they are a piece of what is written.

ghost use Rattle.std.specs.Prelude.{◌≡◌, [], ◌∷◌, false, List, ℕ, IfOk};
ghost use Rattle.certificate_pieces.specs.Telling.{HasTold, IsEmpty, SinkFacts, Takes, Tells, WritesAll};

use byte_transfer::{Sink, WriteFault, write_fully};
use std::alloc::{AllocError, Global};

/// The most bytes that wait.
const MOST: usize = 65536;

/// Bytes that wait until a sink is given them, or has failed.
#[derive(Drop)]
pub(crate) struct Piece {
    waiting: Vec<u8>,
    is_failed: bool,
}

impl Piece {
    /// Nothing waits. There is room for a whole piece, and no more is taken later.
    pub(crate) fn new(alloc: Global) -> Result<Piece, AllocError>
        ensures { IfOk result IsEmpty }
    {
        Ok(Piece {
            waiting: Vec::with_capacity(alloc, MOST)?,
            is_failed: false,
        })
    }

    /// Nothing waits any more, and no sink has failed.
    pub(crate) fn clear(&mut self)
        ensures { IsEmpty self.new }
    {
        self.waiting.clear();
        self.is_failed = false;
    }

    /// Whether the sink has failed: then nothing is put any more.
    pub(crate) fn is_failed(&self) -> bool
        ensures { result ≡ self.now.is_failed }
    {
        self.is_failed
    }

    /// The bytes that wait.
    pub(crate) fn waiting(&self) -> &[u8]
        ensures { result.now ≡ self.now.waiting.items }
    {
        self.waiting.as_slice()
    }

    /// Puts bytes behind those that wait. Where there is no room for them, these are written.
    pub(crate) fn put<P: Sink>(&mut self, sink: &mut P, bytes: &[u8])
        ensures { Tells (P.contents sink.old) (P.failures sink.old) self.old
            (P.contents sink.new) (P.failures sink.new) self.new bytes.now }
    {
        if self.is_failed {
            return;
        }
        if self.takes(bytes) {
            return;
        }
        self.put_behind(sink, bytes);
    }

    /// Puts a byte behind those that wait.
    pub(crate) fn put_byte<P: Sink>(&mut self, sink: &mut P, byte: u8)
        ensures { Tells (P.contents sink.old) (P.failures sink.old) self.old
            (P.contents sink.new) (P.failures sink.new) self.new (byte ∷ []) }
    {
        if self.is_failed {
            return;
        }
        if self.takes_byte(byte) {
            return;
        }
        self.put_behind(sink, &[byte]);
    }

    /// Puts bytes for which there was no room.
    fn put_behind<P: Sink>(&mut self, sink: &mut P, bytes: &[u8])
        requires { self.old.is_failed ≡ false }
        ensures { Tells (P.contents sink.old) (P.failures sink.old) self.old
            (P.contents sink.new) (P.failures sink.new) self.new bytes.now }
    {
        self.write(sink);
        if self.is_failed {
            return;
        }
        if self.takes(bytes) {
            return;
        }
        self.is_failed = write_fully(sink, bytes).is_err();
    }

    /// Takes bytes behind those that wait, if there is room for them.
    fn takes(&mut self, bytes: &[u8]) -> bool
        ensures { Takes result self.old self.new bytes.now }
    {
        let room = self.waiting.capacity().saturating_sub(self.waiting.len());
        if bytes.len() > room {
            return false;
        }
        self.waiting.extend_from_slice(bytes).is_ok()
    }

    /// Takes a byte behind those that wait, if there is room for it.
    fn takes_byte(&mut self, byte: u8) -> bool
        ensures { Takes result self.old self.new (byte ∷ []) }
    {
        if self.waiting.len() >= self.waiting.capacity() {
            return false;
        }
        self.waiting.push_reserved(byte);
        true
    }

    /// Writes the bytes that wait.
    fn write<P: Sink>(&mut self, sink: &mut P)
        requires { self.old.is_failed ≡ false }
        ensures told { Tells (P.contents sink.old) (P.failures sink.old) self.old
            (P.contents sink.new) (P.failures sink.new) self.new [] }
        ensures none { self.new.waiting.items ≡ [] }
    {
        self.is_failed = write_fully(sink, self.waiting.as_slice()).is_err();
        self.waiting.clear();
    }

    /// Writes the rest of what was told.
    pub(crate) fn finish<P: Sink>(&mut self, sink: &mut P) -> Result<(), WriteFault>
        ensures { (start : SinkFacts) (text : List ℕ)
            → HasTold start (P.contents sink.old) (P.failures sink.old) self.old text
            → WritesAll result start (P.contents sink.new) (P.failures sink.new) text }
    {
        if self.is_failed {
            return Err(WriteFault);
        }
        self.write(sink);
        if self.is_failed {
            return Err(WriteFault);
        }
        Ok(())
    }
}

// What is kept for the next piece of a text.
ghost use Rattle.std.specs.Prelude.{◌≡◌, ◌≤◌, ◌<◌, ◌+◌, ◌++◌, [], OnOk, OnErr, length, take};
ghost use Rattle.tss_outside.specs.Outside.{Rose, AppendsWhereTold, PutsPrefix};
ghost use Rattle.tss_text.specs.declared.piece.TheConstants.{PIECE};

use std::marker::Model;
use tss_outside::{Failed, Sink};

/// How many bytes a piece has. Only the last may be shorter.
const PIECE: usize = 4096;

/// What is kept for the next piece: fewer bytes than a piece has.
#[derive(Drop)]
pub struct Piece {
    buffer: [u8; PIECE],
    used: usize,
}

impl Model for Piece {
    ghost use Rattle.std.specs.Prelude.{ℕ, List, take, ◌<◌};
    ghost use Rattle.tss_text.specs.declared.piece.TheConstants.{PIECE};

    ghost Value = { List ℕ };

    ghost view = { λ p. take p.used p.buffer };

    ghost invariant = { λ p. p.used < PIECE };
}

// Puts bytes in the place of all from a place on.
fn fill(buffer: &mut [u8], used: usize, bytes: &[u8])
    requires { used + length bytes.now ≡ length buffer.old }
    ensures { buffer.new ≡ take used buffer.old ++ bytes.now }
{
    buffer[used..].copy_from_slice(bytes);
}

impl Piece {
    /// Nothing is kept.
    pub(crate) fn new() -> Piece
        ensures { result ≡ [] }
    {
        Piece {
            buffer: [0; PIECE],
            used: 0,
        }
    }

    /// How many bytes the piece lacks: at least one.
    pub(crate) fn room(&self) -> usize
        ensures room { result + length self.now ≡ PIECE }
        ensures some { 0 < result }
    {
        PIECE - self.used
    }

    /// Keeps bytes that don't fill the piece.
    pub(crate) fn keep(&mut self, bytes: &[u8])
        requires { length self.old + length bytes.now < PIECE }
        ensures { self.new ≡ self.old ++ bytes.now }
    {
        let end = self.used + bytes.len();
        self.buffer[self.used..end].copy_from_slice(bytes);
        self.used = end;
    }

    /// Fills the piece with these bytes and writes it.
    pub(crate) fn write_full<K: Sink>(&mut self, out: &mut K, bytes: &[u8]) -> Result<(), Failed>
        requires { length self.old + length bytes.now ≡ PIECE }
        ensures ok { OnOk result (AppendsWhereTold (K.written out.old) (K.written out.new) (self.old ++ bytes.now)) }
        ensures kept { OnOk result (self.new ≡ []) }
        ensures err { OnErr result (PutsPrefix (K.written out.old) (K.written out.new) (self.old ++ bytes.now)) }
        ensures cause { OnErr result (Rose (K.faults out.old) (K.faults out.new)) }
        ensures never_falls { K.faults out.old ≤ K.faults out.new }
    {
        fill(&mut self.buffer, self.used, bytes);
        out.write_piece(&self.buffer)?;
        self.used = 0;
        Ok(())
    }

    /// Writes what is kept, if anything.
    pub(crate) fn write_rest<K: Sink>(&mut self, out: &mut K) -> Result<(), Failed>
        ensures ok { OnOk result (AppendsWhereTold (K.written out.old) (K.written out.new) self.old) }
        ensures kept { OnOk result (self.new ≡ []) }
        ensures err { OnErr result (PutsPrefix (K.written out.old) (K.written out.new) self.old) }
        ensures cause { OnErr result (Rose (K.faults out.old) (K.faults out.new)) }
        ensures never_falls { K.faults out.old ≤ K.faults out.new }
    {
        if self.used > 0 {
            out.write_piece(&self.buffer[..self.used])?;
            self.used = 0;
        }
        Ok(())
    }
}

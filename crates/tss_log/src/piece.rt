// What a log keeps for the next piece.
ghost use Rattle.std.specs.Prelude.{◌≡◌, ◌≤◌, ◌+◌, ◌++◌, [], length};

use std::marker::Model;

/// How many bytes a piece may have.
const PIECE: usize = 4096;

/// What is kept for the next piece: at most as many bytes as a piece has.
#[derive(Drop)]
pub struct Piece {
    buffer: [u8; PIECE],
    used: usize,
}

impl Model for Piece {
    ghost use Rattle.std.specs.Prelude.{ℕ, List, take, ◌≤◌};

    ghost Value = { List ℕ };

    ghost view = { λ p. take p.used p.buffer };

    ghost invariant = { λ p. p.used ≤ 4096 };
}

impl Piece {
    /// Nothing is kept.
    pub fn new() -> Piece
        ensures { result ≡ [] }
    {
        Piece {
            buffer: [0; PIECE],
            used: 0,
        }
    }

    /// How many bytes more may be kept.
    pub fn room(&self) -> usize
        ensures { result + length self.now ≡ 4096 }
    {
        PIECE - self.used
    }

    /// The bytes that are kept.
    pub fn bytes(&self) -> &[u8]
        ensures { result.now ≡ self.now }
    {
        &self.buffer[..self.used]
    }

    /// Keeps bytes for which there is room.
    pub fn keep(&mut self, bytes: &[u8])
        requires { length self.old + length bytes.now ≤ 4096 }
        ensures { self.new ≡ self.old ++ bytes.now }
    {
        let end = self.used + bytes.len();
        self.buffer[self.used..end].copy_from_slice(bytes);
        self.used = end;
    }

    /// Keeps these bytes alone.
    pub fn begin(&mut self, bytes: &[u8])
        requires { length bytes.now ≤ 4096 }
        ensures { self.new ≡ bytes.now }
    {
        self.buffer[..bytes.len()].copy_from_slice(bytes);
        self.used = bytes.len();
    }
}

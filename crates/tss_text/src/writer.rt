// A sink that gets a text in pieces of one size.
ghost use Rattle.std.specs.Prelude.{◌≡◌, [], OnOk, map};
ghost use Rattle.tss_text.specs.Pieces.{Emits, joined};

use crate::piece::Piece;
use tss_outside::{Failed, Sink};

/// A sink that gets a text in pieces of 4,096 bytes and a last shorter one: what was put so far is what the sink has and
/// then what is kept for the next piece. After a fault of the sink nothing more should be put. Each call that a maker of
/// a writer makes on it says by a clause of its own that the sink behind it is the same.
#[derive(Drop)]
pub struct PieceWriter<'a, K: Sink> {
    /// Where the pieces are written to.
    pub out: &'a mut K,
    /// What is kept for the next piece.
    pub kept: Piece,
}

impl<'a, K: Sink> PieceWriter<'a, K> {
    /// A writer that keeps nothing yet.
    pub fn new(out: &'a mut K) -> PieceWriter<'a, K>
        ensures same_sink { result.out.ghost_name ≡ out.entry.ghost_name }
        ensures sink { result.out.now ≡ out.old }
        ensures kept { result.kept ≡ [] }
    {
        PieceWriter {
            out,
            kept: Piece::new(),
        }
    }

    /// Puts bytes after what was put, and writes each piece that is full.
    pub fn put(&mut self, bytes: &[u8]) -> Result<(), Failed>
        ensures { Emits K.Sink self.old self.new result bytes.now }
    {
        let mut rest = bytes;
        while rest.len() >= self.kept.room() {
            let (front, back) = rest.split_at(self.kept.room());
            self.kept.write_full(self.out, front)?;
            rest = back;
        }
        self.kept.keep(rest);
        Ok(())
    }

    /// Puts several lists of bytes one after another.
    pub fn put_all(&mut self, parts: &[&[u8]]) -> Result<(), Failed>
        ensures { Emits K.Sink self.old self.new result (joined (map (λ b. b.now) parts.now)) }
    {
        for part in parts {
            self.put(part)?;
        }
        Ok(())
    }

    /// Writes what is kept, if anything.
    pub fn flush(&mut self) -> Result<(), Failed>
        ensures nothing_put { Emits K.Sink self.old self.new result [] }
        ensures nothing_kept { OnOk result (self.new.kept ≡ []) }
        ensures same_sink { self.new.out.ghost_name ≡ self.old.out.ghost_name }
    {
        self.kept.write_rest(self.out)
    }
}

// Words of a line.
ghost use Rattle.std.specs.Prelude.{◌≡◌, ◌≤◌, ◌+◌, ◌++◌, [], length, decimal};
ghost use Rattle.tss_protocol.specs.Text.{name_text};
ghost use Rattle.tss_text.specs.Digits.{hex_word};

use itoa::Buffer;
use std::marker::Model;
use tss_base::OpName;
use tss_text::hex_word;

/// How many bytes a word may have.
const WORD_BYTES: usize = 32;

/// A word of a line, of at most 32 bytes. A contract sees its bytes.
#[derive(Drop)]
pub(crate) struct Word {
    bytes: [u8; WORD_BYTES],
    len: usize,
}

impl Model for Word {
    ghost use Rattle.std.specs.Prelude.{ℕ, List, take, ◌≤◌};
    ghost use Rattle.tss_state_lines.specs.declared.word.TheConstants.{WORD_BYTES};

    ghost Value = { List ℕ };

    ghost view = { λ w. take w.len w.bytes };

    ghost invariant = { λ w. w.len ≤ WORD_BYTES };
}

impl Word {
    /// No byte.
    fn empty() -> Word
        ensures { result ≡ [] }
    {
        Word {
            bytes: [0; WORD_BYTES],
            len: 0,
        }
    }

    /// Puts bytes behind its own.
    fn push(&mut self, bytes: &[u8])
        requires { length self.old + length bytes.now ≤ 32 }
        ensures { self.new ≡ self.old ++ bytes.now }
    {
        let end = self.len + bytes.len();
        self.bytes[self.len..end].copy_from_slice(bytes);
        self.len = end;
    }

    /// These bytes.
    pub(crate) fn of(bytes: &[u8]) -> Word
        requires { length bytes.now ≤ 32 }
        ensures { result ≡ bytes.now }
    {
        let mut word = Word::empty();
        word.push(bytes);
        word
    }

    /// A number in decimal digits.
    pub(crate) fn number(n: u64) -> Word
        ensures { result ≡ decimal n }
    {
        let mut digits = Buffer::new();
        Word::of(digits.format(n).as_bytes())
    }

    /// An address or a value in eight lower-case hexadecimal digits.
    pub(crate) fn hex(n: u32) -> Word
        ensures { result ≡ hex_word n }
    {
        Word::of(&hex_word(n))
    }

    /// The name of an operand, a version or a buffer.
    pub(crate) fn name(o: OpName) -> Word
        ensures text { result ≡ name_text o }
        ensures short { length result ≤ 21 }
    {
        let mut task = Buffer::new();
        let mut place = Buffer::new();
        let mut word = Word::of(task.format(o.task).as_bytes());
        word.push(b".");
        word.push(place.format(o.place).as_bytes());
        word
    }

    /// A word with its space, and a name.
    pub(crate) fn named(kind: &[u8], o: OpName) -> Word
        requires { length kind.now ≤ 8 }
        ensures { result ≡ kind.now ++ name_text o }
    {
        let mut word = Word::of(kind);
        word.push(Word::name(o).bytes());
        word
    }

    /// Its bytes.
    pub(crate) fn bytes(&self) -> &[u8]
        ensures { result.now ≡ self.now }
    {
        &self.bytes[..self.len]
    }
}

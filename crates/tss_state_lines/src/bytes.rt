// Bytes in hexadecimal digits.
ghost use Rattle.std.specs.Prelude.{◌≡◌, ◌++◌, ◌∷◌, []};
ghost use Rattle.hex.specs.Hex.{encode_lower};
ghost use Rattle.tss_text.specs.Pieces.{Emits};
ghost use Rattle.tss_state_lines.specs.Words.{line};

use crate::line::put_words;
use crate::word::Word;
use tss_outside::{Failed, Sink};
use tss_text::{PieceWriter, write_hex};

/// How many bytes are written as digits at once.
const STRETCH: usize = 64;

/// Puts two lower-case hexadecimal digits for each byte.
fn put_hex<K: Sink>(to: &mut PieceWriter<'_, K>, bytes: &[u8]) -> Result<(), Failed>
    ensures { Emits K.Sink to.old to.new result (encode_lower bytes.now) }
{
    let mut digits = [0; 2 * STRETCH];
    let mut rest = bytes;
    while !rest.is_empty() {
        let (front, back) = rest.split_at(rest.len().min(STRETCH));
        let text = &mut digits[..2 * front.len()];
        write_hex(front, text);
        to.put(text)?;
        rest = back;
    }
    Ok(())
}

/// Puts a line whose last word is that of bytes.
pub(crate) fn put_hex_line<K: Sink>(
    to: &mut PieceWriter<'_, K>,
    first: &[u8],
    others: &[Word],
    bytes: &[u8],
) -> Result<(), Failed>
    ensures { Emits K.Sink to.old to.new result (line first.now (others.now ++ encode_lower bytes.now ∷ [])) }
{
    to.put(first)?;
    put_words(to, others)?;
    to.put(b" ")?;
    put_hex(to, bytes)?;
    to.put(b"\n")
}

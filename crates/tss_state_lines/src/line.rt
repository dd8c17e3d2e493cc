// Lines of words.
ghost use Rattle.std.specs.Prelude.{◌≡◌};
ghost use Rattle.tss_text.specs.Pieces.{Emits};
ghost use Rattle.tss_state_lines.specs.Words.{line, spaced};

use crate::word::Word;
use tss_outside::{Failed, Sink};
use tss_text::PieceWriter;

/// Puts words, each after a space.
pub(crate) fn put_words<K: Sink>(to: &mut PieceWriter<'_, K>, words: &[Word]) -> Result<(), Failed>
    ensures { Emits K.Sink to.old to.new result (spaced words.now) }
{
    for word in words {
        to.put_all(&[b" ", word.bytes()])?;
    }
    Ok(())
}

/// Puts a line: its first word, the others, each after a space, and its end.
pub(crate) fn put_line<K: Sink>(
    to: &mut PieceWriter<'_, K>,
    first: &[u8],
    others: &[Word],
) -> Result<(), Failed>
    ensures { Emits K.Sink to.old to.new result (line first.now others.now) }
{
    to.put(first)?;
    put_words(to, others)?;
    to.put(b"\n")
}

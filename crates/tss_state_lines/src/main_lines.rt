// The lines of main and of what is there once: the held trap, and how many events may happen.
ghost use Rattle.std.specs.Prelude.{◌≡◌, ◌∷◌, codes};
ghost use Rattle.tss_text.specs.Pieces.{Emits};
ghost use Rattle.tss_state_lines.specs.Words.{line, register_words, spaced};
ghost use Rattle.tss_state_lines.specs.Lines.{enabled_line, epoch_line, main_line, main_registers_line, piece_line, trap_line};

use crate::bytes::put_hex_line;
use crate::line::{put_line, put_words};
use crate::marks::ended_word;
use crate::word::Word;
use tss_base::{Range, Trap};
use tss_core::Regs;
use tss_outside::{Failed, Sink};
use tss_text::PieceWriter;

/// Puts the line of main: its pc, the instructions that it has completed, the tasks that it has spawned, and whether it
/// has ended.
pub fn put_main<K: Sink>(
    to: &mut PieceWriter<'_, K>,
    regs: &Regs,
    spawned: u32,
    ended: bool,
) -> Result<(), Failed>
    ensures { Emits K.Sink to.old to.new result (main_line regs.now spawned ended) }
{
    put_line(
        to,
        b"main",
        &[
            Word::hex(regs.pc()),
            Word::number(regs.done()),
            Word::number(u64::from(spawned)),
            ended_word(ended),
        ],
    )
}

/// Puts the words of the registers from x1 to x31.
fn put_values<K: Sink>(to: &mut PieceWriter<'_, K>, regs: &Regs) -> Result<(), Failed>
    ensures { Emits K.Sink to.old to.new result (spaced (register_words regs.now)) }
{
    for n in 1..32 {
        put_words(to, &[Word::hex(regs.get(n))])?;
    }
    Ok(())
}

/// Puts a line of registers, with a word that says whose they are.
pub(crate) fn put_registers<K: Sink>(
    to: &mut PieceWriter<'_, K>,
    owner: Word,
    regs: &Regs,
) -> Result<(), Failed>
    ensures { Emits K.Sink to.old to.new result (line (codes "regs") (owner ∷ register_words regs.now)) }
{
    to.put(b"regs")?;
    put_words(to, &[owner])?;
    put_values(to, regs)?;
    to.put(b"\n")
}

/// Puts the line of main's registers.
pub fn put_main_registers<K: Sink>(to: &mut PieceWriter<'_, K>, regs: &Regs) -> Result<(), Failed>
    ensures { Emits K.Sink to.old to.new result (main_registers_line regs.now) }
{
    put_registers(to, Word::of(b"main"), regs)
}

/// Puts the line of an object that is named.
pub fn put_named<K: Sink>(to: &mut PieceWriter<'_, K>, object: &Range) -> Result<(), Failed>
    ensures { Emits K.Sink to.old to.new result (epoch_line object.now) }
{
    put_line(
        to,
        b"epoch",
        &[Word::hex(object.base), Word::number(u64::from(object.len))],
    )
}

/// Puts the line of a piece that main has printed, with the tasks spawned before it.
pub fn put_piece<K: Sink>(
    to: &mut PieceWriter<'_, K>,
    before: u32,
    bytes: &[u8],
) -> Result<(), Failed>
    ensures { Emits K.Sink to.old to.new result (piece_line (record { before = before; bytes = bytes.now })) }
{
    put_hex_line(to, b"piece", &[Word::number(u64::from(before))], bytes)
}

/// Puts the line of the held trap, with the number of its task.
pub fn put_trap<K: Sink>(to: &mut PieceWriter<'_, K>, task: u32, trap: Trap) -> Result<(), Failed>
    ensures { Emits K.Sink to.old to.new result (trap_line (record { task = task; trap = trap })) }
{
    put_line(
        to,
        b"trap",
        &[
            Word::number(u64::from(task)),
            Word::hex(trap.pc),
            Word::number(u64::from(trap.cause)),
            Word::hex(trap.value),
        ],
    )
}

/// Puts the line that says how many events may happen.
pub fn put_enabled<K: Sink>(to: &mut PieceWriter<'_, K>, count: u32) -> Result<(), Failed>
    ensures { Emits K.Sink to.old to.new result (enabled_line count) }
{
    put_line(to, b"enabled", &[Word::number(u64::from(count))])
}

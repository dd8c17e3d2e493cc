// The lines of workers.
ghost use Rattle.std.specs.Prelude.{◌≡◌, ◌==◌};
ghost use Rattle.std.specs.List.{list_all};
ghost use Rattle.tss_text.specs.Pieces.{Emits};
ghost use Rattle.tss_state_lines.specs.Lines.{idle_line, running_word, scratch_row, worker_line, worker_registers_line};

use crate::bytes::put_hex_line;
use crate::line::put_line;
use crate::main_lines::put_registers;
use crate::word::Word;
use tss_base::addresses::END_PC;
use tss_core::Regs;
use tss_outside::{Failed, Sink};
use tss_text::PieceWriter;

/// Puts the line of a worker without a task.
pub fn put_idle<K: Sink>(to: &mut PieceWriter<'_, K>, w: u32) -> Result<(), Failed>
    ensures { Emits K.Sink to.old to.new result (idle_line w) }
{
    put_line(
        to,
        b"worker",
        &[Word::number(u64::from(w)), Word::of(b"idle")],
    )
}

/// How a worker's task stands.
fn running_word(pc: u32, trapped: bool) -> Word
    ensures { result ≡ running_word pc trapped }
{
    if trapped {
        Word::of(b"trapped")
    } else if pc == END_PC {
        Word::of(b"ended")
    } else {
        Word::of(b"runs")
    }
}

/// Puts the line of a busy worker: its task, the instructions completed, the pc, and how the task stands.
pub fn put_busy<K: Sink>(
    to: &mut PieceWriter<'_, K>,
    w: u32,
    task: u32,
    regs: &Regs,
    trapped: bool,
) -> Result<(), Failed>
    ensures { Emits K.Sink to.old to.new result (worker_line w task regs.now trapped) }
{
    put_line(
        to,
        b"worker",
        &[
            Word::number(u64::from(w)),
            Word::number(u64::from(task)),
            Word::number(regs.done()),
            Word::hex(regs.pc()),
            running_word(regs.pc(), trapped),
        ],
    )
}

/// Puts the line of a busy worker's registers.
pub fn put_worker_registers<K: Sink>(
    to: &mut PieceWriter<'_, K>,
    w: u32,
    regs: &Regs,
) -> Result<(), Failed>
    ensures { Emits K.Sink to.old to.new result (worker_registers_line w regs.now) }
{
    put_registers(to, Word::number(u64::from(w)), regs)
}

/// Whether each byte is 0.
fn are_zeros(bytes: &[u8]) -> bool
    ensures { result ≡ list_all (λ b. b == 0) bytes.now }
{
    bytes.iter().all(|byte| *byte == 0)
}

/// Puts the line of a row of a worker's scratch, where a byte of it isn't 0.
pub fn put_scratch_row<K: Sink>(
    to: &mut PieceWriter<'_, K>,
    w: u32,
    at: u32,
    bytes: &[u8],
) -> Result<(), Failed>
    ensures { Emits K.Sink to.old to.new result (scratch_row w at bytes.now) }
{
    if are_zeros(bytes) {
        return Ok(());
    }
    put_hex_line(
        to,
        b"scratch",
        &[Word::number(u64::from(w)), Word::hex(at)],
        bytes,
    )
}

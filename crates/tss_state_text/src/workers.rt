// The workers, each with its registers and its scratch where it is busy.
ghost use Rattle.std.specs.Prelude.{◌≡◌, ◌+◌, ◌*◌, ◌≤◌, drop, length, take};
ghost use Rattle.std.specs.FinMap.{get};
ghost use Rattle.tss_model.specs.Memory.{scratch_range};
ghost use Rattle.tss_text.specs.Pieces.{Emits};
ghost use Rattle.tss_report.specs.Rows.{row_len};
ghost use Rattle.tss_state_text.specs.StateText.{scratch_text, worker_text};

use tss_base::addresses::SCRATCH;
use tss_outside::{Failed, Sink};
use tss_pipeline::Pipeline;
use tss_state_lines::{put_busy, put_idle, put_scratch_row, put_worker_registers};
use tss_text::PieceWriter;

/// How many bytes a row has.
const ROW: u32 = 16;

/// The row at a place of a scratch.
fn row_at(scratch: &[u8], k: u32) -> &[u8]
    requires { row_len * k + row_len ≤ length scratch.now }
    ensures { result.now ≡ take row_len (drop (row_len * k) scratch.now) }
{
    let from = ROW as usize * k as usize;
    &scratch[from..][..ROW as usize]
}

/// Puts the rows of a worker's scratch in which a byte isn't 0.
fn put_scratch<K: Sink>(to: &mut PieceWriter<'_, K>, w: u32, scratch: &[u8]) -> Result<(), Failed>
    requires { length scratch.now ≡ scratch_range.len }
    ensures { Emits K.Sink to.old to.new result (scratch_text w scratch.now) }
{
    for k in 0..SCRATCH.len / ROW {
        put_scratch_row(to, w, SCRATCH.base + ROW * k, row_at(scratch, k))?;
    }
    Ok(())
}

/// Puts the lines of a worker.
pub(crate) fn put_worker<K: Sink>(
    to: &mut PieceWriter<'_, K>,
    p: &Pipeline,
    w: u32,
) -> Result<(), Failed>
    ensures { Emits K.Sink to.old to.new result (worker_text w (get p.now.state.workers w)) }
{
    let Some((task, trap)) = p.task(w) else {
        return put_idle(to, w);
    };
    put_busy(to, w, task, p.regs(w), trap.is_some())?;
    put_worker_registers(to, w, p.regs(w))?;
    put_scratch(to, w, p.scratch(w))
}

// A busy worker.
ghost use Rattle.std.specs.Prelude.{◌≡◌, ◌<◌, ◌≤◌, IsTrue, None};
ghost use Rattle.tss_protocol.specs.Workers.{has_ended};
ghost use Rattle.tss_workers.specs.Working.{Stretches};
ghost use Rattle.tss_workers.specs.Seen.{CanGoOn, Executes, busy_of};

use crate::spots::spots_of;
use crate::views::WorkerTask;
use tss_base::addresses::END_PC;
use tss_base::bounds::MAX_OPERANDS;
use tss_base::{Storage, Task, Trap};
use tss_buffers::Buffers;
use tss_core::Regs;
use tss_memory::{Code, Space};
use tss_steps::{Scratch, stretch_task};

/// What a busy worker has: its task with the storages of the operands, the first as many as there are operands, the
/// registers, the scratch, and the trap where the task has trapped.
#[derive(Drop)]
pub struct Worker {
    pub(crate) task: Task,
    pub(crate) storages: [Storage; MAX_OPERANDS as usize],
    pub(crate) regs: Regs,
    pub(crate) scratch: Scratch,
    pub(crate) trap: Option<Trap>,
}

/// Whether the task of a worker has trapped or ended.
pub(crate) fn has_ended(worker: &Worker) -> bool
    ensures { result ≡ has_ended (busy_of worker.now) }
{
    worker.trap.is_some() || worker.regs.pc() == END_PC
}

/// A stretch of at most `quantum` steps of a task that hasn't trapped, fewer where it ends or traps before.
pub(crate) fn run(
    worker: &mut Worker,
    code: &Code,
    space: &mut Space,
    buffers: &mut Buffers,
    budget: u64,
    quantum: u32,
)
    requires banks { 0 < buffers.old.banks }
    requires going { CanGoOn space.old.ranges buffers.old worker.old }
    requires further { worker.old.trap ≡ None }
    ensures { Executes code.now budget quantum worker.old worker.new space.old space.new buffers.old buffers.new }
{
    let spots = spots_of(&worker.task, &worker.storages, buffers.banks());
    let mut view = WorkerTask {
        space,
        buffers,
        spots: &spots[..worker.task.count as usize],
        code,
        scratch: &mut worker.scratch,
        near: 0,
        last: 0,
    };
    worker.trap = stretch(&mut worker.regs, &mut view, budget, u64::from(quantum));
}

/// A stretch of at most `most` steps over the view of a task that hasn't trapped. Its trap where it traps.
fn stretch(regs: &mut Regs, view: &mut WorkerTask, budget: u64, most: u64) -> Option<Trap>
    ensures { Stretches budget most view.old regs.old view.new regs.new result }
{
    stretch_task(regs, view, budget, most)
}

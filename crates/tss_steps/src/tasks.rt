// A task that runs: its steps, over any view of a task.
ghost use Rattle.std.specs.Prelude.{◌≡◌, ◌<◌, ◌-◌, ◌^◌, List, ℕ, Option, None};
ghost use Rattle.tss_model.specs.Core.{Write};
ghost use Rattle.tss_model.specs.Registers.{trap_of};
ghost use Rattle.tss_steps.specs.Seen.{Terms, task_sight};
ghost use Rattle.tss_steps.specs.Tasks.{IsLeft, Turns, step_by, stretch_by, task_now, trap_by, turn};

use tss_base::Trap;
use tss_base::addresses::END_PC;
use tss_base::causes::{BUDGET_SPENT, CALL_IN_TASK};
use tss_core::{Regs, Stop, View, advance};

/// What a task sees: its scratch, and beyond it what its machine shows of memory.
pub trait TaskView: View {
    /// What lies beyond the scratch.
    ghost Beyond: { Type 0 };

    ghost beyond: { Self → Beyond };

    /// The bytes of the scratch.
    ghost scratch: { Self → List ℕ };

    /// How it sees and writes what lies beyond.
    ghost terms: { Self → Terms Beyond };

    /// What stays in the whole view while the task runs.
    ghost Keeps: { Self → Self → Type 0 };

    /// That is what it sees.
    ghost sees: { (v : Self) → Self.sight v ≡ task_sight (terms v) (scratch v) (beyond v) };

    /// And what an access leaves.
    ghost left: { (v w : Self) (x : Option Write) → Self.Leaves v x w → IsLeft (terms v) (terms w) (scratch v) (scratch w) (beyond v) (beyond w) x };

    ghost kept: { (u v w : Self) (x : Option Write) → Self.Leaves v x w → Keeps u v → Keeps u w };
}

/// One step of a task that hasn't trapped. Whether the task goes on; where it is over, its trap is put, or none. Why the
/// core executed no instruction is left in `stop`.
#[inline(always)]
pub(crate) fn step_task<V: TaskView>(
    regs: &mut Regs,
    view: &mut V,
    budget: u64,
    stop: &mut Stop,
    trap: &mut Option<Trap>,
) -> bool
    ensures exact { Turns (step_by (V.terms view.old) budget) (task_now regs.old (V.scratch view.old) (V.beyond view.old) None)
        regs.new (V.scratch view.new) (V.beyond view.new) (turn result trap.new) }
    ensures terms { V.terms view.new ≡ V.terms view.old }
    ensures keeps { (first : V) → V.Keeps first view.old → V.Keeps first view.new }
{
    if regs.pc() == END_PC {
        *trap = None;
        return false;
    }
    if regs.done() >= budget {
        *trap = Some(trap_of(regs, BUDGET_SPENT, 0));
        return false;
    }
    if advance(regs, view, stop) {
        return true;
    }
    *trap = trap_by(regs, *stop);
    false
}

/// A stretch of at most `most` steps of a task that hasn't trapped, fewer where the task is over before. Its trap where
/// it traps.
pub fn stretch_task<V: TaskView>(
    regs: &mut Regs,
    view: &mut V,
    budget: u64,
    most: u64,
) -> Option<Trap>
    ensures exact { task_now regs.new (V.scratch view.new) (V.beyond view.new) result
        ≡ stretch_by (V.terms view.old) budget most (task_now regs.old (V.scratch view.old) (V.beyond view.old) None) }
    ensures terms { V.terms view.new ≡ V.terms view.old }
    ensures keeps { (first : V) → V.Keeps first view.old → V.Keeps first view.new }
{
    let mut stop = Stop::Ended;
    let mut trap = None;
    let mut left = most;
    while left > 0 {
        left -= 1;
        if !step_task(regs, view, budget, &mut stop, &mut trap) {
            return trap;
        }
    }
    None
}

/// The trap of a task where a core's step executes no instruction, by the registers then. No access of a task touches a
/// named object, and a task that has ended takes no step.
#[inline(always)]
fn trap_by(regs: &Regs, stop: Stop) -> Option<Trap>
    ensures { result ≡ trap_by regs.now stop }
{
    match stop {
        Stop::Call => Some(trap_of(regs, CALL_IN_TASK, regs.get(17))),
        Stop::Trapped(trap) => Some(trap),
        Stop::Ended | Stop::Touched => None,
    }
}

/// A trap of the instruction at the pc.
pub(crate) fn trap_of(regs: &Regs, cause: u32, value: u32) -> Trap
    ensures { result ≡ trap_of regs.now cause value }
{
    Trap {
        pc: regs.pc(),
        cause,
        value,
    }
}

// A task of the flat machine, from its first instruction to its end.
ghost use Rattle.std.specs.Prelude.{◌≡◌, ◌-◌, ◌≤◌, IsTrue};
ghost use Rattle.tss_base.specs.declared.bounds.TheConstants.{MAX_OPERANDS};
ghost use Rattle.tss_model.specs.Access.{reads, operands_of};
ghost use Rattle.tss_model.specs.TaskRun.{zeroed_outputs};
ghost use Rattle.tss_steps.specs.Placing.{are_placed, IsGround};
ghost use Rattle.tss_inorder.specs.Ran.{RunsOver, end_of};

use crate::views::HomeTask;
use tss_base::{Limits, Mode, Operand, Task, Trap};
use tss_core::Regs;
use tss_memory::{Code, Space};
use tss_steps::{Scratch, stretch_task};

/// What a task came to: its trap where it trapped, and how many instructions it completed.
#[derive(Clone, Copy, Debug)]
pub(crate) struct Ran {
    pub(crate) trap: Option<Trap>,
    pub(crate) done: u64,
}

/// Runs a task to its end: zeros at its outputs and in its scratch first.
pub(crate) fn run_task(
    space: &mut Space,
    code: &Code,
    scratch: &mut Scratch,
    task: &Task,
    limits: &Limits,
) -> Ran
    requires ground { IsGround space.old.ranges (operands_of task.now) }
    requires listed { task.now.listed ≤ MAX_OPERANDS }
    requires count { task.now.count ≤ MAX_OPERANDS }
    ensures memory { space.new ≡ (end_of code.now limits.now space.old task.now).memory }
    ensures trap { result.trap ≡ (end_of code.now limits.now space.old task.now).trap }
    ensures done { result.done ≡ (end_of code.now limits.now space.old task.now).registers.done }
    ensures ranges { space.new.ranges ≡ space.old.ranges }
{
    let operands = &task.operands[..task.count as usize];
    zero_outputs(space, operands);
    scratch.clear();
    let mut regs = Regs::task(task);
    let mut view = HomeTask {
        space,
        code,
        scratch,
        operands,
        near: 0,
    };
    let trap = run_to_end(&mut regs, &mut view, limits.task_budget);
    Ran {
        trap,
        done: regs.done(),
    }
}

/// Runs a task that hasn't trapped to its end. Its trap where it traps. After as many steps as its budget allows it is
/// over, or its next step is the trap of a spent budget.
fn run_to_end(regs: &mut Regs, view: &mut HomeTask, budget: u64) -> Option<Trap>
    ensures { RunsOver budget view.old regs.old view.new regs.new result }
{
    match stretch_task(regs, view, budget, budget) {
        Some(trap) => Some(trap),
        None => stretch_task(regs, view, budget, 1),
    }
}

/// Writes zeros at the objects of the operands that a task doesn't read.
fn zero_outputs(space: &mut Space, operands: &[Operand])
    requires { IsTrue (are_placed space.old.ranges operands.now) }
    ensures zeroed { space.new ≡ zeroed_outputs space.old operands.now }
    ensures ranges { space.new.ranges ≡ space.old.ranges }
{
    let mut i = operands.len();
    while i > 0 {
        i -= 1;
        let operand = operands[i];
        if !reads(operand.mode) {
            space.zero(&operand.object);
        }
    }
}

/// Whether a task has the value of an operand of this mode at its start.
fn reads(mode: Mode) -> bool
    ensures { result ≡ reads mode }
{
    match mode {
        Mode::Output => false,
        Mode::Input | Mode::Inout => true,
    }
}

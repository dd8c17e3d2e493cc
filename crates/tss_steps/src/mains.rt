// Main's steps that are no calls, over its registers and its view of memory.
ghost use Rattle.std.specs.Prelude.{◌≡◌, ◌-◌, ◌^◌, ◌<◌, ℕ, IfSome, option_map};
ghost use Rattle.tss_model.specs.Memory.{code_word};
ghost use Rattle.tss_model.specs.Registers.{register_at};
ghost use Rattle.tss_model.specs.Access.{Actor};
ghost use Rattle.tss_model.specs.Core.{core_step};
ghost use Rattle.tss_model.specs.MainStep.{call_of, called_by};
ghost use Rattle.tss_steps.specs.Left.{IsSameMain};
ghost use Rattle.tss_steps.specs.Mains.{StepsMain, StretchesMain, ending_of, main_turn};

use crate::placing::main_place;
use crate::tasks::trap_of;
use tss_base::addresses::END_PC;
use tss_base::causes::FETCH_OUTSIDE;
use tss_base::refusals::{MAIN_BUDGET_SPENT, MAIN_TOUCH};
use tss_base::{Ending, Limits, Range};
use tss_core::{Deny, Purpose, Regs, Stop, View, advance};
use tss_isa::{Instr, decode};
use tss_memory::{Code, Space};
use tss_operands::Epoch;

/// What main sees: memory, the code, and the objects that it has named. The range of memory at the place `near` is
/// tried first.
#[derive(Drop)]
pub(crate) struct MainView<'a> {
    pub(crate) space: &'a mut Space,
    pub(crate) code: &'a Code,
    pub(crate) epoch: &'a Epoch,
    pub(crate) near: u32,
}

impl View for MainView<'_> {
    ghost use Rattle.std.specs.Prelude.{refl};
    ghost use Rattle.tss_steps.specs.Seen.{main_sight};
    ghost use Rattle.tss_steps.specs.Left.{MainLeaves};

    ghost sight = { λ v. main_sight v.code.now v.epoch.now.objects v.space.now };

    ghost Leaves = { MainLeaves };

    ghost stays = { λ v. record { memory = refl; code = refl; epoch = refl; reference = refl } };

    #[inline(always)]
    fn fetch(&self, pc: u32) -> Option<u32> {
        self.code.fetch(pc)
    }

    #[inline(always)]
    fn kept(&self, pc: u32) -> Option<Instr> {
        self.code.kept(pc)
    }

    #[inline(always)]
    fn load(&mut self, at: u32, width: u32) -> Result<u32, Deny> {
        let r = Range {
            base: at,
            len: width,
        };
        let found = main_place(self.space, self.epoch, Purpose::Loads, &r, self.near)?;
        self.near = found.index;
        Ok(self.space.number(found, &r))
    }

    #[inline(always)]
    fn store(&mut self, at: u32, width: u32, value: u32) -> Result<(), Deny> {
        let r = Range {
            base: at,
            len: width,
        };
        let found = main_place(self.space, self.epoch, Purpose::Stores, &r, self.near)?;
        self.near = found.index;
        self.space.set_number(found, &r, value);
        Ok(())
    }
}

/// One step of main that hasn't ended. Whether main goes on; where it rests, at a call or with its ending, that is put.
/// Why the core executed no instruction is left in `stop`.
#[inline(always)]
pub(crate) fn step_main(
    regs: &mut Regs,
    view: &mut MainView,
    limits: &Limits,
    stop: &mut Stop,
    ending: &mut Option<Ending>,
) -> bool
    ensures exact { StepsMain view.old.code.now limits.now view.old.epoch.now.objects regs.old view.old.space.now
        regs.new view.new.space.now (main_turn result ending.new) }
    ensures same { IsSameMain view.old view.new }
{
    if regs.done() >= limits.main_budget {
        *ending = Some(Ending::Refused(MAIN_BUDGET_SPENT, regs.pc()));
        return false;
    }
    if advance(regs, view, stop) {
        return true;
    }
    *ending = ending_of(regs, *stop);
    false
}

/// A stretch of at most `most` steps of main that hasn't ended, fewer where it ends before or its next step is a call.
/// The ending, where it ends.
pub(crate) fn stretch_main(
    regs: &mut Regs,
    view: &mut MainView,
    limits: &Limits,
    most: u32,
) -> Option<Ending>
    ensures exact { StretchesMain view.old.code.now limits.now view.old.epoch.now.objects most regs.old view.old.space.now
        regs.new view.new.space.now result }
    ensures same { IsSameMain view.old view.new }
{
    let mut stop = Stop::Ended;
    let mut ending = None;
    let mut left = most;
    while left > 0 {
        left -= 1;
        if !step_main(regs, view, limits, &mut stop, &mut ending) {
            return ending;
        }
    }
    None
}

/// The ending of main where a core's step executes no instruction, by the registers then. There is no word where a task
/// ends, and a call is no ending.
#[inline(always)]
fn ending_of(regs: &Regs, stop: Stop) -> Option<Ending>
    ensures { result ≡ ending_of regs.now stop }
{
    match stop {
        Stop::Call => None,
        Stop::Ended => Some(Ending::MainTrap(trap_of(regs, FETCH_OUTSIDE, regs.pc()))),
        Stop::Trapped(trap) => Some(Ending::MainTrap(trap)),
        Stop::Touched => Some(Ending::Refused(MAIN_TOUCH, regs.pc())),
    }
}

/// The number in x17 where the step of these registers is an ECALL.
pub(crate) fn called_at(regs: &Regs, code: &Code) -> Option<u32>
    ensures exact { (actor : Actor) (byte : ℕ → ℕ)
        → option_map call_of result ≡ called_by regs.now (core_step actor byte (code_word code.now) regs.now) }
    ensures number { IfSome result (λ n. n ≡ register_at regs.now 17) }
{
    if regs.pc() == END_PC {
        return None;
    }
    let word = code.fetch(regs.pc())?;
    match decode(word)? {
        Instr::Ecall => Some(regs.get(17)),
        _ => None,
    }
}

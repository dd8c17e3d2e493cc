// One step of an actor.
ghost use Rattle.std.specs.Prelude.{◌≡◌, ◌==◌, ◌-◌, ◌%◌, ◌^◌, ◌<◌, ◌≤◌, IsTrue, IsFalse, IfOk, IfErr, IfSome, None};
ghost use Rattle.tss_isa.specs.InstrTable.{fits};
ghost use Rattle.tss_model.specs.Registers.{trap_of, onward};
ghost use Rattle.tss_model.specs.Core.{execute, load_from, store_to, result_in, jump_to, branch_if, moved, even};
ghost use Rattle.tss_core.specs.Views.{IsAfter, is_width};
ghost use Rattle.tss_core.specs.Steps.{Executes, IsStep, StepsTo, step_of, outcome_of, outcome_by, registers_after, write_of};

use crate::access::Deny;
use crate::arithmetic::{extended, load_width, op_of, op_result, passes, store_width};
use crate::regs::Regs;
use crate::view::View;
use tss_base::Trap;
use tss_base::addresses::END_PC;
use tss_base::causes::{
    BREAKPOINT, FETCH_OUTSIDE, ILLEGAL, JUMP_MISALIGNED, LOAD_DENIED, LOAD_MISALIGNED,
    STORE_DENIED, STORE_MISALIGNED,
};
use tss_isa::{Instr, LoadKind, StoreKind, decode};

/// What a step does: it executes an instruction; it meets ECALL, which is left to the actor; the actor stands where a
/// task has ended; it traps; or main touches an object that it has named. But for the first of these nothing changes.
#[derive(Clone, Copy, Debug, PartialEq, Eq)]
pub enum Outcome {
    Next,
    Call,
    Ended,
    Trapped(Trap),
    Touched,
}

/// Why a step executes no instruction, as an `Outcome` has it.
#[derive(Clone, Copy, Debug, PartialEq, Eq)]
pub enum Stop {
    Call,
    Ended,
    Trapped(Trap),
    Touched,
}

/// One step of the actor whose registers and view these are.
#[inline(always)]
pub fn step<V: View>(regs: &mut Regs, view: &mut V) -> Outcome
    requires { regs.old.done < 2 ^ 64 - 1 }
    ensures exact { result ≡ outcome_of (step_of (V.sight view.old) regs.old) }
    ensures registers { regs.new ≡ registers_after regs.old (step_of (V.sight view.old) regs.old) }
    ensures bytes { IsAfter (V.sight view.old) (write_of (step_of (V.sight view.old) regs.old)) (V.sight view.new) }
    ensures leaves { V.Leaves view.old (write_of (step_of (V.sight view.old) regs.old)) view.new }
{
    let mut stop = Stop::Ended;
    let done = advance(regs, view, &mut stop);
    outcome_by(done, stop)
}

/// The same step, with its outcome in two parts: whether it executes an instruction, and why not where it doesn't.
#[inline(always)]
pub fn advance<V: View>(regs: &mut Regs, view: &mut V, stop: &mut Stop) -> bool
    requires { regs.old.done < 2 ^ 64 - 1 }
    ensures exact { outcome_by result stop.new ≡ outcome_of (step_of (V.sight view.old) regs.old) }
    ensures registers { regs.new ≡ registers_after regs.old (step_of (V.sight view.old) regs.old) }
    ensures bytes { IsAfter (V.sight view.old) (write_of (step_of (V.sight view.old) regs.old)) (V.sight view.new) }
    ensures leaves { V.Leaves view.old (write_of (step_of (V.sight view.old) regs.old)) view.new }
{
    match instr_kept(regs, view) {
        Some(instr) => execute(regs, view, instr, stop),
        None => parted(step_read(regs, view), stop),
    }
}

/// The instruction at the pc, where the view keeps it.
#[inline(always)]
#[tactic(auto, using(crate::proofs::KeptLemmas::stepped_by_kept))]
fn instr_kept<V: View>(regs: &Regs, view: &V) -> Option<Instr>
    ensures { IfSome result (λ i. Executes (V.sight view.now) regs.now i) }
{
    view.kept(regs.pc())
}

/// A step by the word at the pc.
#[inline(never)]
fn step_read<V: View>(regs: &mut Regs, view: &mut V) -> Outcome
    requires { regs.old.done < 2 ^ 64 - 1 }
    ensures exact { result ≡ outcome_of (step_of (V.sight view.old) regs.old) }
    ensures registers { regs.new ≡ registers_after regs.old (step_of (V.sight view.old) regs.old) }
    ensures bytes { IsAfter (V.sight view.old) (write_of (step_of (V.sight view.old) regs.old)) (V.sight view.new) }
    ensures leaves { V.Leaves view.old (write_of (step_of (V.sight view.old) regs.old)) view.new }
{
    match instr_read(regs, view) {
        Ok(instr) => {
            let mut stop = Stop::Ended;
            let done = execute(regs, view, instr, &mut stop);
            outcome_by(done, stop)
        }
        Err(outcome) => outcome,
    }
}

/// The instruction at the pc by the word there, or what a step answers where there is none to execute.
#[inline(always)]
#[tactic(auto, unfolding(tss_model::specs::Core::core_step))]
fn instr_read<V: View>(regs: &Regs, view: &V) -> Result<Instr, Outcome>
    ensures instr { IfOk result (λ i. Executes (V.sight view.now) regs.now i) }
    ensures none { IfErr result (λ o. StepsTo (step_of (V.sight view.now) regs.now) regs.now regs.now o) }
{
    let pc = regs.pc();
    if pc == END_PC {
        return Err(Outcome::Ended);
    }
    let Some(word) = view.fetch(pc) else {
        return Err(Outcome::Trapped(trap_of(regs, FETCH_OUTSIDE, pc)));
    };
    match decode(word) {
        Some(instr) => Ok(instr),
        None => Err(Outcome::Trapped(trap_of(regs, ILLEGAL, word))),
    }
}

/// An outcome in its two parts.
#[inline(always)]
fn parted(outcome: Outcome, stop: &mut Stop) -> bool
    ensures { outcome_by result stop.new ≡ outcome }
{
    match outcome {
        Outcome::Next => true,
        Outcome::Call => stopped(Stop::Call, stop),
        Outcome::Ended => stopped(Stop::Ended, stop),
        Outcome::Trapped(trap) => stopped(Stop::Trapped(trap), stop),
        Outcome::Touched => stopped(Stop::Touched, stop),
    }
}

/// An outcome of its two parts.
#[inline(always)]
fn outcome_by(done: bool, stop: Stop) -> Outcome
    ensures { result ≡ outcome_by done stop }
{
    if done {
        return Outcome::Next;
    }
    match stop {
        Stop::Call => Outcome::Call,
        Stop::Ended => Outcome::Ended,
        Stop::Trapped(trap) => Outcome::Trapped(trap),
        Stop::Touched => Outcome::Touched,
    }
}

/// An instruction.
#[inline(always)]
fn execute<V: View>(regs: &mut Regs, view: &mut V, instr: Instr, stop: &mut Stop) -> bool
    requires done { regs.old.done < 2 ^ 64 - 1 }
    requires fits { IsTrue (fits instr) }
    ensures { IsStep (execute (V.sight view.old).actor (V.sight view.old).byte regs.old instr) regs.old regs.new
        (outcome_by result stop.new) (V.sight view.old) (V.sight view.new) (λ w. V.Leaves view.old w view.new) }
{
    match instr {
        Instr::Lui { rd, imm } => result_in(regs, rd, imm),
        Instr::Auipc { rd, imm } => result_in(regs, rd, regs.pc().wrapping_add(imm)),
        Instr::Jal { rd, offset } => jump_to(regs, rd, moved(regs.pc(), offset), stop),
        Instr::Jalr { rd, rs1, offset } => jump_to(
            regs,
            rd,
            even(moved(regs.get(rs1), offset)),
            stop,
        ),
        Instr::Branch {
            test,
            rs1,
            rs2,
            offset,
        } => {
            let taken = passes(test, regs.get(rs1), regs.get(rs2));
            branch_if(taken, regs, moved(regs.pc(), offset), stop)
        }
        Instr::Load {
            kind,
            rd,
            rs1,
            offset,
        } => load_from(regs, view, kind, rd, moved(regs.get(rs1), offset), stop),
        Instr::Store {
            kind,
            rs2,
            rs1,
            offset,
        } => store_to(
            regs,
            view,
            kind,
            moved(regs.get(rs1), offset),
            regs.get(rs2),
            stop,
        ),
        Instr::OpImm { op, rd, rs1, imm } => {
            let value = op_result(op_of(op), regs.get(rs1), imm.cast_unsigned());
            result_in(regs, rd, value)
        }
        Instr::Op { op, rd, rs1, rs2 } => {
            let value = op_result(op, regs.get(rs1), regs.get(rs2));
            result_in(regs, rd, value)
        }
        Instr::Fence { .. } => onward(regs),
        Instr::Ecall => stopped(Stop::Call, stop),
        Instr::Ebreak => trapped(regs, BREAKPOINT, regs.pc(), stop),
    }
}

/// A load from an address: whether that is a multiple of its width is tested before whether the actor may load there.
#[inline(always)]
fn load_from<V: View>(
    regs: &mut Regs,
    view: &mut V,
    kind: LoadKind,
    rd: u8,
    at: u32,
    stop: &mut Stop,
) -> bool
    requires done { regs.old.done < 2 ^ 64 - 1 }
    requires rd { rd < 32 }
    ensures { IsStep (load_from (V.sight view.old).actor (V.sight view.old).byte regs.old kind rd at) regs.old regs.new
        (outcome_by result stop.new) (V.sight view.old) (V.sight view.new) (λ w. V.Leaves view.old w view.new) }
{
    let width = load_width(kind);
    if !is_multiple(at, width) {
        return trapped(regs, LOAD_MISALIGNED, at, stop);
    }
    match view.load(at, width) {
        Ok(n) => result_in(regs, rd, extended(kind, n)),
        Err(Deny::Denied) => trapped(regs, LOAD_DENIED, at, stop),
        Err(Deny::Touch) => stopped(Stop::Touched, stop),
    }
}

/// A store to an address, with the same order of tests.
#[inline(always)]
fn store_to<V: View>(
    regs: &mut Regs,
    view: &mut V,
    kind: StoreKind,
    at: u32,
    value: u32,
    stop: &mut Stop,
) -> bool
    requires { regs.old.done < 2 ^ 64 - 1 }
    ensures { IsStep (store_to (V.sight view.old).actor regs.old kind at value) regs.old regs.new
        (outcome_by result stop.new) (V.sight view.old) (V.sight view.new) (λ w. V.Leaves view.old w view.new) }
{
    let width = store_width(kind);
    if !is_multiple(at, width) {
        return trapped(regs, STORE_MISALIGNED, at, stop);
    }
    match view.store(at, width, value) {
        Ok(()) => onward(regs),
        Err(Deny::Denied) => trapped(regs, STORE_DENIED, at, stop),
        Err(Deny::Touch) => stopped(Stop::Touched, stop),
    }
}

/// A value goes to a register.
#[inline(always)]
fn result_in(regs: &mut Regs, rd: u8, value: u32) -> bool
    requires done { regs.old.done < 2 ^ 64 - 1 }
    requires rd { rd < 32 }
    ensures step { StepsTo (result_in regs.old rd value) regs.old regs.new Outcome.Next }
    ensures next { IsTrue result }
{
    regs.set(rd, value);
    regs.called();
    true
}

/// A jump, which leaves the next pc in a register.
#[inline(always)]
fn jump_to(regs: &mut Regs, rd: u8, target: u32, stop: &mut Stop) -> bool
    requires done { regs.old.done < 2 ^ 64 - 1 }
    requires rd { rd < 32 }
    ensures { StepsTo (jump_to regs.old rd target) regs.old regs.new (outcome_by result stop.new) }
{
    if target % 4 != 0 {
        return trapped(regs, JUMP_MISALIGNED, target, stop);
    }
    regs.set(rd, regs.next_pc());
    regs.complete(target);
    true
}

/// A branch: x0 takes no next pc.
#[inline(always)]
fn branch_if(taken: bool, regs: &mut Regs, target: u32, stop: &mut Stop) -> bool
    requires { regs.old.done < 2 ^ 64 - 1 }
    ensures { StepsTo (branch_if taken regs.old target) regs.old regs.new (outcome_by result stop.new) }
{
    if taken {
        jump_to(regs, 0, target, stop)
    } else {
        onward(regs)
    }
}

/// An instruction that leaves nothing but the next pc.
#[inline(always)]
fn onward(regs: &mut Regs) -> bool
    requires { regs.old.done < 2 ^ 64 - 1 }
    ensures registers { regs.new ≡ onward regs.old }
    ensures next { IsTrue result }
{
    regs.called();
    true
}

/// A trap of the instruction at the pc, as why a step executes none.
#[inline(always)]
fn trapped(regs: &Regs, cause: u32, value: u32, stop: &mut Stop) -> bool
    ensures stop { stop.new ≡ Stop.Trapped (trap_of regs.now cause value) }
    ensures none { IsFalse result }
{
    stopped(Stop::Trapped(trap_of(regs, cause, value)), stop)
}

/// Why a step executes no instruction.
#[inline(always)]
fn stopped(why: Stop, stop: &mut Stop) -> bool
    ensures stop { stop.new ≡ why }
    ensures none { IsFalse result }
{
    *stop = why;
    false
}

/// A trap of the instruction at the pc.
#[inline(always)]
fn trap_of(regs: &Regs, cause: u32, value: u32) -> Trap
    ensures { result ≡ trap_of regs.now cause value }
{
    Trap {
        pc: regs.pc(),
        cause,
        value,
    }
}

/// A number moved by an offset, modulo 2^32.
#[inline(always)]
fn moved(x: u32, offset: i32) -> u32
    ensures { result ≡ moved x offset }
{
    x.wrapping_add_signed(offset)
}

/// A number with bit 0 cleared.
#[inline(always)]
fn even(n: u32) -> u32
    ensures { result ≡ even n }
{
    n & 0xFFFF_FFFE
}

/// Whether an address is a multiple of a width.
#[inline(always)]
fn is_multiple(at: u32, width: u32) -> bool
    requires { IsTrue (is_width width) }
    ensures { result ≡ (at % width == 0) }
{
    at & (width - 1) == 0
}

// The registers of an actor.
ghost use Rattle.std.specs.Prelude.{◌≡◌, ◌+◌, ◌-◌, ◌^◌, ◌<◌, ◌≤◌};
ghost use Rattle.tss_base.specs.declared.bounds.TheConstants.{MAX_OPERANDS};
ghost use Rattle.tss_model.specs.Registers.{register_at, with_register, completed, onward, next_pc, main_registers, task_registers};

use std::marker::Model;
use tss_base::Task;
use tss_base::addresses::{END_PC, SCRATCH_END, STACK_END};

/// The first register of a task's arguments.
const FIRST_ARGUMENT: usize = 10;

/// Registers x0 to x31, the pc, and the number of instructions completed. x0 is always 0.
#[derive(Clone, Copy, Debug)]
pub struct Regs {
    values: [u32; 32],
    pc: u32,
    done: u64,
}

impl Model for Regs {
    ghost use Rattle.std.specs.Prelude.{◌≡◌, slice_index};
    ghost use Rattle.tss_model.specs.Registers.{Registers};

    ghost Value = { Registers };

    ghost view = { λ r. record { values = r.values; pc = r.pc; done = r.done } };

    ghost invariant = { λ r. slice_index r.values 0 ≡ 0 };

    ghost inverse = { λ r. record { values = r.values; pc = r.pc; done = r.done } };
}

impl Regs {
    /// Main's at first: it begins at `entry`, with the end of its stack in x2.
    pub fn main(entry: u32) -> Regs
        ensures { result ≡ main_registers entry }
    {
        let mut values = [0; 32];
        values[2] = STACK_END;
        Regs {
            values,
            pc: entry,
            done: 0,
        }
    }

    /// A task's at first: it begins at its entry, with the address at which it ends in x1, the end of its scratch in
    /// x2, and from x10 on the bases of its operands as listed, then its argument.
    pub fn task(task: &Task) -> Regs
        requires { task.now.listed ≤ MAX_OPERANDS }
        ensures { result ≡ task_registers task.now }
    {
        let mut values = [0; 32];
        values[1] = END_PC;
        values[2] = SCRATCH_END;
        let listed = task.listed as usize;
        for i in 0..listed {
            values[FIRST_ARGUMENT + i] = task.bases[i];
        }
        values[FIRST_ARGUMENT + listed] = task.argument;
        Regs {
            values,
            pc: task.entry,
            done: 0,
        }
    }

    /// The value of a register.
    #[inline(always)]
    pub fn get(&self, r: u8) -> u32
        requires { r < 32 }
        ensures { result ≡ register_at self.now r }
    {
        self.values[r as usize]
    }

    /// Writes a register. x0 stays 0.
    #[inline(always)]
    pub fn set(&mut self, r: u8, value: u32)
        requires { r < 32 }
        ensures { self.new ≡ with_register self.old r value }
    {
        if r != 0 {
            self.values[r as usize] = value;
        }
    }

    /// The address of the next instruction.
    #[inline(always)]
    pub fn pc(&self) -> u32
        ensures { result ≡ self.now.pc }
    {
        self.pc
    }

    /// How many instructions have been completed.
    #[inline(always)]
    pub fn done(&self) -> u64
        ensures { result ≡ self.now.done }
    {
        self.done
    }

    /// An accepted call: the next instruction is 4 further, modulo 2^32, and one more is completed.
    #[inline(always)]
    pub fn called(&mut self)
        requires { self.old.done < 2 ^ 64 - 1 }
        ensures { self.new ≡ onward self.old }
    {
        self.complete(self.next_pc());
    }

    /// The address 4 further, modulo 2^32.
    #[inline(always)]
    pub(crate) fn next_pc(&self) -> u32
        ensures { result ≡ next_pc self.now }
    {
        self.pc.wrapping_add(4)
    }

    /// One more instruction is completed, and the next is at `pc`.
    #[inline(always)]
    pub(crate) fn complete(&mut self, pc: u32)
        requires { self.old.done < 2 ^ 64 - 1 }
        ensures { self.new ≡ completed self.old pc }
    {
        self.pc = pc;
        self.done += 1;
    }
}

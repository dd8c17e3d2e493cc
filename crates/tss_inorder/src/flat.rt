// The flat machine: main on one memory, where each spawned task runs at once.
ghost use Rattle.std.specs.Prelude.{◌≡◌, ◌-◌, ◌^◌, ◌≤◌, ◌<◌, IfOk, IfSome, Some, length, option_map};
ghost use Rattle.tss_base.specs.declared.bounds.TheConstants.{MAX_OPERANDS};
ghost use Rattle.tss_base.specs.Image.{ImageState};
ghost use Rattle.tss_model.specs.Memory.{frozen};
ghost use Rattle.tss_model.specs.Registers.{register_at};
ghost use Rattle.tss_model.specs.MainStep.{call_of, next_call, output_of};
ghost use Rattle.tss_model.specs.TaskRun.{task_end};
ghost use Rattle.tss_model.specs.InOrder.{flat_start, task_ran};
ghost use Rattle.tss_steps.specs.Placing.{CanRun};
ghost use Rattle.tss_inorder.specs.Flats.{ByDid, GoesFurther, called, did_at, did_by, did_in, did_ran, done_by, flat_of, stretched, with_flat};
ghost use Rattle.tss_inorder.specs.Order.{EndsInOrder, Follows, StandsInOrder};
ghost use Rattle.tss_inorder.specs.Restarts.{IsAtBarrier, StandsAtBarrier, restarted};

use crate::copying::copy_writable;
use crate::running::run_task;
use std::alloc::Global;
use std::marker::Model;
use tss_base::calls::{BARRIER, PRINT};
use tss_base::{Ending, Image, Limits, NoMemory, Range, Task};
use tss_core::Regs;
use tss_memory::{Code, Space};
use tss_steps::{Main, Scratch};

/// What an event of main was: a stretch of steps, a spawn with all of its task and the number of instructions that this
/// completed, a barrier, a print, or an await with its object. Or the run is over, by this event or before it.
#[derive(Clone, Copy, Debug, PartialEq, Eq)]
pub enum Did {
    Steps,
    Spawned(Task, u64),
    Barrier,
    Printed,
    Awaited(Range),
    Over(Ending),
}

/// Main with its memory, where each task that it spawns runs at once. Memory of the process is taken as it is opened,
/// and not after.
#[derive(Drop)]
pub struct Flat {
    code: Code,
    space: Space,
    scratch: Scratch,
    main: Main,
}

impl Model for Flat {
    ghost use Rattle.tss_inorder.specs.Flats.{FlatState};
    ghost use Rattle.tss_inorder.specs.Codes.{flat_code};
    ghost use Rattle.tss_inorder.specs.Grounds.{IsGrounded};

    ghost Value = { FlatState };

    ghost coded = { flat_code };

    ghost view = { λ f. record { limits = f.main.limits; code = f.code; main = f.main.main; memory = f.space } };

    ghost invariant = { λ f. IsGrounded f.space.ranges };
}

impl Flat {
    /// Main before its first instruction.
    pub fn open(alloc: Global, image: &Image, limits: &Limits) -> Result<Flat, NoMemory>
        requires { limits.now.max_operands ≤ MAX_OPERANDS }
        ensures start { IfOk result (λ f. flat_of f ≡ flat_start image.now) }
        ensures code { IfOk result (λ f. f.code ≡ frozen image.now) }
        ensures limits { IfOk result (λ f. f.limits ≡ limits.now) }
        ensures follows { IfOk result (Follows image.now) }
    {
        let entry = image.entry();
        let (space, code) = Space::load(alloc, image)?;
        let _first = space.range_at(0);
        Ok(Flat {
            code,
            space,
            scratch: Scratch::open(alloc)?,
            main: Main::open(alloc, entry, limits)?,
        })
    }

    /// One event of main: its next step where that is a call, with all of the task that it spawns, or else a stretch of
    /// at most `quantum` steps, fewer where main ends before or its next step is a call.
    pub fn stretch(&mut self, quantum: u32) -> Did
        requires { 0 < quantum }
        ensures exact { self.new ≡ stretched quantum self.old }
        ensures did { result ≡ did_in self.old self.new }
        ensures further { ByDid result (GoesFurther self.old self.new) (λ e. Unit {0}) }
        // Where it follows the execution in program order of an image, it goes on to do so, and comes to its end.
        ensures follows { (i : ImageState) → Follows i self.old → Follows i self.new }
        ensures in_order { (i : ImageState) → Follows i self.old
            → ByDid result (StandsInOrder i self.new) (EndsInOrder i self.new) }
    {
        self.event(quantum)
    }

    /// Goes on where main of another machine stands at a barrier, with these registers, so many tasks spawned, this
    /// output, and memory: the barrier call is done, and nothing is named. What can be written of memory has the bytes
    /// of that machine's, and the other ranges keep their own, which no call changes. No memory of the process is taken.
    pub fn restart(&mut self, regs: &Regs, spawned: u32, output: &[u8], space: &Space)
        requires barrier { IsAtBarrier self.old.code self.old.limits regs.now space.now }
        requires ranges { space.now.ranges ≡ self.old.memory.ranges }
        requires room { length output.now ≤ self.old.limits.output_bytes }
        ensures exact { self.new ≡ restarted self.old regs.now spawned output.now space.now }
        // Where program order stands there too, it follows program order from there on.
        ensures follows { (i : ImageState) → StandsAtBarrier i self.old regs.now spawned output.now space.now
            → Follows i self.new }
    {
        self.main.restart(regs, spawned, output);
        copy_writable(&mut self.space, space);
    }

    /// Main's registers.
    pub fn main(&self) -> &Regs
        ensures { result.now ≡ self.now.main.registers }
    {
        self.main.regs()
    }

    /// The number in x17 where main's next step is a call. None where it has ended or has spent its budget, or its next
    /// step is no ECALL.
    pub fn next_call(&self) -> Option<u32>
        ensures exact { option_map call_of result ≡ next_call self.now.code self.now.limits (flat_of self.now) }
        ensures number { IfSome result (λ n. n ≡ register_at self.now.main.registers 17) }
        ensures callable { IfSome result (λ n. self.now.main.registers.done < 2 ^ 64 - 1) }
    {
        self.main.next_call(&self.code)
    }

    /// Memory.
    pub fn space(&self) -> &Space
        ensures { result.now ≡ self.now.memory }
    {
        &self.space
    }

    /// How many tasks main has spawned.
    pub fn tasks(&self) -> u32
        ensures { result ≡ self.now.main.spawned }
    {
        self.main.spawned()
    }

    /// What main has printed.
    pub fn output(&self) -> &[u8]
        ensures exact { result.now ≡ output_of self.now.main.pieces }
        ensures few { length result.now ≤ self.now.limits.output_bytes }
    {
        self.main.output()
    }
}

impl Flat {
    /// An event of main: the machine after it, and what it was.
    fn event(&mut self, quantum: u32) -> Did
        ensures exact { self.new ≡ stretched quantum self.old }
        ensures did { result ≡ did_in self.old self.new }
    {
        let Some(number) = self.next_call() else {
            self.main.stretch(&self.code, &mut self.space, quantum);
            return match self.main.ending() {
                Some(ending) => Did::Over(ending),
                None => Did::Steps,
            };
        };
        self.call(number)
    }

    /// The call of this number, which main's next step is.
    fn call(&mut self, number: u32) -> Did
        requires next { Some (call_of number) ≡ next_call self.old.code self.old.limits (flat_of self.old) }
        requires number { number ≡ register_at self.old.main.registers 17 }
        requires callable { self.old.main.registers.done < 2 ^ 64 - 1 }
        ensures exact { self.new ≡ with_flat self.old (called self.old (call_of number)) }
        ensures did { result ≡ did_at self.new.main.ending (did_by self.old (Some (call_of number))) }
    {
        let object = self.main.awaited();
        match self.main.call(&self.space) {
            Some(task) => self.run_spawned(&task),
            None => match self.main.ending() {
                Some(ending) => Did::Over(ending),
                None => done_by(number, object),
            },
        }
    }

    /// The task that main has spawned, which runs at once.
    fn run_spawned(&mut self, task: &Task) -> Did
        requires { CanRun self.old.memory.ranges task.now }
        ensures exact { self.new ≡ with_flat self.old (task_ran self.old.main task.now (task_end self.old.code self.old.limits self.old.memory task.now)) }
        ensures did { result ≡ did_ran self.old task.now }
    {
        let ran = run_task(
            &mut self.space,
            &self.code,
            &mut self.scratch,
            task,
            self.main.limits(),
        );
        match ran.trap {
            Some(trap) => {
                let ending = Ending::TaskTrap(task.number, trap);
                self.main.end(ending);
                Did::Over(ending)
            }
            None => Did::Spawned(*task, ran.done),
        }
    }
}

/// What a call of this number was that spawned nothing and didn't end main, with the named object at the base in x10
/// before it.
fn done_by(number: u32, object: Option<Range>) -> Did
    ensures { result ≡ done_by number object }
{
    match object {
        _ if number == BARRIER => Did::Barrier,
        Some(object) if number != PRINT => Did::Awaited(object),
        _ => Did::Printed,
    }
}

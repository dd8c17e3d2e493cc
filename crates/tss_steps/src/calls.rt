// Main's calls.
ghost use Rattle.std.specs.Prelude.{◌≡◌, ◌-◌, ◌^◌, ◌<◌, IfSome, None, Some};
ghost use Rattle.tss_model.specs.Registers.{register_at};
ghost use Rattle.tss_model.specs.MainStep.{call_of, main_call, ExitCall, Spawn, Barrier, Print, Await, Unknown};
ghost use Rattle.tss_steps.specs.Placing.{CanRun};
ghost use Rattle.tss_steps.specs.Limited.{Calls};

use crate::main_state::Main;
use crate::tasks::trap_of;
use tss_base::calls::{AWAIT, BARRIER, EXIT, PRINT, SPAWN};
use tss_base::causes::{LOAD_DENIED, UNKNOWN_CALL};
use tss_base::refusals::{MAIN_TOUCH, NOT_NAMED, OUTPUT_FULL};
use tss_base::{Ending, Range, Task};
use tss_memory::Space;
use tss_operands::{SpawnWords, read_spawn};

impl Main {
    /// The call that main's next step is, by the number in x17, with the task that it spawns. Where main is refused or
    /// traps, that is its ending.
    pub fn call(&mut self, space: &Space) -> Option<Task>
        requires callable { self.old.main.registers.done < 2 ^ 64 - 1 }
        ensures exact { (self.new.main, result)
            ≡ main_call self.old.limits space.now self.old.main (call_of (register_at self.old.main.registers 17)) }
        ensures limits { self.new.limits ≡ self.old.limits }
        ensures runnable { IfSome result (CanRun space.now.ranges) }
    {
        match self.regs.get(17) {
            EXIT => self.exit(space),
            SPAWN => return self.spawn(space),
            BARRIER => self.barrier(space),
            PRINT => self.print(space),
            AWAIT => self.unname(space),
            number => self.unknown(space, number),
        }
        None
    }

    /// Exit, with the status in x10.
    fn exit(&mut self, space: &Space)
        requires { self.old.main.registers.done < 2 ^ 64 - 1 }
        ensures { Calls ExitCall space.now self.old self.new None }
    {
        let status = self.regs.get(10);
        self.regs.called();
        self.ending = Some(Ending::Exit(status));
    }

    /// A barrier: the objects that main has named are its own again.
    fn barrier(&mut self, space: &Space)
        requires { self.old.main.registers.done < 2 ^ 64 - 1 }
        ensures { Calls Barrier space.now self.old self.new None }
    {
        self.epoch.clear();
        self.regs.called();
    }

    /// An await of the named object with the base in x10: it is main's own again.
    fn unname(&mut self, space: &Space)
        requires { self.old.main.registers.done < 2 ^ 64 - 1 }
        ensures { Calls Await space.now self.old self.new None }
    {
        if self.epoch.unname(self.regs.get(10)) {
            self.regs.called();
        } else {
            self.ending = Some(Ending::Refused(NOT_NAMED, self.regs.pc()));
        }
    }

    /// A call of no number.
    fn unknown(&mut self, space: &Space, number: u32)
        ensures { Calls (Unknown number) space.now self.old self.new None }
    {
        let trap = trap_of(&self.regs, UNKNOWN_CALL, number);
        self.ending = Some(Ending::MainTrap(trap));
    }

    /// A print of the bytes in x10 and x11.
    fn print(&mut self, space: &Space)
        requires { self.old.main.registers.done < 2 ^ 64 - 1 }
        ensures { Calls Print space.now self.old self.new None }
    {
        let r = Range {
            base: self.regs.get(10),
            len: self.regs.get(11),
        };
        if r.len == 0 {
            self.regs.called();
            return;
        }
        if space.range_of(&r).is_none() {
            let trap = trap_of(&self.regs, LOAD_DENIED, r.base);
            self.ending = Some(Ending::MainTrap(trap));
        } else if self.epoch.touches(&r) {
            self.ending = Some(Ending::Refused(MAIN_TOUCH, self.regs.pc()));
        } else if u64::from(self.limits.output_bytes)
            < self.printed.bytes().len() as u64 + u64::from(r.len)
        {
            self.ending = Some(Ending::Refused(OUTPUT_FULL, self.regs.pc()));
        } else {
            self.printed.push(self.spawned, space.bytes(&r));
            self.regs.called();
        }
    }

    /// A spawn of the task in x10 to x13.
    fn spawn(&mut self, space: &Space) -> Option<Task>
        requires { self.old.main.registers.done < 2 ^ 64 - 1 }
        ensures call { Calls Spawn space.now self.old self.new result }
        ensures runnable { IfSome result (CanRun space.now.ranges) }
    {
        let words = SpawnWords {
            entry: self.regs.get(10),
            list: self.regs.get(11),
            count: self.regs.get(12),
            argument: self.regs.get(13),
        };
        match read_spawn(&words, space, &self.epoch, &self.limits, self.spawned) {
            Ok(task) => {
                self.regs.called();
                self.spawned = task.number;
                self.epoch.name_all(&task);
                Some(task)
            }
            Err(fault) => {
                self.ending = Some(Ending::Refused(fault.0, self.regs.pc()));
                None
            }
        }
    }
}

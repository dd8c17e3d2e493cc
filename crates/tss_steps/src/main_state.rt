// Main: its state, and its stretches and calls.
ghost use Rattle.std.specs.Prelude.{◌≡◌, ◌-◌, ◌^◌, ◌<◌, ◌≤◌, nat_lt, IfOk, IfSome, None, filter, length, option_map, slice_get};
ghost use Rattle.tss_base.specs.declared.bounds.TheConstants.{MAX_OPERANDS};
ghost use Rattle.tss_model.specs.Memory.{Memory};
ghost use Rattle.tss_model.specs.Registers.{register_at};
ghost use Rattle.tss_model.specs.MainStep.{awaited_object, call_of, main_ended, main_start, main_stretch, next_call, output_of};
ghost use Rattle.tss_steps.specs.Limited.{flat_of};
ghost use Rattle.tss_steps.specs.Restarts.{main_restarted};

use crate::mains::{MainView, called_at, stretch_main};
use crate::printed::Printed;
use std::alloc::Global;
use std::marker::Model;
use tss_base::{Ending, Limits, NoMemory, Range};
use tss_core::Regs;
use tss_memory::{Code, Space};
use tss_operands::Epoch;

/// Main, with the limits that it runs under: its registers, the number of tasks that it has spawned, the objects that it
/// has named and not taken back, what it has printed, and its ending where it has ended. Memory of the process is taken as
/// it is opened, and not after.
#[derive(Drop, Debug)]
pub struct Main {
    pub(crate) limits: Limits,
    pub(crate) regs: Regs,
    pub(crate) spawned: u32,
    pub(crate) epoch: Epoch,
    pub(crate) printed: Printed,
    pub(crate) ending: Option<Ending>,
    pub(crate) near: u32,
}

impl Model for Main {
    ghost use Rattle.tss_steps.specs.Limited.{LimitedMain, IsLimited};

    ghost Value = { LimitedMain };

    ghost view = { λ m. record {
      limits = m.limits;
      main = record {
        registers = m.regs;
        spawned = m.spawned;
        epoch = m.epoch.objects;
        pieces = m.printed.pieces;
        ending = m.ending;
      };
    } };

    ghost invariant = { λ m. IsLimited m.limits m.epoch.limit m.printed.limit m.spawned m.printed.pieces };
}

impl Main {
    /// Main before its first instruction, which is at `entry`.
    pub fn open(alloc: Global, entry: u32, limits: &Limits) -> Result<Main, NoMemory>
        requires { limits.now.max_operands ≤ MAX_OPERANDS }
        ensures { IfOk result (λ m. m ≡ record { limits = limits.now; main = main_start entry }) }
    {
        Ok(Main {
            limits: *limits,
            regs: Regs::main(entry),
            spawned: 0,
            epoch: Epoch::open(alloc, limits.epoch_objects)?,
            printed: Printed::open(alloc, limits.output_bytes)?,
            ending: None,
            near: 0,
        })
    }

    /// The limits that it runs under.
    pub fn limits(&self) -> &Limits
        ensures { result.now ≡ self.now.limits }
    {
        &self.limits
    }

    /// The registers.
    pub fn regs(&self) -> &Regs
        ensures { result.now ≡ self.now.main.registers }
    {
        &self.regs
    }

    /// How many tasks have been spawned.
    pub fn spawned(&self) -> u32
        ensures { result ≡ self.now.main.spawned }
    {
        self.spawned
    }

    /// The object that was named at a place in order of naming, from 0. None exactly where no more are named.
    pub fn epoch_at(&self, i: u32) -> Option<Range>
        ensures { result ≡ slice_get self.now.main.epoch i }
    {
        self.epoch.at(i)
    }

    /// How many objects are named.
    pub fn epoch_count(&self) -> u32
        ensures { result ≡ length self.now.main.epoch }
    {
        self.epoch.count()
    }

    /// The named object with the base in x10, which an await takes out of what is named. None exactly where no named
    /// object has that base.
    pub fn awaited(&self) -> Option<Range>
        ensures { result ≡ awaited_object self.now.main }
    {
        self.epoch.find(self.regs.get(10))
    }

    /// The ending, where main has ended.
    pub fn ending(&self) -> Option<Ending>
        ensures { result ≡ self.now.main.ending }
    {
        self.ending
    }

    /// All that main has printed.
    pub fn output(&self) -> &[u8]
        ensures exact { result.now ≡ output_of self.now.main.pieces }
        ensures few { length result.now ≤ self.now.limits.output_bytes }
    {
        self.printed.bytes()
    }

    /// A piece that main has printed, by its place from 0, with how many tasks had been spawned before it.
    pub fn piece_at(&self, i: u32) -> Option<(u32, &[u8])>
        ensures { option_map (λ p. record { before = p.0; bytes = p.1.now }) result ≡ slice_get self.now.main.pieces i }
    {
        self.printed.piece_at(i)
    }

    /// How many pieces main has printed.
    pub fn piece_count(&self) -> u32
        ensures { result ≡ length self.now.main.pieces }
    {
        self.printed.count()
    }

    /// What main has printed with fewer than `task` tasks spawned.
    pub fn output_before(&self, task: u32) -> &[u8]
        ensures { result.now ≡ output_of (filter (λ p. nat_lt p.before task) self.now.main.pieces) }
    {
        self.printed.bytes_before(task)
    }

    /// The number in x17 where main's next step is a call. None where it has ended or has spent its budget, or its next
    /// step is no ECALL.
    pub fn next_call(&self, code: &Code) -> Option<u32>
        ensures exact { (memory : Memory) → option_map call_of result ≡ next_call code.now self.now.limits (flat_of self.now memory) }
        ensures number { IfSome result (λ n. n ≡ register_at self.now.main.registers 17) }
        ensures callable { IfSome result (λ n. self.now.main.registers.done < 2 ^ 64 - 1) }
    {
        if self.ending.is_some() || self.regs.done() >= self.limits.main_budget {
            return None;
        }
        called_at(&self.regs, code)
    }

    /// A stretch of at most `most` steps over memory, fewer where main ends before or its next step is a call.
    pub fn stretch(&mut self, code: &Code, space: &mut Space, most: u32)
        ensures exact { flat_of self.new space.new ≡ main_stretch code.now self.old.limits most (flat_of self.old space.old) }
        ensures limits { self.new.limits ≡ self.old.limits }
    {
        if self.ending.is_some() {
            return;
        }
        let mut view = MainView {
            space,
            code,
            epoch: &self.epoch,
            near: self.near,
        };
        let ending = stretch_main(&mut self.regs, &mut view, &self.limits, most);
        self.near = view.near;
        self.ending = ending;
    }

    /// Main as it stands after a barrier at which it had these registers, so many tasks spawned, and this output. No
    /// memory of the process is taken.
    pub fn restart(&mut self, regs: &Regs, spawned: u32, output: &[u8])
        requires left { regs.now.done < self.old.limits.main_budget }
        requires room { length output.now ≤ self.old.limits.output_bytes }
        ensures { self.new ≡ record self.old { main = main_restarted regs.now spawned output.now } }
    {
        self.regs = *regs;
        self.regs.called();
        self.spawned = spawned;
        self.epoch.clear();
        self.printed.clear();
        if !output.is_empty() {
            self.printed.push(spawned, output);
        }
        self.ending = None;
    }

    /// Main ends.
    pub fn end(&mut self, ending: Ending)
        ensures { self.new ≡ record self.old { main = main_ended self.old.main ending } }
    {
        self.ending = Some(ending);
    }
}

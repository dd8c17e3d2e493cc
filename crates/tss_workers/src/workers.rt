// The worker cores.
ghost use Rattle.std.specs.Prelude.{◌≡◌, ◌↔◌, ◌<◌, ◌≤◌, false, IfOk, IsErr, IsSome, IsTrue, OnErr, OnOk, Some, is_none, option_map};
ghost use Rattle.std.specs.FinMap.{empty, get, insert, len, remove};
ghost use Rattle.tss_base.specs.declared.bounds.TheConstants.{MAX_OPERANDS};
ghost use Rattle.tss_base.specs.declared.machine.Key.TheVariants as key;
ghost use Rattle.tss_base.specs.Machine.{IsInRange};
ghost use Rattle.tss_protocol.specs.Workers.{can_exec, can_finish};
ghost use Rattle.tss_workers.specs.Seen.{CanGoOn, CanWork, ExecutesAt, WhereBusy, Zeroes, busy_of, new_worker};

use crate::running::{Worker, has_ended, run};
use crate::starting::zero_task;
use std::alloc::Global;
use std::marker::Model;
use tss_base::bounds::MAX_OPERANDS;
use tss_base::{Blocked, NoMemory, Sizes, Storage, Task, Trap};
use tss_buffers::Buffers;
use tss_core::Regs;
use tss_memory::{Code, Space};
use tss_steps::Scratch;
use tss_tables::Seats;

/// A task that is over, with its trap where it has trapped.
#[derive(Clone, Copy, Debug, PartialEq, Eq)]
pub struct Finished {
    pub task: u32,
    pub trap: Option<Trap>,
}

/// The worker cores, each idle or busy with a task. All memory is taken when they are opened: each worker has a scratch,
/// which stands among the idle ones while it is idle.
#[derive(Drop)]
pub struct Workers {
    busy: Seats<Worker>,
    idle: Seats<Scratch>,
}

impl Model for Workers {
    ghost use Rattle.std.specs.Coded.{coded_ℕ};
    ghost use Rattle.tss_tables.specs.Table.{table_code};
    ghost use Rattle.tss_workers.specs.contracts.running.Worker as worker;
    ghost use Rattle.tss_workers.specs.Seen.{WorkersState, HasScratches};

    ghost Value = { WorkersState };

    ghost coded = { table_code coded_ℕ (worker.the_row).coded };

    ghost view = { λ w. w.busy };

    ghost invariant = { λ w. HasScratches w.busy w.idle };
}

/// A stretch of the worker with a number, which is busy with a task that isn't over.
fn run_in(
    busy: &mut Seats<Worker>,
    w: u32,
    code: &Code,
    space: &mut Space,
    buffers: &mut Buffers,
    budget: u64,
    quantum: u32,
)
    requires banks { 0 < buffers.old.banks }
    requires going { WhereBusy (CanGoOn space.old.ranges buffers.old) (get busy.old.entries w) }
    requires further { IsTrue (can_exec (option_map busy_of (get busy.old.entries w))) }
    ensures { ExecutesAt w code.now budget quantum busy.old busy.new space.old space.new buffers.old buffers.new }
{
    match busy.get_mut(w) {
        Some(worker) => run(worker, code, space, buffers, budget, quantum),
        None => unreachable!(),
    }
}

impl Workers {
    /// As many idle workers as the machine has.
    pub fn open(alloc: Global, sizes: &Sizes) -> Result<Workers, NoMemory>
        requires { IsInRange key.Workers sizes.now.workers }
        ensures { IfOk result (λ w. w ≡ record { size = sizes.now.workers; entries = empty }) }
    {
        let mut idle = Seats::open(alloc, sizes.workers)?;
        for w in 0..sizes.workers {
            idle.add(w, Scratch::open(alloc)?);
        }
        Ok(Workers {
            busy: Seats::open(alloc, sizes.workers)?,
            idle,
        })
    }

    /// An idle worker begins a task, with zeros at its outputs and in its scratch. Blocked exactly where it is busy.
    pub fn start(
        &mut self,
        w: u32,
        task: &Task,
        storages: &[Storage; MAX_OPERANDS as usize],
        space: &mut Space,
        buffers: &mut Buffers,
    ) -> Result<(), Blocked>
        requires worker { w < self.old.size }
        requires banks { 0 < buffers.old.banks }
        requires listed { task.now.listed ≤ MAX_OPERANDS }
        requires works { CanWork space.old.ranges buffers.old task.now storages.now }
        ensures blocked { IsErr result ↔ IsSome (get self.old.entries w) }
        ensures begun { OnOk result (self.new ≡ record self.old {
          entries = insert self.old.entries w (new_worker task.now storages.now);
        }) }
        ensures zeroed { OnOk result (Zeroes task.now storages.now space.old space.new buffers.old buffers.new) }
        ensures unchanged { OnErr result (self.new ≡ self.old) }
        ensures home { OnErr result (space.new ≡ space.old) }
        ensures buffers { OnErr result (buffers.new ≡ buffers.old) }
    {
        if self.busy.has(w) {
            return Err(Blocked);
        }
        zero_task(task, storages, space, buffers);
        let mut scratch = match self.idle.remove(w) {
            Some(scratch) => scratch,
            None => unreachable!(),
        };
        scratch.clear();
        let worker = Worker {
            task: *task,
            storages: *storages,
            regs: Regs::task(task),
            scratch,
            trap: None,
        };
        self.busy.add(w, worker);
        Ok(())
    }

    /// A busy worker goes on by at most `quantum` steps, fewer where its task ends or traps before. Blocked exactly where
    /// it is idle or its task is over.
    pub fn exec(
        &mut self,
        w: u32,
        code: &Code,
        space: &mut Space,
        buffers: &mut Buffers,
        budget: u64,
        quantum: u32,
    ) -> Result<(), Blocked>
        requires banks { 0 < buffers.old.banks }
        requires going { WhereBusy (CanGoOn space.old.ranges buffers.old) (get self.old.entries w) }
        ensures blocked { IsErr result ↔ (can_exec (option_map busy_of (get self.old.entries w)) ≡ false) }
        ensures exact { OnOk result (ExecutesAt w code.now budget quantum self.old self.new
            space.old space.new buffers.old buffers.new) }
        ensures unchanged { OnErr result (self.new ≡ self.old) }
        ensures home { OnErr result (space.new ≡ space.old) }
        ensures buffers { OnErr result (buffers.new ≡ buffers.old) }
    {
        if !self.can_exec(w) {
            return Err(Blocked);
        }
        run_in(&mut self.busy, w, code, space, buffers, budget, quantum);
        Ok(())
    }

    /// A worker whose task is over becomes idle. Blocked exactly where it is idle or its task isn't over.
    pub fn finish(&mut self, w: u32) -> Result<Finished, Blocked>
        requires { w < self.old.size }
        ensures blocked { IsErr result ↔ (can_finish (option_map busy_of (get self.old.entries w)) ≡ false) }
        ensures exact { IfOk result (λ f. option_map (λ x. record { task = x.task.number; trap = x.trap })
            (get self.old.entries w) ≡ Some f) }
        ensures idle { OnOk result (self.new ≡ record self.old { entries = remove self.old.entries w }) }
        ensures unchanged { OnErr result (self.new ≡ self.old) }
    {
        if !self.can_finish(w) {
            return Err(Blocked);
        }
        match self.busy.remove(w) {
            Some(worker) => {
                let finished = Finished {
                    task: worker.task.number,
                    trap: worker.trap,
                };
                self.idle.add(w, worker.scratch);
                Ok(finished)
            }
            None => unreachable!(),
        }
    }

    /// Whether the worker is idle.
    pub fn is_idle(&self, w: u32) -> bool
        ensures { result ≡ is_none (get self.now.entries w) }
    {
        !self.busy.has(w)
    }

    /// Whether the worker is busy with a task that isn't over.
    pub fn can_exec(&self, w: u32) -> bool
        ensures { result ≡ can_exec (option_map busy_of (get self.now.entries w)) }
    {
        match self.busy.get(w) {
            Some(worker) => !has_ended(worker),
            None => false,
        }
    }

    /// Whether the worker is busy with a task that is over.
    pub fn can_finish(&self, w: u32) -> bool
        ensures { result ≡ can_finish (option_map busy_of (get self.now.entries w)) }
    {
        match self.busy.get(w) {
            Some(worker) => has_ended(worker),
            None => false,
        }
    }

    /// How many workers are busy.
    pub fn busy(&self) -> u32
        ensures exact { result ≡ len self.now.entries }
        ensures within { len self.now.entries ≤ self.now.size }
    {
        self.busy.len()
    }

    /// The task of a worker, with its trap where it has trapped. None exactly where the worker is idle.
    pub fn task(&self, w: u32) -> Option<(u32, Option<Trap>)>
        ensures { result ≡ option_map (λ x. (x.task.number, x.trap)) (get self.now.entries w) }
    {
        match self.busy.get(w) {
            Some(worker) => Some((worker.task.number, worker.trap)),
            None => None,
        }
    }

    /// What a worker is busy with. None exactly where it is idle.
    pub fn worker(&self, w: u32) -> Option<&Worker>
        ensures { option_map (λ x. x.now) result ≡ get self.now.entries w }
    {
        self.busy.get(w)
    }

    /// The registers of a busy worker.
    pub fn regs(&self, w: u32) -> &Regs
        requires { IsSome (get self.now.entries w) }
        ensures { option_map (λ x. x.regs) (get self.now.entries w) ≡ Some result.now }
    {
        match self.busy.get(w) {
            Some(worker) => &worker.regs,
            None => unreachable!(),
        }
    }

    /// The scratch of a busy worker.
    pub fn scratch(&self, w: u32) -> &Scratch
        requires { IsSome (get self.now.entries w) }
        ensures { option_map (λ x. x.scratch) (get self.now.entries w) ≡ Some result.now }
    {
        match self.busy.get(w) {
            Some(worker) => &worker.scratch,
            None => unreachable!(),
        }
    }
}

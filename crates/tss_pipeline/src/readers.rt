// What the machine shows of itself.
ghost use Rattle.std.specs.Prelude.{◌≡◌, IsSome, Some, length, option_and_then, option_map, slice_get};
ghost use Rattle.std.specs.FinMap.{get, len};
ghost use Rattle.tss_maps.specs.Ordered.{key_at};
ghost use Rattle.tss_model.specs.Memory.{scratch_range};
ghost use Rattle.tss_protocol.specs.Gateway.{held_tasks};
ghost use Rattle.tss_protocol.specs.Mail.{message_at, message_names};
ghost use Rattle.tss_protocol.specs.Stations.{operand_at};
ghost use Rattle.tss_gateway.specs.Seen.{told_at};
ghost use Rattle.tss_stations.specs.Reading.{found_in};
ghost use Rattle.tss_stations.specs.Views.{state_of};
ghost use Rattle.tss_events.specs.Events.{message_of};

use crate::pipeline::Pipeline;
use tss_base::{Ending, Event, Machine, OpName, Range, Stage, Task, Trap};
use tss_core::Regs;
use tss_events::Message;
use tss_stations::OperandView;

impl Pipeline {
    /// The machine's description.
    pub fn machine(&self) -> &Machine
        ensures { result.now ≡ self.now.machine }
    {
        &self.units.machine
    }

    /// How many tasks main has spawned.
    pub fn spawned(&self) -> u32
        ensures { result ≡ self.now.state.main.spawned }
    {
        self.units.main.spawned()
    }

    /// How many objects are named now: since the last barrier, and not awaited since.
    pub fn epoch_count(&self) -> u32
        ensures { result ≡ length self.now.state.main.epoch }
    {
        self.units.main.epoch_count()
    }

    /// How many pieces main has printed.
    pub fn piece_count(&self) -> u32
        ensures { result ≡ length self.now.state.main.pieces }
    {
        self.units.main.piece_count()
    }

    /// Main's registers.
    pub fn main(&self) -> &Regs
        ensures { result.now ≡ self.now.state.main.registers }
    {
        self.units.main.regs()
    }

    /// Main's ending, where it has ended.
    pub fn main_ending(&self) -> Option<Ending>
        ensures { result ≡ self.now.state.main.ending }
    {
        self.units.main.ending()
    }

    /// The object that was named at a place in order of naming, from 0.
    pub fn epoch_at(&self, i: u32) -> Option<Range>
        ensures { result ≡ slice_get self.now.state.main.epoch i }
    {
        self.units.main.epoch_at(i)
    }

    /// A piece that main has printed, by its place from 0, with how many tasks had been spawned before it.
    pub fn piece_at(&self, i: u32) -> Option<(u32, &[u8])>
        ensures { option_map (λ p. record { before = p.0; bytes = p.1.now }) result
            ≡ slice_get self.now.state.main.pieces i }
    {
        self.units.main.piece_at(i)
    }

    /// The task in the inbox.
    pub fn inbox(&self) -> Option<&Task>
        ensures { option_map (λ t. t.now) result ≡ self.now.state.inbox }
    {
        self.units.gateway.inbox()
    }

    /// How many tasks the gateway holds.
    pub fn held_count(&self) -> u32
        ensures { result ≡ length (held_tasks self.now.state.gateway) }
    {
        self.units.gateway.tasks()
    }

    /// A task that the gateway holds, by its place from 0, and how many of its operands are still to be acknowledged.
    pub fn held_at(&self, i: u32) -> Option<(u32, u32)>
        ensures { result ≡ told_at (slice_get (held_tasks self.now.state.gateway) i) }
    {
        self.units.gateway.held_at(i)
    }

    /// How many tasks are in flight.
    pub fn task_count(&self) -> u32
        ensures { result ≡ len self.now.state.flight }
    {
        self.units.stations.count()
    }

    /// A task in flight by its place from 0, in order of number, and its stage.
    pub fn task_at(&self, i: u32) -> Option<(&Task, Stage)>
        ensures number { option_map (λ t. t.0.now.number) result ≡ key_at self.now.state.flight i }
        ensures task { option_map (λ t. (t.0.now, t.1)) result
            ≡ option_and_then (found_in self.now.state.flight) (key_at self.now.state.flight i) }
    {
        self.units.stations.task_at(i)
    }

    /// A task in flight by its number, and its stage.
    pub fn find(&self, task: u32) -> Option<(&Task, Stage)>
        ensures { option_map (λ t. (t.0.now, t.1)) result ≡ found_in self.now.state.flight task }
    {
        self.units.stations.find(task)
    }

    /// How many operands a task in flight has.
    pub fn operand_count(&self, task: u32) -> Option<u32>
        ensures { result ≡ option_map (λ x. length x.operands) (get self.now.state.flight task) }
    {
        self.units.stations.operand_count(task)
    }

    /// What is known of an operand of a task in flight.
    pub fn operand(&self, o: OpName) -> Option<OperandView>
        ensures { option_map state_of result ≡ operand_at self.now.state.flight o }
    {
        self.units.stations.operand(o)
    }

    /// How many tasks are in the ready queue.
    pub fn queue_count(&self) -> u32
        ensures { result ≡ length self.now.state.queue }
    {
        self.units.queue.len()
    }

    /// A task of the ready queue by its place, from 0 at the front.
    pub fn queue_at(&self, i: u32) -> Option<u32>
        ensures { result ≡ slice_get self.now.state.queue i }
    {
        self.units.queue.at(i)
    }

    /// The task of a worker, and its trap where it has trapped.
    pub fn task(&self, w: u32) -> Option<(u32, Option<Trap>)>
        ensures { result ≡ option_map (λ b. (b.task.number, b.trap)) (get self.now.state.workers w) }
    {
        self.units.workers.task(w)
    }

    /// The registers of a busy worker.
    pub fn regs(&self, w: u32) -> &Regs
        requires { IsSome (get self.now.state.workers w) }
        ensures { option_map (λ b. b.registers) (get self.now.state.workers w) ≡ Some result.now }
    {
        self.units.workers.regs(w)
    }

    /// The scratch of a busy worker.
    pub fn scratch(&self, w: u32) -> &[u8]
        requires { IsSome (get self.now.state.workers w) }
        ensures exact { option_map (λ b. b.scratch) (get self.now.state.workers w) ≡ Some result.now }
        ensures whole { length result.now ≡ scratch_range.len }
    {
        self.units.workers.scratch(w).bytes()
    }

    /// How many messages are under way.
    pub fn message_count(&self) -> u32
        ensures { result ≡ length (message_names self.now.state.mail) }
    {
        self.units.mail.count()
    }

    /// The name of a message by its place, from 0, in the order of events.
    pub fn message_at(&self, i: u32) -> Option<Event>
        ensures { result ≡ slice_get (message_names self.now.state.mail) i }
    {
        self.units.mail.at(i)
    }

    /// The message of a name.
    pub fn see(&self, name: &Event) -> Option<&Message>
        ensures { option_map (λ m. message_of m.now) result ≡ message_at self.now.state.mail name.now }
    {
        self.units.mail.see(name)
    }

    /// The held trap: the number of its task, and the trap.
    pub fn trap(&self) -> Option<(u32, Trap)>
        ensures { option_map (λ t. record { task = t.0; trap = t.1 }) result ≡ self.now.state.trap }
    {
        match self.units.trap {
            Some(held) => Some((held.task, held.trap)),
            None => None,
        }
    }
}

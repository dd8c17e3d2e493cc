// The reservation stations.
ghost use Rattle.std.specs.Prelude.{◌≡◌, ◌<◌, ◌≤◌, IfOk, IsTrue, None, is_some, length, option_and_then, option_map};
ghost use Rattle.std.specs.FinMap as map;
ghost use Rattle.tss_base.specs.declared.machine.Key.TheVariants as key;
ghost use Rattle.tss_base.specs.Machine.{IsInRange};
ghost use Rattle.tss_maps.specs.Ordered.{key_at};
ghost use Rattle.tss_protocol.specs.Stations.{has_slot, tasks_in, flight_after_take, after_ready, after_link, flight_after_finish, after_bye, operand_at};
ghost use Rattle.tss_events.specs.Events.{source_of, messages_of};
ghost use Rattle.tss_stations.specs.Views.{flight_of, state_of, new_slot, view_in};
ghost use Rattle.tss_stations.specs.Slots.{slots_after_ready, slots_after_link, slots_after_bye, slots_after_start, slots_after_finish};
ghost use Rattle.tss_stations.specs.Passing.{sent_on_ready, sent_on_link};
ghost use Rattle.tss_stations.specs.Reading.{found_in, started};

use crate::operand_view::OperandView;
use crate::slot::Slot;
use crate::slots::Slots;
use std::alloc::Global;
use std::marker::Model;
use tss_base::{NoMemory, OpName, Sizes, Stage, Storage, Task};
use tss_events::Sent;

/// Tasks in flight, each in a slot of its station. A contract sees the sizes of the machine, and the slots under the
/// numbers of their tasks.
#[derive(Drop)]
pub struct Stations {
    slots: Slots,
}

impl Model for Stations {
    ghost use Rattle.tss_stations.specs.Slots.{StationsState, stations_code};

    ghost Value = { StationsState };

    ghost coded = { stations_code };

    ghost view = { λ s. s.slots };
}

impl Stations {
    /// Stations of the machine's sizes, with no task.
    pub fn open(alloc: Global, sizes: &Sizes) -> Result<Stations, NoMemory>
        requires stations { IsInRange key.Stations sizes.now.stations }
        requires slots { IsInRange key.Slots sizes.now.slots }
        ensures { IfOk result (λ s. s ≡ record { sizes = sizes.now; slots = map.empty }) }
    {
        Ok(Stations {
            slots: Slots::open(alloc, sizes)?,
        })
    }

    /// Whether the station of a task has a free slot. Tasks have numbers from 1.
    pub fn room(&self, task: u32) -> bool
        requires { 1 ≤ task }
        ensures { result ≡ has_slot self.now.sizes (flight_of self.now.slots) task }
    {
        self.slots.room(task)
    }

    /// How many tasks in flight have a station.
    pub fn taken(&self, station: u32) -> u32
        requires { station < self.now.sizes.stations }
        ensures { result ≡ tasks_in self.now.sizes station (flight_of self.now.slots) }
    {
        self.slots.taken(station)
    }

    /// How many tasks are in flight.
    pub fn count(&self) -> u32
        ensures { result ≡ map.len (flight_of self.now.slots) }
    {
        self.slots.len()
    }

    /// Lets a task into a slot of its station. A task without operands is queued.
    pub fn enter(&mut self, task: &Task)
        requires room { IsTrue (has_slot self.old.sizes (flight_of self.old.slots) task.now.number) }
        requires fresh { map.get (flight_of self.old.slots) task.now.number ≡ None }
        ensures exact { self.new ≡ record self.old {
          slots = map.insert self.old.slots task.now.number (new_slot task.now);
        } }
        ensures flight { flight_of self.new.slots ≡ flight_after_take (flight_of self.old.slots) task.now }
    {
        self.slots.add(Slot::new(task));
    }

    /// Tells an operand its version and the storage of its value, which it passes on where it holds a link. The flag
    /// says whether the operands of its task are now all ready, so that the task is queued.
    pub fn ready(&mut self, o: OpName, version: OpName, storage: Storage) -> (Sent, bool)
        ensures exact { self.new ≡ record self.old { slots = slots_after_ready self.old.slots o version storage } }
        ensures flight { flight_of self.new.slots
            ≡ (after_ready (flight_of self.old.slots) o (source_of version storage)).flight }
        ensures messages { result.0 ≡ sent_on_ready version storage (view_in self.old.slots o) }
        ensures sent { messages_of result.0 ≡ (after_ready (flight_of self.old.slots) o (source_of version storage)).sent }
        ensures queued { result.1 ≡ (after_ready (flight_of self.old.slots) o (source_of version storage)).queued }
    {
        let Some(operand) = self.operand(o) else {
            return (Sent::new(), false);
        };
        let sent = operand.passed_on(version, storage);
        self.slots.write(o, operand.told(version, storage));
        let complete = self.slots.wake(o.task);
        (sent, complete)
    }

    /// Tells an operand which comes next in its version's chain. It passes its version on, or holds the link until it is
    /// ready.
    pub fn link(&mut self, o: OpName, next: OpName) -> Sent
        ensures exact { self.new ≡ record self.old { slots = slots_after_link self.old.slots o next } }
        ensures flight { flight_of self.new.slots ≡ (after_link (flight_of self.old.slots) o next).part }
        ensures messages { result ≡ sent_on_link next (view_in self.old.slots o) }
        ensures sent { messages_of result ≡ (after_link (flight_of self.old.slots) o next).sent }
    {
        let Some(operand) = self.operand(o) else {
            return Sent::new();
        };
        let sent = operand.told_next(next);
        self.slots.write(o, operand.linked(next));
        self.slots.settle(o.task);
        sent
    }

    /// A queued task runs.
    pub fn begin(&mut self, task: u32)
        ensures exact { self.new ≡ record self.old { slots = slots_after_start self.old.slots task } }
        ensures flight { flight_of self.new.slots ≡ started (flight_of self.old.slots) task }
    {
        if self.slots.get(task).is_some() {
            self.slots.advance(task, Stage::Running);
        }
    }

    /// A running task has finished. Its slot is free as soon as its operands have all left.
    pub fn finish(&mut self, task: u32)
        ensures exact { self.new ≡ record self.old { slots = slots_after_finish self.old.slots task } }
        ensures flight { flight_of self.new.slots ≡ (flight_after_finish (flight_of self.old.slots) task).part }
    {
        if self.slots.get(task).is_some() {
            self.slots.advance(task, Stage::Finished);
            self.slots.settle(task);
        }
    }

    /// The farewell of an operand, which waits for its link where one is promised and hasn't passed.
    pub fn bye(&mut self, o: OpName, promised: bool)
        ensures exact { self.new ≡ record self.old { slots = slots_after_bye self.old.slots o promised } }
        ensures flight { flight_of self.new.slots ≡ after_bye (flight_of self.old.slots) o promised }
    {
        let Some(operand) = self.operand(o) else {
            return;
        };
        self.slots.write(o, operand.parted(promised));
        self.slots.settle(o.task);
    }

    /// The task at a place, from 0, of the tasks in flight by number, with its stage.
    pub fn task_at(&self, i: u32) -> Option<(&Task, Stage)>
        ensures { option_map (λ t. (t.0.now, t.1)) result
            ≡ option_and_then (found_in (flight_of self.now.slots)) (key_at self.now.slots i) }
    {
        self.find(self.slots.task_at(i)?)
    }

    /// A task in flight by its number, with its stage.
    pub fn find(&self, task: u32) -> Option<(&Task, Stage)>
        ensures { option_map (λ t. (t.0.now, t.1)) result ≡ found_in (flight_of self.now.slots) task }
    {
        let slot = self.slots.get(task)?;
        Some((&slot.task, slot.stage))
    }

    /// Whether a task is in flight.
    pub fn has(&self, task: u32) -> bool
        ensures { result ≡ is_some (map.get (flight_of self.now.slots) task) }
    {
        self.slots.get(task).is_some()
    }

    /// How many operands a task in flight has.
    pub fn operand_count(&self, task: u32) -> Option<u32>
        ensures { result ≡ option_map (λ x. length x.operands) (map.get (flight_of self.now.slots) task) }
    {
        match self.slots.get(task) {
            Some(slot) => Some(slot.count()),
            None => None,
        }
    }

    /// What is known of an operand of a task in flight.
    pub fn operand(&self, o: OpName) -> Option<OperandView>
        ensures exact { result ≡ view_in self.now.slots o }
        ensures state { option_map state_of result ≡ operand_at (flight_of self.now.slots) o }
    {
        self.slots.get(o.task)?.operand(o.place)
    }

    /// Ends the stations, with the tasks that are in flight.
    pub fn close(self) {
        let Stations { slots: _ } = self;
    }
}

// Slots of stations.
ghost use Rattle.std.specs.Prelude.{◌≡◌, ◌<◌, IfOk, IsSome, IsTrue, None, Some, option_map};
ghost use Rattle.std.specs.FinMap as map;
ghost use Rattle.tss_base.specs.declared.machine.Key.TheVariants as key;
ghost use Rattle.tss_base.specs.Machine.{IsInRange};
ghost use Rattle.tss_maps.specs.Ordered.{key_at};
ghost use Rattle.tss_protocol.specs.Names.{station_of};
ghost use Rattle.tss_protocol.specs.Stations.{has_slot, is_complete, tasks_in};
ghost use Rattle.tss_stations.specs.Views.{flying_of, flight_of, view_in, with_view};
ghost use Rattle.tss_stations.specs.Slots.{awaited_slot, remaining_slots};

use crate::operand_view::OperandView;
use crate::slot::Slot;
use std::alloc::Global;
use std::marker::Model;
use tss_base::bounds::MAX_STATIONS;
use tss_base::{NoMemory, OpName, Sizes, Stage};
use tss_tables::Table;

/// The slots of all stations under the numbers of their tasks, and how many of each station are taken. A contract sees
/// the sizes and the slots.
#[derive(Drop)]
pub struct Slots {
    sizes: Sizes,
    counts: [u32; MAX_STATIONS as usize],
    table: Table<Slot>,
}

impl Model for Slots {
    ghost use Rattle.tss_stations.specs.Slots.{StationsState, stations_code, AreSlots};

    ghost Value = { StationsState };

    ghost coded = { stations_code };

    ghost view = { λ s. record { sizes = s.sizes; slots = s.table.entries } };

    ghost invariant = { λ s. AreSlots s.sizes s.counts s.table };
}

/// The station of a task.
fn station_of(sizes: &Sizes, task: u32) -> usize
    requires { 0 < sizes.now.stations }
    ensures exact { result ≡ station_of sizes.now task }
    ensures within { result < sizes.now.stations }
{
    (task.saturating_sub(1) % sizes.stations) as usize
}

impl Slots {
    /// All slots free.
    pub fn open(alloc: Global, sizes: &Sizes) -> Result<Slots, NoMemory>
        requires stations { IsInRange key.Stations sizes.now.stations }
        requires slots { IsInRange key.Slots sizes.now.slots }
        ensures { IfOk result (λ s. s ≡ record { sizes = sizes.now; slots = map.empty }) }
    {
        Ok(Slots {
            sizes: *sizes,
            counts: [0; MAX_STATIONS as usize],
            table: Table::open(alloc, sizes.stations * sizes.slots)?,
        })
    }

    /// Whether the station of a task has a free slot.
    pub fn room(&self, task: u32) -> bool
        ensures { result ≡ has_slot self.now.sizes (flight_of self.now.slots) task }
    {
        self.counts[station_of(&self.sizes, task)] < self.sizes.slots
    }

    /// How many slots of a station are taken.
    pub fn taken(&self, station: u32) -> u32
        requires { station < self.now.sizes.stations }
        ensures { result ≡ tasks_in self.now.sizes station (flight_of self.now.slots) }
    {
        self.counts[station as usize]
    }

    /// How many slots are taken in all.
    pub fn len(&self) -> u32
        ensures { result ≡ map.len self.now.slots }
    {
        self.table.len()
    }

    /// Takes a slot for a task.
    pub fn add(&mut self, slot: Slot)
        requires room { IsTrue (has_slot self.old.sizes (flight_of self.old.slots) slot.task.number) }
        requires fresh { map.get self.old.slots slot.task.number ≡ None }
        ensures { self.new ≡ record self.old { slots = map.insert self.old.slots slot.task.number slot } }
    {
        self.counts[station_of(&self.sizes, slot.task.number)] += 1;
        self.table.add(slot.task.number, slot);
    }

    /// The slot of a task.
    pub fn get(&self, task: u32) -> Option<&Slot>
        ensures { option_map (λ x. x.now) result ≡ map.get self.now.slots task }
    {
        self.table.get(task)
    }

    /// The number of the task at a place, from 0, of the tasks in order.
    pub fn task_at(&self, place: u32) -> Option<u32>
        ensures { result ≡ key_at self.now.slots place }
    {
        self.table.key_at(place)
    }

    /// Writes what is known of an operand.
    pub fn write(&mut self, o: OpName, operand: OperandView)
        requires { IsSome (view_in self.old.slots o) }
        ensures { (x : _) → map.get self.old.slots o.task ≡ Some x →
            self.new ≡ record self.old { slots = map.insert self.old.slots o.task (with_view x o.place operand) } }
    {
        match self.table.get_mut(o.task) {
            Some(slot) => slot.operands[o.place as usize] = operand,
            None => unreachable!(),
        }
    }

    /// Queues a task whose operands are all ready, and answers whether they are.
    pub fn wake(&mut self, task: u32) -> bool
        requires { IsSome (map.get self.old.slots task) }
        ensures slots { (x : _) → map.get self.old.slots task ≡ Some x →
            self.new ≡ record self.old { slots = map.insert self.old.slots task (awaited_slot x) } }
        ensures complete { (x : _) → map.get self.old.slots task ≡ Some x → result ≡ is_complete (flying_of x) }
    {
        match self.table.get_mut(task) {
            Some(slot) => {
                let complete = slot.is_complete();
                if complete {
                    slot.stage = Stage::Queued;
                }
                complete
            }
            None => unreachable!(),
        }
    }

    /// Writes a task's stage.
    pub fn advance(&mut self, task: u32, stage: Stage)
        requires { IsSome (map.get self.old.slots task) }
        ensures { (x : _) → map.get self.old.slots task ≡ Some x →
            self.new ≡ record self.old { slots = map.insert self.old.slots task (record x { stage = stage }) } }
    {
        match self.table.get_mut(task) {
            Some(slot) => slot.stage = stage,
            None => unreachable!(),
        }
    }

    /// Frees the slot of a task, if the task has left.
    pub fn settle(&mut self, task: u32)
        ensures { (x : _) → map.get self.old.slots task ≡ Some x →
            self.new ≡ record self.old { slots = remaining_slots self.old.slots task x } }
    {
        let Some(slot) = self.table.get(task) else {
            return;
        };
        if slot.is_gone() {
            let _ = self.table.remove(task);
            self.counts[station_of(&self.sizes, task)] -= 1;
        }
    }
}

// The stores at the start of a task.
ghost use Rattle.std.specs.Prelude.{◌≡◌, ◌<◌};
ghost use Rattle.tss_base.specs.declared.machine.Limits.{Limits};
ghost use Rattle.tss_model.specs.Access.{reads};
ghost use Rattle.tss_protocol.specs.Workers.{output_zeroed, outputs_zeroed};
ghost use Rattle.tss_steps.specs.Placing.{IsGround};
ghost use Rattle.tss_workers.specs.Seats.{AreSeated};
ghost use Rattle.tss_workers.specs.Spots.{CanZero, operand_at, operands_at, placed_of, storage_at, storages_at, stores_of};
ghost use Rattle.tss_workers.specs.Seen.{CanWork, Zeroes};
ghost use Rattle.tss_workers.specs.Working.{HaveSameSizes};

use crate::spots::{Seat, Spot, spots_of};
use tss_base::bounds::MAX_OPERANDS;
use tss_base::{Mode, Storage, Task};
use tss_buffers::Buffers;
use tss_memory::Space;

/// Writes zeros at the objects of a task's operands that it doesn't read.
pub(crate) fn zero_task(
    task: &Task,
    storages: &[Storage; MAX_OPERANDS as usize],
    space: &mut Space,
    buffers: &mut Buffers,
)
    requires banks { 0 < buffers.old.banks }
    requires works { CanWork space.old.ranges buffers.old task.now storages.now }
    ensures { Zeroes task.now storages.now space.old space.new buffers.old buffers.new }
{
    let spots = spots_of(task, storages, buffers.banks());
    zero_outputs(&spots[..task.count as usize], space, buffers);
}

/// Writes zeros at the objects of the spots that a task doesn't read: at home, or in a buffer all of it.
fn zero_outputs(spots: &[Spot], space: &mut Space, buffers: &mut Buffers)
    requires ground { IsGround space.old.ranges (operands_at spots.now) }
    requires seated { AreSeated buffers.old (placed_of spots.now) }
    ensures zeroed { (limits : Limits) → limits.object_bytes ≡ buffers.old.object_bytes
        → stores_of space.new buffers.new
        ≡ outputs_zeroed limits (stores_of space.old buffers.old) (operands_at spots.now) (storages_at spots.now) }
    ensures sizes { HaveSameSizes buffers.old buffers.new }
    ensures ranges { space.new.ranges ≡ space.old.ranges }
{
    let mut i = spots.len();
    while i > 0 {
        i -= 1;
        zero_spot(&spots[i], space, buffers);
    }
}

/// Writes zeros at the object of a spot that a task doesn't read.
fn zero_spot(spot: &Spot, space: &mut Space, buffers: &mut Buffers)
    requires { CanZero space.old.ranges buffers.old spot.now }
    ensures zeroed { (limits : Limits) → limits.object_bytes ≡ buffers.old.object_bytes
        → stores_of space.new buffers.new
        ≡ output_zeroed limits (stores_of space.old buffers.old) (operand_at spot.now) (storage_at spot.now.seat) }
    ensures sizes { HaveSameSizes buffers.old buffers.new }
    ensures ranges { space.new.ranges ≡ space.old.ranges }
{
    if reads(spot.mode) {
        return;
    }
    match spot.seat {
        Seat::Home => space.zero(&spot.object),
        Seat::Buffer(bank, place) => buffers.zero(bank, place),
    }
}

/// Whether a task has the value of an operand of this mode at its start.
fn reads(mode: Mode) -> bool
    ensures { result ≡ reads mode }
{
    match mode {
        Mode::Output => false,
        Mode::Input | Mode::Inout => true,
    }
}

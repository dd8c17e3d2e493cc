// What the calls of the workers ask of their caller, tested on the values in hand. For tasks of at most two operands
// whose buffers, if they lie in any, are set.
ghost use Rattle.std.specs.Prelude.{◌≡◌, ◌<◌, IsSome, IsTrue, true};
ghost use Rattle.std.specs.List.{list_all};
ghost use Rattle.std.specs.FinMap.{get};
ghost use Rattle.tss_base.specs.declared.operand.OpName.{OpName};
ghost use Rattle.tss_protocol.specs.Mail.{Buffer};
ghost use Rattle.tss_memory.specs.Ranges.{AreRanges};
ghost use Rattle.tss_steps.specs.Placing.{beside_scratch, is_placed};
ghost use Rattle.tss_workers.specs.Seats.{AreApart, AreSeated, AreSet, FitsIn, placed_by};
ghost use Rattle.tss_workers.specs.Spots.{AreWorkable, operand_at, placed_of, storage_at};
ghost use Rattle.tss_workers.specs.Seen.{CanWork};

use crate::spots::{Seat, Spot, spots_of, writes};
use tss_base::addresses::SCRATCH;
use tss_base::bounds::{MAX_OPERANDS, MAX_SEGMENTS};
use tss_base::{Storage, Task};
use tss_buffers::Buffers;
use tss_memory::Space;

/// Whether a task with its storages can work over home and the buffers, `each` in a bank.
pub(super) fn can_work(
    space: &Space,
    buffers: &Buffers,
    each: u32,
    task: &Task,
    storages: &[Storage; MAX_OPERANDS as usize],
) -> bool
    requires each { buffers.now.each ≡ each }
    requires banks { 0 < buffers.now.banks }
    ensures works { IsTrue result → CanWork space.now.ranges buffers.now task.now storages.now }
    ensures set { IsTrue result → AreSet buffers.now.contents (placed_by buffers.now.banks task.now storages.now) }
{
    if task.count > MAX_OPERANDS {
        return false;
    }
    let spots = spots_of(task, storages, buffers.banks());
    are_workable(space, buffers, each, &spots[..task.count as usize])
}

/// Whether a task can go on over the spots of its operands.
fn are_workable(space: &Space, buffers: &Buffers, each: u32, spots: &[Spot]) -> bool
    requires { buffers.now.each ≡ each }
    ensures { IsTrue result → AreWorkable space.now.ranges buffers.now spots.now }
{
    if !lies_beside(space) {
        return false;
    }
    if !are_placed(space, spots) {
        return false;
    }
    if !are_apart(spots) {
        return false;
    }
    are_seated(buffers, each, spots)
}

/// Whether no range of memory meets a task's scratch.
fn lies_beside(space: &Space) -> bool
    ensures ranges { AreRanges space.now.ranges }
    ensures beside { IsTrue result → beside_scratch space.now.ranges ≡ true }
{
    let _first = space.range_at(0);
    for i in 0..MAX_SEGMENTS + 1 {
        if let Some((r, _)) = space.range_at(i) {
            if r.meets(&SCRATCH) {
                return false;
            }
        }
    }
    true
}

/// Whether each object lies in one range of memory, which can be written where the task writes the object.
fn are_placed(space: &Space, spots: &[Spot]) -> bool
    ensures { result ≡ list_all (λ s. is_placed space.now.ranges (operand_at s)) spots.now }
{
    spots.iter().all(|s| is_placed(space, s))
}

fn is_placed(space: &Space, spot: &Spot) -> bool
    ensures { result ≡ is_placed space.now.ranges (operand_at spot.now) }
{
    match space.range_of(&spot.object) {
        Some(writable) => writable || !writes(spot.mode),
        None => false,
    }
}

/// Whether there are at most two spots, which share no byte and no buffer.
fn are_apart(spots: &[Spot]) -> bool
    ensures { IsTrue result → AreApart (placed_of spots.now) }
{
    if spots.len() < 2 {
        return true;
    }
    spots.len() == 2
        && !spots[0].object.meets(&spots[1].object)
        && lie_apart(&spots[0].seat, &spots[1].seat)
}

/// Whether two seats are no one buffer.
fn lie_apart(one: &Seat, other: &Seat) -> bool
    ensures { IsTrue result → (n : OpName) → storage_at one.now ≡ Buffer n → storage_at other.now ≡ Buffer n → ⊥ }
{
    match one {
        Seat::Home => true,
        Seat::Buffer(_, _) => one != other,
    }
}

/// Whether the buffers of the spots are there and set, and the objects no longer.
fn are_seated(buffers: &Buffers, each: u32, spots: &[Spot]) -> bool
    requires { buffers.now.each ≡ each }
    ensures fits { IsTrue result → AreSeated buffers.now (placed_of spots.now) }
    ensures set { IsTrue result → AreSet buffers.now.contents (placed_of spots.now) }
{
    for i in 0..spots.len() {
        if !is_seated(buffers, each, &spots[i]) {
            return false;
        }
    }
    true
}

fn is_seated(buffers: &Buffers, each: u32, spot: &Spot) -> bool
    requires { buffers.now.each ≡ each }
    ensures fits { IsTrue result → (n : OpName) → storage_at spot.now.seat ≡ Buffer n → FitsIn buffers.now n spot.now.object.len }
    ensures set { IsTrue result → (n : OpName) → storage_at spot.now.seat ≡ Buffer n → IsSome (get buffers.now.contents n) }
{
    match spot.seat {
        Seat::Home => true,
        Seat::Buffer(bank, place) => {
            bank < buffers.banks()
                && place < each
                && spot.object.len <= buffers.object_bytes()
                && buffers.is_set(bank, place)
        }
    }
}

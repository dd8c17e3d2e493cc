// Where the objects of a task's operands lie.
ghost use Rattle.std.specs.Prelude.{◌≡◌, ◌<◌, ◌≤◌, IfSome, IsNone, Some, length, slice_get, take, true};
ghost use Rattle.std.specs.List.{list_any};
ghost use Rattle.tss_base.specs.declared.bounds.TheConstants.{MAX_OPERANDS};
ghost use Rattle.tss_base.specs.Range.{contains, meets};
ghost use Rattle.tss_model.specs.Access.{operands_of, writes};
ghost use Rattle.tss_workers.specs.Seats.{bank_in};
ghost use Rattle.tss_workers.specs.Spots.{AreSpotsOf, IsInSpot, LiesInNone, spot_at};

use tss_base::bounds::{BANK_BYTES, MAX_OPERANDS};
use tss_base::{Mode, Operand, Range, Storage, Task};

/// Where an object's value lies, as the machine finds it: at home, or in a buffer, by bank and place.
#[derive(Clone, Copy, Debug, PartialEq, Eq)]
pub(crate) enum Seat {
    Home,
    Buffer(u32, u32),
}

/// The object of an operand, with its mode and where its value lies.
#[derive(Clone, Copy, Debug, PartialEq, Eq)]
pub(crate) struct Spot {
    pub(crate) object: Range,
    pub(crate) mode: Mode,
    pub(crate) seat: Seat,
}

/// The spot of an operand with a storage.
pub(crate) fn spot_of(operand: &Operand, storage: &Storage, banks: u32) -> Spot
    requires { 0 < banks }
    ensures { result ≡ spot_at banks operand.now storage.now }
{
    let object = operand.object;
    let seat = match storage {
        Storage::Home => Seat::Home,
        Storage::Buffer(place, _) => Seat::Buffer(bank_of(object.base, banks), *place),
    };
    Spot {
        object,
        mode: operand.mode,
        seat,
    }
}

/// The bank of an object with this base.
fn bank_of(base: u32, banks: u32) -> u32
    requires { 0 < banks }
    ensures { result ≡ bank_in banks base }
{
    base / BANK_BYTES % banks
}

/// The spots of a task's operands, and behind them any.
pub(crate) fn spots_of(
    task: &Task,
    storages: &[Storage; MAX_OPERANDS as usize],
    banks: u32,
) -> [Spot; MAX_OPERANDS as usize]
    requires banks { 0 < banks }
    requires count { task.now.count ≤ MAX_OPERANDS }
    ensures { AreSpotsOf banks task.now storages.now (take task.now.count result) }
{
    let first = spot_of(&task.operands[0], &storages[0], banks);
    let mut spots = [first; MAX_OPERANDS as usize];
    for i in 0..MAX_OPERANDS as usize {
        spots[i] = spot_of(&task.operands[i], &storages[i], banks);
    }
    spots
}

/// The place of the spot in which a range lies, where the one at the place `last` is tried first.
#[inline(always)]
pub(crate) fn spot_with(spots: &[Spot], r: &Range, last: usize) -> Option<usize>
    ensures none { IsNone result → LiesInNone spots.now r.now }
    ensures inside { IfSome result (IsInSpot spots.now r.now) }
{
    if last < spots.len() && spots[last].object.contains(r) {
        return Some(last);
    }
    first_with(spots, r)
}

/// The place of the first spot in which a range lies.
fn first_with(spots: &[Spot], r: &Range) -> Option<usize>
    ensures none { IsNone result → LiesInNone spots.now r.now }
    ensures inside { IfSome result (IsInSpot spots.now r.now) }
{
    for i in 0..spots.len() {
        if spots[i].object.contains(r) {
            return Some(i);
        }
    }
    None
}

/// The spot at a place at which there is one.
#[inline(always)]
pub(crate) fn spot_in(spots: &[Spot], i: usize, r: &Range) -> Spot
    requires { IsInSpot spots.now r.now i }
    ensures there { slice_get spots.now i ≡ Some result }
    ensures inside { contains result.object r.now ≡ true }
{
    let _r = r;
    spots[i]
}

/// Whether a range meets one of the spots.
#[inline(always)]
pub(crate) fn meets_any(spots: &[Spot], r: &Range) -> bool
    ensures { result ≡ list_any (λ s. meets s.object r.now) spots.now }
{
    spots.iter().any(|s| s.object.meets(r))
}

/// Whether a task writes an object with this mode.
#[inline(always)]
pub(crate) fn writes(mode: Mode) -> bool
    ensures { result ≡ writes mode }
{
    match mode {
        Mode::Input => false,
        Mode::Output | Mode::Inout => true,
    }
}

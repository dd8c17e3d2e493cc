// The checks of one entry of an operand list.
ghost use Rattle.std.specs.Prelude.{◌≡◌, ◌++◌, ◌&&◌, not};
ghost use Rattle.std.specs.List.{list_any};
ghost use Rattle.tss_base.specs.Range.{meets};
ghost use Rattle.tss_model.specs.Memory.{range_of};
ghost use Rattle.tss_model.specs.Spawn.{entry_checked, is_outside, mode_of, objects_of, operand_checked, overlaps, same_range};
ghost use Rattle.tss_operands.specs.Spawning.{numbered};

use crate::epoch::Epoch;
use crate::spawn::SpawnFault;
use tss_base::lists::{INOUT, INPUT, OUTPUT};
use tss_base::refusals::{BAD_BASE, BAD_LENGTH, BAD_MODE, OBJECT_OUTSIDE, OVERLAP};
use tss_base::{Limits, Mode, Operand, Range};
use tss_memory::Space;

/// The operand of an entry, or the first check that it fails. The operands of the entries before it are given.
pub(crate) fn checked_entry(
    object: Range,
    mode: u32,
    earlier: &[Operand],
    space: &Space,
    epoch: &Epoch,
    limits: &Limits,
) -> Result<Operand, SpawnFault>
    ensures { numbered result ≡ entry_checked limits.now space.now (epoch.now.objects ++ objects_of earlier.now) (record {
      object = object;
      mode = mode;
    }) }
{
    match mode_of(mode) {
        Some(mode) => checked_operand(object, mode, earlier, space, epoch, limits),
        None => Err(SpawnFault(BAD_MODE)),
    }
}

/// The same of an entry whose mode is known.
fn checked_operand(
    object: Range,
    mode: Mode,
    earlier: &[Operand],
    space: &Space,
    epoch: &Epoch,
    limits: &Limits,
) -> Result<Operand, SpawnFault>
    ensures { numbered result ≡ operand_checked limits.now space.now (epoch.now.objects ++ objects_of earlier.now) object mode }
{
    if object.len == 0 || limits.object_bytes < object.len {
        return Err(SpawnFault(BAD_LENGTH));
    }
    if object.base % 4 != 0 {
        return Err(SpawnFault(BAD_BASE));
    }
    if is_outside(space, &object, mode) {
        return Err(SpawnFault(OBJECT_OUTSIDE));
    }
    if meets_in_part(epoch, earlier, &object) {
        return Err(SpawnFault(OVERLAP));
    }
    Ok(Operand { object, mode })
}

/// The mode that a number stands for.
fn mode_of(number: u32) -> Option<Mode>
    ensures { result ≡ mode_of number }
{
    match number {
        INPUT => Some(Mode::Input),
        OUTPUT => Some(Mode::Output),
        INOUT => Some(Mode::Inout),
        _ => None,
    }
}

/// Whether the object lies in no range of memory, or is written in one that can't be.
fn is_outside(space: &Space, object: &Range, mode: Mode) -> bool
    ensures { result ≡ is_outside mode (range_of space.now.ranges object.now) }
{
    match space.range_of(object) {
        Some(writable) => mode != Mode::Input && !writable,
        None => true,
    }
}

/// Whether a named object, or that of an earlier operand, meets the object and isn't that object.
fn meets_in_part(epoch: &Epoch, earlier: &[Operand], object: &Range) -> bool
    ensures { result ≡ overlaps (epoch.now.objects ++ objects_of earlier.now) object.now }
{
    epoch.overlaps(object) || overlaps_earlier(earlier, object)
}

/// Whether the object of an earlier operand meets the object and isn't that object.
fn overlaps_earlier(earlier: &[Operand], object: &Range) -> bool
    ensures { result ≡ list_any (λ o. meets o.object object.now && not (same_range o.object object.now)) earlier.now }
{
    earlier
        .iter()
        .any(|o| o.object.meets(object) && o.object != *object)
}

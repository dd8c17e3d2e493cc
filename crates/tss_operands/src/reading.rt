// Operand lists in memory.
ghost use Rattle.std.specs.Prelude.{◌≡◌, ◌+◌, ◌*◌, ◌≤◌, ◌++◌};
ghost use Rattle.tss_base.specs.declared.bounds.TheConstants.{MAX_OPERANDS};
ghost use Rattle.tss_base.specs.declared.lists.TheConstants.{ENTRY_BYTES};
ghost use Rattle.tss_model.specs.Spawn.{entries_at, entries_checked, entry_at, entry_checked, list_range, objects_of, word_at};
ghost use Rattle.tss_memory.specs.Ranges.{IsFound, memory_end};
ghost use Rattle.tss_operands.specs.Spawning.{call_of, list_checked, numbered};

use crate::checking::checked_entry;
use crate::epoch::Epoch;
use crate::listing::Listing;
use crate::spawn::{SpawnFault, SpawnWords};
use tss_base::lists::ENTRY_BYTES;
use tss_base::refusals::{LIST_PLACE, MAIN_TOUCH};
use tss_base::{Limits, Operand, Range};
use tss_memory::{Found, Space};

/// The operands that are listed, or the first check of the list and its entries that fails.
pub(crate) fn listed(
    words: &SpawnWords,
    space: &Space,
    epoch: &Epoch,
    limits: &Limits,
) -> Result<Listing, SpawnFault>
    requires { words.now.count ≤ MAX_OPERANDS }
    ensures { numbered result ≡ list_checked (call_of words.now) space.now epoch.now.objects limits.now }
{
    if words.count == 0 {
        return Ok(Listing::new());
    }
    let list = Range {
        base: words.list,
        len: ENTRY_BYTES * words.count,
    };
    if words.list % 4 != 0 {
        return Err(SpawnFault(LIST_PLACE));
    }
    let Some(found) = space.find(&list, 0) else {
        return Err(SpawnFault(LIST_PLACE));
    };
    if epoch.touches(&list) {
        return Err(SpawnFault(MAIN_TOUCH));
    }
    checked_entries(words, found, space, epoch, limits)
}

/// The operands of the entries, or the first check that an entry fails, one entry after the other.
fn checked_entries(
    words: &SpawnWords,
    found: Found,
    space: &Space,
    epoch: &Epoch,
    limits: &Limits,
) -> Result<Listing, SpawnFault>
    requires few { words.now.count ≤ MAX_OPERANDS }
    requires found { IsFound space.now.ranges found (list_range (call_of words.now)) }
    requires end { words.now.list + ENTRY_BYTES * words.now.count ≤ memory_end }
    ensures { numbered result ≡ entries_checked limits.now space.now epoch.now.objects (entries_at space.now words.now.list words.now.count) }
{
    let mut listed = Listing::new();
    for i in 0..words.count {
        let at = words.list + ENTRY_BYTES * i;
        let operand = operand_at(at, found, listed.as_slice(), space, epoch, limits)?;
        listed.push(operand);
    }
    Ok(listed)
}

/// The operand of the entry at an address, or the first check that it fails. The operands of the entries before it are
/// given.
fn operand_at(
    at: u32,
    found: Found,
    earlier: &[Operand],
    space: &Space,
    epoch: &Epoch,
    limits: &Limits,
) -> Result<Operand, SpawnFault>
    requires found { IsFound space.now.ranges found (record { base = at; len = ENTRY_BYTES }) }
    requires end { at + ENTRY_BYTES ≤ memory_end }
    ensures { numbered result ≡ entry_checked limits.now space.now (epoch.now.objects ++ objects_of earlier.now) (entry_at space.now at) }
{
    let object = Range {
        base: word(space, found, at),
        len: word(space, found, at + 4),
    };
    let mode = word(space, found, at + 8);
    checked_entry(object, mode, earlier, space, epoch, limits)
}

/// The word at an address in the range of memory that was found.
fn word(space: &Space, found: Found, at: u32) -> u32
    requires { IsFound space.now.ranges found (record { base = at; len = 4 }) }
    ensures { result ≡ word_at space.now at }
{
    space.number(found, &Range { base: at, len: 4 })
}

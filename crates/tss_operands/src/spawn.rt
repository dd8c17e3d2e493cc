// Main's spawn: its words in memory, read as a task.
ghost use Rattle.std.specs.Prelude.{◌≡◌, ◌≤◌, IfOk, Ok, length};
ghost use Rattle.tss_base.specs.declared.bounds.TheConstants.{MAX_OPERANDS};
ghost use Rattle.tss_model.specs.Access.{operands_of};
ghost use Rattle.tss_model.specs.Spawn.{objects_of, spawn_of, task_checked, task_of};
ghost use Rattle.tss_operands.specs.Naming.{CanNameAll};
ghost use Rattle.tss_operands.specs.Spawning.{call_of, numbered};

use crate::epoch::Epoch;
use crate::listing::Listing;
use crate::merging::{merged, named_with};
use crate::reading::listed;
use tss_base::refusals::{EPOCH_FULL, TOO_MANY_OPERANDS, TOO_MANY_TASKS};
use tss_base::{Limits, Task};
use tss_memory::Space;

/// What main passes to a spawn: the address of the task's first instruction, that of the operand list, the number of
/// its entries, and the argument word.
#[derive(Clone, Copy, Debug, PartialEq, Eq)]
pub struct SpawnWords {
    pub entry: u32,
    pub list: u32,
    pub count: u32,
    pub argument: u32,
}

/// The number of the first check that a spawn fails.
///
/// | number | where |
/// |---|---|
/// | 1 | there are more operands than a task may have |
/// | 2 | the operand list isn't at a multiple of 4, or doesn't lie in one range of memory |
/// | 3 | the operand list meets a named object |
/// | 4 | an operand's mode isn't 1, 2 or 3 |
/// | 5 | its length is 0, or more than an object may have |
/// | 6 | its base isn't a multiple of 4 |
/// | 7 | it doesn't lie in one range of memory, or is written in one that can't be |
/// | 8 | it meets a named object, or an earlier one of the list, and isn't that object |
/// | 9 | more objects would be named than may be |
/// | 10 | as many tasks are spawned as may be |
#[derive(Clone, Copy, Debug, PartialEq, Eq)]
pub struct SpawnFault(pub u32);

/// The task of a spawn, or the number of the first check that fails. The checks 4 to 8 are made of one entry of the
/// operand list after the other. `spawned` tasks were spawned before. Nothing is named by this call.
pub fn read_spawn(
    words: &SpawnWords,
    space: &Space,
    epoch: &Epoch,
    limits: &Limits,
    spawned: u32,
) -> Result<Task, SpawnFault>
    requires { limits.now.max_operands ≤ MAX_OPERANDS }
    ensures exact { numbered result ≡ spawn_of (call_of words.now) space.now epoch.now.objects limits.now spawned }
    ensures nameable { IfOk result (λ t. CanNameAll limits.now.epoch_objects epoch.now.objects (objects_of (operands_of t))) }
    ensures few { IfOk result (λ t. (t.count ≤ t.listed) × (t.listed ≤ limits.now.max_operands)) }
{
    if limits.max_operands < words.count {
        return Err(SpawnFault(TOO_MANY_OPERANDS));
    }
    let listed = listed(words, space, epoch, limits)?;
    checked_task(words, &listed, epoch, limits, spawned)
}

/// The task of these listed operands, or the first of the checks 9 and 10 that fails.
fn checked_task(
    words: &SpawnWords,
    listed: &Listing,
    epoch: &Epoch,
    limits: &Limits,
    spawned: u32,
) -> Result<Task, SpawnFault>
    ensures { numbered result ≡ task_checked limits.now (call_of words.now) epoch.now.objects spawned (Ok listed.now) }
{
    let merged = merged(listed.as_slice());
    if u64::from(limits.epoch_objects) < named_with(epoch, &merged) {
        return Err(SpawnFault(EPOCH_FULL));
    }
    if limits.max_tasks <= spawned {
        return Err(SpawnFault(TOO_MANY_TASKS));
    }
    Ok(task_of(words, spawned + 1, listed, &merged))
}

/// The task with this number, of these listed operands and these merged ones.
fn task_of(words: &SpawnWords, number: u32, listed: &Listing, merged: &Listing) -> Task
    ensures { result ≡ task_of (call_of words.now) number listed.now merged.now }
{
    Task {
        number,
        entry: words.entry,
        argument: words.argument,
        listed: listed.len(),
        bases: listed.bases(),
        count: merged.len(),
        operands: merged.operands(),
    }
}

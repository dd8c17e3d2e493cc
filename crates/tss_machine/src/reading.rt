// From bytes to a machine.
ghost use Rattle.std.specs.Prelude.{◌≡◌, IfOk, Some};
ghost use Rattle.std.specs.Result.{result_err};
ghost use Rattle.toml.specs.Data.{Members};
ghost use Rattle.toml.specs.View.{table_view};
ghost use Rattle.tss_base.specs.Machine.{IsAdmissible};
ghost use Rattle.tss_machine.specs.Table.{numbers_of};
ghost use Rattle.tss_machine.specs.Description.{machine_in as machine_of_table, size_fault, size_faults, first_fault, answer_with, answer_of, machine_of, Gives};

use crate::fault::{KeyText, MachineFault};
use crate::table::{KEY_COUNT, read_numbers, unknown_key};
use std::alloc::Global;
use toml::Table;
use tss_base::{Key, Limits, Machine, Sizes};

/// The machine with these numbers at its keys.
fn machine_with(numbers: [u32; KEY_COUNT]) -> Machine
    ensures { (table : Members) → numbers ≡ numbers_of table → result ≡ machine_of_table table }
{
    let [
        main_budget,
        task_budget,
        max_tasks,
        max_operands,
        object_bytes,
        epoch_objects,
        output_bytes,
        stations,
        slots,
        workers,
        banks,
        entries,
        versions,
        buffers,
        quantum,
        window,
    ] = numbers;
    Machine {
        limits: Limits {
            main_budget: u64::from(main_budget),
            task_budget: u64::from(task_budget),
            max_tasks,
            max_operands,
            object_bytes,
            epoch_objects,
            output_bytes,
        },
        sizes: Sizes {
            stations,
            slots,
            workers,
            banks,
            entries,
            versions,
            buffers,
            quantum,
            window,
        },
    }
}

/// Whether a table of a bank has room for the operands of one task.
fn check_size(key: Key, size: u32, operands: u32) -> Result<(), MachineFault>
    ensures { result_err result ≡ size_fault key size operands }
{
    if size < operands {
        Err(MachineFault::TooSmall(key))
    } else {
        Ok(())
    }
}

/// The machine, where its three tables of a bank have it.
fn check_sizes(machine: Machine) -> Result<Machine, MachineFault>
    ensures { result ≡ answer_with machine (first_fault (size_faults machine)) }
{
    let operands = machine.limits.max_operands;
    check_size(Key::Entries, machine.sizes.entries, operands)?;
    check_size(Key::Versions, machine.sizes.versions, operands)?;
    check_size(Key::Buffers, machine.sizes.buffers, operands)?;
    Ok(machine)
}

/// The machine of a table, or the first check that it fails.
fn machine_in(alloc: Global, table: &Table) -> Result<Machine, MachineFault>
    ensures { Gives result (answer_of (Some (table_view table.now))) }
{
    let numbers = read_numbers(table)?;
    if let Some(key) = unknown_key(table) {
        return Err(MachineFault::UnknownKey(KeyText::new(alloc, key)?));
    }
    check_sizes(machine_with(numbers))
}

/// The machine that the bytes describe, or the first check that they fail. A description is a TOML document whose
/// top table has exactly the sixteen keys, each with an integer in its range, and in which `entries`, `versions` and
/// `buffers` are at least `max_operands`. The checks come in this order: it is TOML; each key in turn is there, has
/// an integer, and in its range; no key is unknown; the three tables of a bank are large enough.
pub fn read_machine(alloc: Global, bytes: &[u8]) -> Result<Machine, MachineFault>
    ensures exact { Gives result (machine_of bytes.now) }
    ensures ok { IfOk result IsAdmissible }
    // Whatever the answer: what a description describes is admissible.
    ensures admissible { IfOk (machine_of bytes.now) IsAdmissible }
{
    match toml::table_from_slice(alloc, bytes) {
        Ok(table) => machine_in(alloc, &table),
        Err(e) => {
            if e.is_memory() {
                Err(MachineFault::NoMemory)
            } else {
                Err(MachineFault::NotToml)
            }
        }
    }
}

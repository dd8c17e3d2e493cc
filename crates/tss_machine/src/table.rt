// The numbers and the keys of a description's table.
ghost use Rattle.std.specs.Prelude.{◌≡◌, find, not, option_map, string_bytes, IfOk};
ghost use Rattle.std.specs.BTreeMap.{keys, IsOrdered};
ghost use Rattle.std.specs.Option.{option_copied};
ghost use Rattle.std.specs.Result.{result_err};
ghost use Rattle.std.specs.String.{string_cmp};
ghost use Rattle.toml.specs.View.{view, table_view};
ghost use Rattle.tss_base.specs.Machine.{key_range};
ghost use Rattle.tss_machine.specs.Table.{in_range, number_from as number_given, number_at as number_in, key_faults, numbers_of, is_known as is_known_text, unknown_keys, least_of};
ghost use Rattle.tss_machine.specs.Description.{first_fault};

use crate::fault::MachineFault;
use toml::{Table, Value};
use tss_base::Key;
use tss_base::bounds::{
    MAX_BANKS, MAX_BUFFERS, MAX_ENTRIES, MAX_EPOCH_OBJECTS, MAX_MAIN_BUDGET, MAX_OBJECT_BYTES,
    MAX_OPERANDS, MAX_OUTPUT_BYTES, MAX_QUANTUM, MAX_SLOTS, MAX_STATIONS, MAX_TASK_BUDGET,
    MAX_TASKS, MAX_VERSIONS, MAX_WINDOW, MAX_WORKERS,
};

/// How many keys a description has.
pub const KEY_COUNT: usize = 16;

/// The keys of a description, in the order in which they are checked.
const KEYS: [Key; KEY_COUNT] = [
    Key::MainBudget,
    Key::TaskBudget,
    Key::MaxTasks,
    Key::MaxOperands,
    Key::ObjectBytes,
    Key::EpochObjects,
    Key::OutputBytes,
    Key::Stations,
    Key::Slots,
    Key::Workers,
    Key::Banks,
    Key::Entries,
    Key::Versions,
    Key::Buffers,
    Key::Quantum,
    Key::Window,
];

/// The least and the greatest number of a key.
fn range_of(key: Key) -> (u32, u32)
    ensures { result ≡ key_range key }
{
    match key {
        Key::MainBudget => (1, MAX_MAIN_BUDGET),
        Key::TaskBudget => (1, MAX_TASK_BUDGET),
        Key::MaxTasks => (1, MAX_TASKS),
        Key::MaxOperands => (1, MAX_OPERANDS),
        Key::ObjectBytes => (1, MAX_OBJECT_BYTES),
        Key::EpochObjects => (1, MAX_EPOCH_OBJECTS),
        Key::OutputBytes => (0, MAX_OUTPUT_BYTES),
        Key::Stations => (1, MAX_STATIONS),
        Key::Slots => (1, MAX_SLOTS),
        Key::Workers => (1, MAX_WORKERS),
        Key::Banks => (1, MAX_BANKS),
        Key::Entries => (1, MAX_ENTRIES),
        Key::Versions => (1, MAX_VERSIONS),
        Key::Buffers => (1, MAX_BUFFERS),
        Key::Quantum => (1, MAX_QUANTUM),
        Key::Window => (1, MAX_WINDOW),
    }
}

/// The number, where it is in the key's range.
fn check_range(key: Key, number: i64) -> Result<u32, MachineFault>
    ensures { result ≡ in_range key number }
{
    let (least, greatest) = range_of(key);
    match u32::try_from(number) {
        Ok(number) if least <= number && number <= greatest => Ok(number),
        _ => Err(MachineFault::OutOfRange(key)),
    }
}

/// The number that a value gives a key.
fn number_from(key: Key, value: Option<&Value>) -> Result<u32, MachineFault>
    ensures { result ≡ number_given key (option_map (λ value. view value.now) value.entry) }
{
    let Some(value) = value else {
        return Err(MachineFault::MissingKey(key));
    };
    let Some(number) = value.as_integer() else {
        return Err(MachineFault::NotInteger(key));
    };
    check_range(key, number)
}

/// The number at a key.
fn number_at(table: &Table, key: Key) -> Result<u32, MachineFault>
    ensures { result ≡ number_in (table_view table.now) key }
{
    number_from(key, table.get(key.name()))
}

/// The numbers at the keys, in the order of the keys.
pub fn read_numbers(table: &Table) -> Result<[u32; KEY_COUNT], MachineFault>
    ensures first { result_err result ≡ first_fault (key_faults (table_view table.now)) }
    ensures numbers { IfOk result (λ numbers. numbers ≡ numbers_of (table_view table.now)) }
{
    let mut numbers = [0; KEY_COUNT];
    for (i, key) in KEYS.iter().enumerate() {
        numbers[i] = number_at(table, *key)?;
    }
    Ok(numbers)
}

/// Whether a text is the name of a key.
#[tactic(auto, unfolding(crate::specs::Table::is_known))]
fn is_known(text: &str) -> bool
    ensures { result ≡ is_known_text text.now }
{
    KEYS.iter().any(|key| key.name() == text)
}

/// The first of a table's keys that isn't known.
fn first_unknown(table: &Table) -> Option<&String>
    ensures first { option_copied result ≡ find (λ key. not (is_known_text (string_bytes key))) (keys table.now) }
    ensures ordered { IsOrdered string_cmp table.now }
{
    table.keys().find(|key| !is_known(key.as_str()))
}

/// The least of the keys that aren't known, if there are any. A table has its keys in order.
pub fn unknown_key(table: &Table) -> Option<&str>
    ensures { option_map (λ text. text.now) result ≡ least_of (unknown_keys (table_view table.now)) }
{
    let key = first_unknown(table)?;
    Some(key.as_str())
}

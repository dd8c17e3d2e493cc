// Descriptions that are read, and descriptions that are refused, each with its fault.
use crate::{Key, KeyText, Limits, Machine, MachineFault, Sizes, read_machine, self_machine};
use std::alloc::{AllocError, Global};
use std::process::Abort;
use std::test::Fail;

/// The keys, each with a number that suits the others, and with its least and its greatest number.
const KEYS: [(Key, u32, u32, u32); 16] = [
    (Key::MainBudget, 1000, 1, 1_000_000_000),
    (Key::TaskBudget, 100, 1, 100_000_000),
    (Key::MaxTasks, 16, 1, 65_536),
    (Key::MaxOperands, 1, 1, 7),
    (Key::ObjectBytes, 128, 1, 65_536),
    (Key::EpochObjects, 16, 1, 65_536),
    (Key::OutputBytes, 64, 0, 1_048_576),
    (Key::Stations, 1, 1, 16),
    (Key::Slots, 8, 1, 64),
    (Key::Workers, 3, 1, 64),
    (Key::Banks, 1, 1, 64),
    (Key::Entries, 16, 1, 256),
    (Key::Versions, 16, 1, 256),
    (Key::Buffers, 7, 1, 64),
    (Key::Quantum, 100, 1, 65_536),
    (Key::Window, 1, 1, 8),
];

/// Lines of descriptions that are refused, with the number and the key of the fault.
const REFUSED: [(&str, u32, Option<&str>); 25] = [
    // A table of a bank is too small. The first of two is named.
    ("max_operands = 7\nbuffers = 6", 6, Some("buffers")),
    ("max_operands = 7\nversions = 6", 6, Some("versions")),
    (
        "max_operands = 7\nentries = 6\nbuffers = 6",
        6,
        Some("entries"),
    ),
    // Keys that aren't known, of which the least by its bytes is named, unchanged.
    ("zeta = 1\nalpha = 2", 3, Some("alpha")),
    ("\"\\u00e9\" = 1\nzz = 2", 3, Some("zz")),
    ("\"\\u00e9\\n\" = 1", 3, Some("\u{e9}\n")),
    ("\"\" = 1\na = 2", 3, Some("")),
    ("[extra]", 3, Some("extra")),
    // The checks of one key come before those of the next, then the unknown keys, then the sizes.
    (
        "main_budget = 0 # and no task_budget",
        5,
        Some("main_budget"),
    ),
    ("quantum = 0 # and no slots", 2, Some("slots")),
    ("quantum = true\na = 1", 4, Some("quantum")),
    ("max_operands = 7\nbuffers = 6\na = 1", 3, Some("a")),
    // What stands under a key is a table.
    ("slots.deep = 8", 4, Some("slots")),
    ("[slots]\nn = 1", 4, Some("slots")),
    ("[window]", 4, Some("window")),
    // Keys are spelled as they are.
    ("Slots = 8 # and no slots", 2, Some("slots")),
    ("# no quantum", 2, Some("quantum")),
    ("# no window", 2, Some("window")),
    ("slots = 65", 5, Some("slots")),
    ("slots = \"8\"", 4, Some("slots")),
    // No TOML: a key twice, an integer that is too long, no value, a zero in front, no bracket.
    ("slots = 8\nslots = 8", 1, None),
    ("slots = 123456789012345678901234567890", 1, None),
    ("slots =", 1, None),
    ("slots = 08", 1, None),
    ("[slots", 1, None),
];

/// A small machine, with a comment for each key.
const SMALL: &str = "# A small machine: one station, two workers, and tables that a few tasks fill.

# Limits of the program.
main_budget = 10_000    # instructions that main may execute
task_budget = 1_000     # instructions that each task may execute
max_tasks = 64          # tasks that a run may spawn
max_operands = 3        # operands that a task may list
object_bytes = 64       # bytes that an object may have
epoch_objects = 16      # objects that main may name before it meets a barrier
output_bytes = 256      # bytes that main may print

# Sizes of the unit machine.
stations = 1            # reservation stations
slots = 4               # tasks that a station holds
workers = 2             # worker cores
banks = 2               # banks of renaming and versioning tables
entries = 4             # objects that a renaming bank holds
versions = 8            # versions that a versioning bank holds
buffers = 4             # rename buffers of a bank
quantum = 16            # instructions that main or a worker executes in one event
window = 1              # tasks that decode at once
";

/// The description with these numbers, but without the keys that the last lines name, and then those lines.
fn described(alloc: Global, last: &str) -> Result<String, AllocError> {
    let mut text = String::new(alloc);
    for (key, number, _, _) in &KEYS {
        let name = key.name();
        if !last.contains(name) {
            write!(text, "{name} = {number}\n")?;
        }
    }
    text.push_str(last)?;
    Ok(text)
}

/// The machine with these limits and sizes.
fn machine_with(limits: [u32; 7], sizes: [u32; 9]) -> Machine {
    Machine {
        limits: Limits {
            main_budget: u64::from(limits[0]),
            task_budget: u64::from(limits[1]),
            max_tasks: limits[2],
            max_operands: limits[3],
            object_bytes: limits[4],
            epoch_objects: limits[5],
            output_bytes: limits[6],
        },
        sizes: Sizes {
            stations: sizes[0],
            slots: sizes[1],
            workers: sizes[2],
            banks: sizes[3],
            entries: sizes[4],
            versions: sizes[5],
            buffers: sizes[6],
            quantum: sizes[7],
            window: sizes[8],
        },
    }
}

/// The text is read as this machine.
fn accepts(rt: &impl Abort, alloc: Global, text: &str, machine: Machine) {
    match read_machine(alloc, text.as_bytes()) {
        Ok(read) => assert_eq!(rt; read, machine, "{text}"),
        Err(fault) => assert!(rt; false, "{fault:?} of {text}"),
    }
}

/// The text is refused by this check, with this key.
fn refuses(rt: &impl Abort, alloc: Global, text: &str, number: u32, key: Option<&str>) {
    match read_machine(alloc, text.as_bytes()) {
        Ok(read) => assert!(rt; false, "{read:?} of {text}"),
        Err(fault) => {
            assert_eq!(rt; fault.number(), Some(number), "{text}");
            assert_eq!(rt; fault.key(), key.map(str::as_bytes), "{text}");
        }
    }
}

#[test]
fn each_key_is_there_an_integer_and_in_its_range(rt: HostRuntime) -> Result<(), Fail> {
    let alloc = rt.alloc();
    for (key, _, least, greatest) in &KEYS {
        let name = key.name();
        let text = described(alloc, &format!(in alloc; "# {name}")?)?;
        refuses(&rt, alloc, &text, 2, Some(name));
        for value in ["\"8\"", "8.0", "true", "[8]", "{ n = 8 }"] {
            let text = described(alloc, &format!(in alloc; "{name} = {value}")?)?;
            refuses(&rt, alloc, &text, 4, Some(name));
        }
        for inside in [*least, *greatest] {
            let text = described(alloc, &format!(in alloc; "{name} = {inside}")?)?;
            assert!(rt; read_machine(alloc, text.as_bytes()).is_ok(), "{text}");
        }
        let below = i64::from(*least) - 1;
        let above = i64::from(*greatest) + 1;
        for outside in [below, above, -8, i64::MAX] {
            let text = described(alloc, &format!(in alloc; "{name} = {outside}")?)?;
            refuses(&rt, alloc, &text, 5, Some(name));
        }
    }
    Ok(())
}

#[test]
fn the_first_check_that_fails_is_named(rt: HostRuntime) -> Result<(), Fail> {
    let alloc = rt.alloc();
    for (last, number, key) in &REFUSED {
        let text = described(alloc, last)?;
        refuses(&rt, alloc, &text, *number, *key);
    }
    refuses(&rt, alloc, "", 2, Some("main_budget"));
    assert_eq!(rt; read_machine(alloc, b"\xFF"), Err(MachineFault::NotToml));
    Ok(())
}

#[test]
fn descriptions_are_toml(rt: HostRuntime) -> Result<(), Fail> {
    let alloc = rt.alloc();
    let usual = machine_with(
        [1000, 100, 16, 1, 128, 16, 64],
        [1, 8, 3, 1, 16, 16, 7, 100, 1],
    );
    let last =
        "slots = 0x8\r\n\r\n\tworkers = +3 # cores\n\"entries\" = 0b1_0000\n'quantum'=100 # the last";
    let text = described(alloc, last)?;
    accepts(&rt, alloc, &text, usual);
    let marked = format!(in alloc; "\u{feff}# a machine\n{text}")?;
    accepts(&rt, alloc, &marked, usual);
    Ok(())
}

#[test]
fn examples_are_read(rt: HostRuntime) {
    let small = machine_with(
        [10_000, 1_000, 64, 3, 64, 16, 256],
        [1, 4, 2, 2, 4, 8, 4, 16, 1],
    );
    accepts(&rt, rt.alloc(), SMALL, small);
    let text = "
main_budget = 1_000_000
task_budget = 10_000
max_tasks = 16_384
max_operands = 4
object_bytes = 64
epoch_objects = 1_024
output_bytes = 1_024
stations = 2
slots = 8
workers = 4
banks = 4
entries = 16
versions = 32
buffers = 8
quantum = 64
window = 1
";
    accepts(&rt, rt.alloc(), text, self_machine());
}

#[test]
fn faults_are_told(rt: HostRuntime) -> Result<(), Fail> {
    let text = KeyText::new(rt.alloc(), "zeta")?;
    let told = MachineFault::UnknownKey(text).to_string(rt.alloc())?;
    assert_eq!(rt; told.as_str(), "unknown key `zeta`");
    Ok(())
}

// Machines that are refused, and machines that are not.
use super::expect_program;
use std::alloc::Global;
use std::process::Abort;
use std::test::Fail;
use tss_base::Key;
use tss_programs::{description, exit_seven};

/// What `exit_seven` comes to.
const SEVEN: &[u8] = b"end exit 7\ntasks 0\noutput 0\n\n";

/// Changes of the small machine, and what is then answered.
const REFUSED: [(&[(Key, &str)], &[u8]); 14] = [
    // A table has no room for the operands of one task. The first of two is named.
    (&[(Key::Buffers, "6")], b"machine 6 buffers\n"),
    (&[(Key::Versions, "6")], b"machine 6 versions\n"),
    (
        &[(Key::Entries, "6"), (Key::Buffers, "6")],
        b"machine 6 entries\n",
    ),
    // A key isn't there, and one that isn't known is.
    (&[(Key::Quantum, "")], b"machine 2 quantum\n"),
    (
        &[(Key::Slots, "8\nspeed = 9\nlight = 1")],
        b"machine 3 light\n",
    ),
    (
        &[(Key::Quantum, "1\nzeta = 1\nalpha = 2")],
        b"machine 3 alpha\n",
    ),
    (
        &[(Key::Quantum, "1\n\"\\u00e9\" = 1")],
        b"machine 3 \xC3\xA9\n",
    ),
    // No integer.
    (&[(Key::Slots, "8.0")], b"machine 4 slots\n"),
    (&[(Key::Slots, "\"8\"")], b"machine 4 slots\n"),
    // No TOML.
    (&[(Key::Slots, "8 9")], b"machine 1\n"),
    (
        &[(Key::Slots, "123456789012345678901234567890")],
        b"machine 1\n",
    ),
    // The checks of a key come before those of the next one, and before the sizes.
    (
        &[(Key::Slots, "65"), (Key::Window, "")],
        b"machine 5 slots\n",
    ),
    (
        &[(Key::Buffers, "6"), (Key::Window, "9")],
        b"machine 5 window\n",
    ),
    (
        &[(Key::Buffers, "6"), (Key::Window, "1\nzeta = 1")],
        b"machine 3 zeta\n",
    ),
];

/// Each key with a number outside its range.
const OUTSIDE: [(Key, &str); 16] = [
    (Key::MainBudget, "1000000001"),
    (Key::TaskBudget, "0"),
    (Key::MaxTasks, "65537"),
    (Key::MaxOperands, "8"),
    (Key::ObjectBytes, "0"),
    (Key::EpochObjects, "65537"),
    (Key::OutputBytes, "1048577"),
    (Key::Stations, "17"),
    (Key::Slots, "65"),
    (Key::Workers, "0"),
    (Key::Banks, "65"),
    (Key::Entries, "257"),
    (Key::Versions, "0"),
    (Key::Buffers, "-7"),
    (Key::Quantum, "65537"),
    (Key::Window, "9"),
];

/// Checks what is answered on the small machine with some changes.
fn expect(
    rt: &impl Abort,
    alloc: Global,
    image: &[u8],
    changes: &[(Key, &str)],
    status: u8,
    text: &[u8],
) -> Result<(), Fail> {
    let machine = description(alloc, changes)?;
    expect_program(rt, alloc, machine.as_str().as_bytes(), image, status, text)
}

#[test]
fn machines_are_answered_by_their_first_fault(rt: HostRuntime) -> Result<(), Fail> {
    let alloc = rt.alloc();
    let image = exit_seven(alloc)?;
    expect(&rt, alloc, image.as_slice(), &[], 0, SEVEN)?;
    for (changes, text) in &REFUSED {
        expect(&rt, alloc, image.as_slice(), changes, 4, text)?;
    }
    Ok(())
}

#[test]
fn each_key_is_there_an_integer_and_in_its_range(rt: HostRuntime) -> Result<(), Fail> {
    let alloc = rt.alloc();
    let image = exit_seven(alloc)?;
    for (key, outside) in &OUTSIDE {
        for (value, check) in [("", 2), ("true", 4), (*outside, 5)] {
            let text = format!(in alloc; "machine {check} {}\n", key.name())?;
            let changes = [(*key, value)];
            expect(
                &rt,
                alloc,
                image.as_slice(),
                &changes,
                4,
                text.as_str().as_bytes(),
            )?;
        }
    }
    Ok(())
}

#[test]
fn a_machine_is_text(rt: HostRuntime) -> Result<(), Fail> {
    let alloc = rt.alloc();
    let image = exit_seven(alloc)?;
    let machine = description(alloc, &[])?;
    let mut bytes = Vec::from_slice(alloc, machine.as_str().as_bytes())?;
    bytes.push(0xFF)?;
    expect_program(
        &rt,
        alloc,
        bytes.as_slice(),
        image.as_slice(),
        4,
        b"machine 1\n",
    )
}

#[test]
fn the_machine_is_judged_before_the_image(rt: HostRuntime) -> Result<(), Fail> {
    expect_program(&rt, rt.alloc(), b"", b"", 4, b"machine 2 main_budget\n")
}

/// The machine of the examples with room for real programs.
const BIG: &[u8] = b"main_budget = 1_000_000_000
task_budget = 100_000_000
max_tasks = 65_536
max_operands = 7
object_bytes = 65_536
epoch_objects = 65_536
output_bytes = 1_048_576
stations = 8
slots = 16
workers = 8
banks = 8
entries = 64
versions = 128
buffers = 16
quantum = 1_024
window = 1
";

#[test]
fn a_big_machine_is_answered(rt: HostRuntime) -> Result<(), Fail> {
    let alloc = rt.alloc();
    let image = exit_seven(alloc)?;
    expect_program(&rt, alloc, BIG, image.as_slice(), 0, SEVEN)
}

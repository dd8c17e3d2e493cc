// Programs by many seeds, on machines with little room. Each run comes to its end within the bound on events.
use super::{files_with, text};
use std::alloc::Global;
use std::process::Abort;
use std::test::Fail;
use tss_base::Key;
use tss_programs::{full_tables, hi, idle_race, many_readers, renamed_output, spinning_reader};

/// The bound on events by the limits of the small machine: 1,000 instructions of main and its end, and for each of 16
/// tasks 100 instructions, 4 events of its own, and 12 of each of its 7 operands.
const BOUND: u64 = 4009;

/// Seven entries, places and buffers, so that one task may fill the tables.
const SEVENS: &[(Key, &str)] = &[
    (Key::Entries, "7"),
    (Key::Versions, "7"),
    (Key::Buffers, "7"),
];

/// The least sizes that go with seven operands.
const LEAST: &[(Key, &str)] = &[
    (Key::Slots, "1"),
    (Key::Workers, "1"),
    (Key::Entries, "7"),
    (Key::Versions, "7"),
    (Key::Buffers, "7"),
    (Key::Quantum, "1"),
];

/// The least sizes but for eight slots, with eight tasks that decode at once.
const WIDEST: &[(Key, &str)] = &[
    (Key::Workers, "1"),
    (Key::Entries, "7"),
    (Key::Versions, "7"),
    (Key::Buffers, "7"),
    (Key::Quantum, "1"),
    (Key::Window, "8"),
];

/// What the programs come to.
const HI: &[u8] =
    b"end exit 0\ntasks 1\noutput 4\nHi!?\nrow 00020000 4869213f000000000000000000000000\n";

const RENAMED: &[u8] = b"end exit 0\ntasks 3\noutput 2\nac\n\
    row 00020000 63000000000000000000000000000000\n\
    row 00020040 61000000000000000000000000000000\n";

const READ: &[u8] =
    b"end exit 0\ntasks 9\noutput 1\nb\nrow 00020000 62000000000000000000000000000000\n";

const TWO: &[u8] = b"end exit 0\ntasks 2\noutput 0\n\n";

const TRAPPED: &[u8] = b"end task-trap 1 00010078 3 00010078\ntasks 1\noutput 0\n\n";

/// The number of events in the line with which a text begins. 0 where it begins with no such line.
fn events(text: &[u8]) -> u64 {
    let mut events: u64 = 0;
    for byte in text.strip_prefix(b"events ").unwrap_or(&[]) {
        if *byte == b'\n' {
            break;
        }
        let digit = u64::from(byte.saturating_sub(b'0'));
        events = events.saturating_mul(10).saturating_add(digit);
    }
    events
}

/// Checks the runs of a program by so many seeds, from 0 on: each tells this, and does no more events than the bound.
fn expect(
    rt: &impl Abort,
    alloc: Global,
    program: Vec<u8>,
    changes: &[(Key, &str)],
    seeds: u32,
    status: u8,
    report: &[u8],
) -> Result<(), Fail> {
    let mut files = files_with(alloc, program.as_slice(), changes, b"")?;
    for seed in 0..seeds {
        let seed = format!(in alloc; "{seed}")?;
        let texts = ["run", "image", "machine", "seed", seed.as_str()];
        let run = text(rt, alloc, &mut files, &texts, status)?;
        let done = events(run.bytes().strip_prefix(report).unwrap_or(&[]));
        assert!(rt; 1 <= done && done <= BOUND, "seed {seed}");
    }
    Ok(())
}

/// Five programs, each by twenty seeds.
fn expect_five(rt: &impl Abort, alloc: Global, changes: &[(Key, &str)]) -> Result<(), Fail> {
    expect(rt, alloc, hi(alloc)?, changes, 20, 0, HI)?;
    expect(rt, alloc, renamed_output(alloc)?, changes, 20, 0, RENAMED)?;
    expect(rt, alloc, many_readers(alloc)?, changes, 20, 0, READ)?;
    expect(rt, alloc, full_tables(alloc)?, changes, 20, 0, TWO)?;
    expect(rt, alloc, idle_race(alloc)?, changes, 20, 0, TWO)
}

#[test]
fn programs_end_on_the_least_machine(rt: HostRuntime) -> Result<(), Fail> {
    expect_five(&rt, rt.alloc(), LEAST)
}

#[test]
fn programs_end_with_the_widest_window(rt: HostRuntime) -> Result<(), Fail> {
    expect_five(&rt, rt.alloc(), WIDEST)
}

#[test]
fn full_tables_are_emptied_by_a_hundred_seeds(rt: HostRuntime) -> Result<(), Fail> {
    let alloc = rt.alloc();
    expect(&rt, alloc, full_tables(alloc)?, SEVENS, 100, 0, TWO)
}

#[test]
fn a_trap_is_told_though_another_task_never_ends(rt: HostRuntime) -> Result<(), Fail> {
    let alloc = rt.alloc();
    expect(&rt, alloc, spinning_reader(alloc)?, &[], 10, 1, TRAPPED)
}

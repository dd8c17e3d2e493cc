// Programs with names, whose ending, tasks, output and rows the rules give.
use super::{IN_ORDER, files_with, text};
use std::alloc::Global;
use std::process::Abort;
use std::test::Fail;
use tss_asm::AsmFault;
use tss_base::Key;
use tss_isa::{Instr, StoreKind};
use tss_programs::{
    Code, Entry, Source, await_first, await_second, await_third, exit_seven, full_tables, hi,
    idle_race, input, late_trap, main_touch, main_touch_after_barrier, many_readers,
    merged_operands, no_instruction, no_operands, output_alone, partial_overlap, renamed_output,
    spinning_reader,
};

/// Checks the report of a program on the small machine with some changes: by its run in program order, and by runs of
/// the unit machine, each of which tells the same and then this.
fn expect(
    rt: &impl Abort,
    alloc: Global,
    name: &str,
    program: Vec<u8>,
    changes: &[(Key, &str)],
    status: u8,
    report: &[u8],
    events: &[u8],
) -> Result<(), Fail> {
    let mut files = files_with(alloc, program.as_slice(), changes, b"")?;
    let alone = text(rt, alloc, &mut files, IN_ORDER, status)?;
    assert!(rt; alone.bytes() == report, "{name}");
    for seed in ["0", "1", "2", "99"] {
        let texts = ["run", "image", "machine", "seed", seed];
        let run = text(rt, alloc, &mut files, &texts, status)?;
        let rest = run.bytes().strip_prefix(report).unwrap_or(&[]);
        assert!(rt; rest.starts_with(events), "{name}, seed {seed}");
    }
    Ok(())
}

/// Main stores into the last row of its stack.
fn stack(alloc: Global) -> Result<Vec<u8>, AsmFault> {
    let mut main = Source::open(alloc)?;
    main.li(5, 0xFFFE_FFF0)?;
    main.li(6, 0xAB)?;
    main.instr(Instr::Store {
        kind: StoreKind::Sw,
        rs2: 6,
        rs1: 5,
        offset: 0,
    })?;
    main.exit(1)?;
    main.image()
}

/// A task whose second object begins within its first one, with a mode of this number.
fn second_object(alloc: Global, mode: u32) -> Result<Vec<u8>, AsmFault> {
    let mut main = Source::open(alloc)?;
    let second = Entry {
        base: 0x20002,
        len: 4,
        mode,
    };
    main.spawn(Code::N, &[input(0x20000, 4), second], 0)?;
    main.exit(0)?;
    main.image()
}

#[test]
fn main_alone(rt: HostRuntime) -> Result<(), Fail> {
    let alloc = rt.alloc();
    let seven = b"end exit 7\ntasks 0\noutput 0\n\n";
    expect(
        &rt,
        alloc,
        "exit 7",
        exit_seven(alloc)?,
        &[],
        0,
        seven,
        b"events 2\n",
    )?;
    let row = b"end exit 1\ntasks 0\noutput 0\n\nrow fffefff0 ab000000000000000000000000000000\n";
    expect(
        &rt,
        alloc,
        "stack",
        stack(alloc)?,
        &[],
        0,
        row,
        b"events 2\n",
    )
}

#[test]
fn tasks_without_operands(rt: HostRuntime) -> Result<(), Fail> {
    let alloc = rt.alloc();
    let five = b"end exit 5\ntasks 1\noutput 0\n\n";
    expect(
        &rt,
        alloc,
        "one task",
        no_operands(alloc, 0)?,
        &[],
        0,
        five,
        b"events 10\n",
    )?;
    let trap = b"end task-trap 1 0001004c 2 00000000\ntasks 1\noutput 0\n\n";
    expect(
        &rt,
        alloc,
        "no instruction",
        no_instruction(alloc)?,
        &[],
        1,
        trap,
        b"events ",
    )?;
    let refused = b"end refused 1 00010028\ntasks 0\noutput 0\n\n";
    expect(
        &rt,
        alloc,
        "eight operands",
        no_operands(alloc, 8)?,
        &[],
        2,
        refused,
        b"events ",
    )
}

#[test]
fn outputs_are_renamed_and_read(rt: HostRuntime) -> Result<(), Fail> {
    let alloc = rt.alloc();
    let renamed =
        b"end exit 0\ntasks 3\noutput 2\nac\nrow 00020000 63000000000000000000000000000000\nrow 00020040 61000000000000000000000000000000\n";
    expect(
        &rt,
        alloc,
        "renamed output",
        renamed_output(alloc)?,
        &[],
        0,
        renamed,
        b"events ",
    )?;
    let read = b"end exit 0\ntasks 9\noutput 1\nb\nrow 00020000 62000000000000000000000000000000\n";
    let two = [(Key::Stations, "2")];
    expect(
        &rt,
        alloc,
        "many readers",
        many_readers(alloc)?,
        &two,
        0,
        read,
        b"events ",
    )?;
    let seven = [(Key::Entries, "7")];
    let full = b"end exit 0\ntasks 2\noutput 0\n\n";
    expect(
        &rt,
        alloc,
        "full tables",
        full_tables(alloc)?,
        &seven,
        0,
        full,
        b"events ",
    )?;
    expect(
        &rt,
        alloc,
        "idle race",
        idle_race(alloc)?,
        &[],
        0,
        full,
        b"events ",
    )
}

#[test]
fn task_budgets(rt: HostRuntime) -> Result<(), Fail> {
    let alloc = rt.alloc();
    let text =
        b"end exit 0\ntasks 1\noutput 4\nHi!?\nrow 00020000 4869213f000000000000000000000000\n";
    expect(&rt, alloc, "hi", hi(alloc)?, &[], 0, text, b"events 21\n")?;
    expect(
        &rt,
        alloc,
        "two steps",
        hi(alloc)?,
        &[(Key::TaskBudget, "2")],
        0,
        text,
        b"events 21\n",
    )?;
    let spent = b"end task-trap 1 0001006c 9 00000000\ntasks 1\noutput 0\n\n";
    expect(
        &rt,
        alloc,
        "one step",
        hi(alloc)?,
        &[(Key::TaskBudget, "1")],
        1,
        spent,
        b"events ",
    )
}

#[test]
fn the_first_trap_in_program_order(rt: HostRuntime) -> Result<(), Fail> {
    let alloc = rt.alloc();
    let late = b"end task-trap 2 00010144 3 00010144\ntasks 2\noutput 1\na\n";
    expect(
        &rt,
        alloc,
        "late trap",
        late_trap(alloc)?,
        &[],
        1,
        late,
        b"events ",
    )?;
    let spinning = b"end task-trap 1 00010078 3 00010078\ntasks 1\noutput 0\n\n";
    expect(
        &rt,
        alloc,
        "spinning reader",
        spinning_reader(alloc)?,
        &[],
        1,
        spinning,
        b"events ",
    )
}

#[test]
fn objects_overlap_or_touch(rt: HostRuntime) -> Result<(), Fail> {
    let alloc = rt.alloc();
    let refused = b"end refused 8 00010028\ntasks 0\noutput 0\n\n";
    expect(
        &rt,
        alloc,
        "partial overlap",
        partial_overlap(alloc, 5)?,
        &[],
        2,
        refused,
        b"events ",
    )?;
    let apart = b"end exit 0\ntasks 1\noutput 0\n\n";
    expect(
        &rt,
        alloc,
        "side by side",
        partial_overlap(alloc, 4)?,
        &[],
        0,
        apart,
        b"events ",
    )
}

#[test]
fn entries_are_checked_one_after_another(rt: HostRuntime) -> Result<(), Fail> {
    let alloc = rt.alloc();
    let mode = b"end refused 4 00010028\ntasks 0\noutput 0\n\n";
    let image = second_object(alloc, 9)?;
    expect(&rt, alloc, "a bad mode", image, &[], 2, mode, b"events ")?;
    let base = b"end refused 6 00010028\ntasks 0\noutput 0\n\n";
    let image = second_object(alloc, 1)?;
    expect(&rt, alloc, "a bad base", image, &[], 2, base, b"events ")
}

#[test]
fn main_touches_what_it_named(rt: HostRuntime) -> Result<(), Fail> {
    let alloc = rt.alloc();
    let touch =
        b"end refused 3 00010034\ntasks 1\noutput 0\n\nrow 00020000 61000000000000000000000000000000\n";
    expect(
        &rt,
        alloc,
        "main touch",
        main_touch(alloc)?,
        &[],
        2,
        touch,
        b"events ",
    )?;
    let after = b"end exit 0\ntasks 1\noutput 0\n\nrow 00020000 61000000000000000000000000000000\n";
    expect(
        &rt,
        alloc,
        "after a barrier",
        main_touch_after_barrier(alloc)?,
        &[],
        0,
        after,
        b"events ",
    )
}

#[test]
fn main_awaits_an_object(rt: HostRuntime) -> Result<(), Fail> {
    let alloc = rt.alloc();
    let first = b"end exit 0\ntasks 1\noutput 0\n\nrow 00020000 61000000000000000000000000000000\n";
    expect(
        &rt,
        alloc,
        "its task's object",
        await_first(alloc)?,
        &[],
        0,
        first,
        b"events 19\n",
    )?;
    let second =
        b"end refused 13 0001003c\ntasks 1\noutput 0\n\nrow 00020000 61000000000000000000000000000000\n";
    expect(
        &rt,
        alloc,
        "an object that isn't named",
        await_second(alloc)?,
        &[],
        2,
        second,
        b"events ",
    )?;
    let third =
        b"end exit 0\ntasks 2\noutput 0\n\nrow 00020000 61000000000000000000000000000000\nrow 00020040 62000000000000000000000000000000\n";
    expect(
        &rt,
        alloc,
        "the first of two objects",
        await_third(alloc)?,
        &[],
        0,
        third,
        b"events ",
    )
}

#[test]
fn equal_operands_are_merged(rt: HostRuntime) -> Result<(), Fail> {
    let alloc = rt.alloc();
    let merged =
        b"end exit 0\ntasks 1\noutput 1\nB\nrow 00020000 42000000000000000000000000000000\n";
    expect(
        &rt,
        alloc,
        "merged operands",
        merged_operands(alloc)?,
        &[],
        0,
        merged,
        b"events ",
    )?;
    let alone =
        b"end exit 0\ntasks 1\noutput 1\n\x01\nrow 00020000 01000000000000000000000000000000\n";
    expect(
        &rt,
        alloc,
        "an output alone",
        output_alone(alloc)?,
        &[],
        0,
        alone,
        b"events ",
    )
}

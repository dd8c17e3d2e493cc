// Programs that exit.
use super::{X, exits_with, expect, prints};
use std::alloc::Global;
use std::test::Fail;
use tss_asm::AsmFault;
use tss_base::Ending::Exit;
use tss_base::Limits;
use tss_programs::{
    Code, M0, Source, exit_seven, full_tables, hi, idle_race, inout, input,
    main_touch_after_barrier, many_readers, merged_operands, output, output_alone, partial_overlap,
    renamed_output,
};

#[test]
fn main_alone(rt: HostRuntime) -> Result<(), Fail> {
    let alloc = rt.alloc();
    expect(
        &rt,
        alloc,
        "exit 7",
        exit_seven(alloc)?,
        &M0.limits,
        Exit(7),
        0,
        b"",
    )?;
    let five = Limits {
        main_budget: 5,
        ..M0.limits
    };
    expect(
        &rt,
        alloc,
        "a budget that suffices",
        exits_with(alloc, 3)?,
        &five,
        Exit(3),
        0,
        b"",
    )?;
    let one = Limits {
        output_bytes: 1,
        ..M0.limits
    };
    expect(
        &rt,
        alloc,
        "all that may be printed",
        prints(alloc, X, 1)?,
        &one,
        Exit(0),
        0,
        b"\x00",
    )?;
    expect(
        &rt,
        alloc,
        "a print of no byte",
        prints(alloc, 0x30000, 0)?,
        &M0.limits,
        Exit(0),
        0,
        b"",
    )
}

#[test]
fn tasks_write_and_read(rt: HostRuntime) -> Result<(), Fail> {
    let alloc = rt.alloc();
    expect(
        &rt,
        alloc,
        "hi",
        hi(alloc)?,
        &M0.limits,
        Exit(0),
        1,
        b"Hi!?",
    )?;
    let two = Limits {
        task_budget: 2,
        ..M0.limits
    };
    expect(
        &rt,
        alloc,
        "a budget that suffices",
        hi(alloc)?,
        &two,
        Exit(0),
        1,
        b"Hi!?",
    )?;
    expect(
        &rt,
        alloc,
        "renamed output",
        renamed_output(alloc)?,
        &M0.limits,
        Exit(0),
        3,
        b"ac",
    )?;
    expect(
        &rt,
        alloc,
        "many readers",
        many_readers(alloc)?,
        &M0.limits,
        Exit(0),
        9,
        b"b",
    )?;
    expect(
        &rt,
        alloc,
        "seven operands",
        full_tables(alloc)?,
        &M0.limits,
        Exit(0),
        2,
        b"",
    )?;
    expect(
        &rt,
        alloc,
        "two readers",
        idle_race(alloc)?,
        &M0.limits,
        Exit(0),
        2,
        b"",
    )
}

#[test]
fn operands_are_merged(rt: HostRuntime) -> Result<(), Fail> {
    let alloc = rt.alloc();
    let merged = merged_operands(alloc)?;
    expect(
        &rt,
        alloc,
        "input and output",
        merged,
        &M0.limits,
        Exit(0),
        1,
        b"B",
    )?;
    expect(
        &rt,
        alloc,
        "an output alone",
        output_alone(alloc)?,
        &M0.limits,
        Exit(0),
        1,
        b"\x01",
    )?;
    expect(
        &rt,
        alloc,
        "three as listed",
        listed(alloc)?,
        &M0.limits,
        Exit(0),
        1,
        b"z",
    )
}

#[test]
fn objects_lie_side_by_side(rt: HostRuntime) -> Result<(), Fail> {
    let alloc = rt.alloc();
    expect(
        &rt,
        alloc,
        "side by side",
        partial_overlap(alloc, 4)?,
        &M0.limits,
        Exit(0),
        1,
        b"",
    )?;
    expect(
        &rt,
        alloc,
        "at the end",
        last_word(alloc)?,
        &M0.limits,
        Exit(0),
        1,
        b"a\x00\x00\x00",
    )
}

#[test]
fn an_epoch_and_a_scratch_begin_anew(rt: HostRuntime) -> Result<(), Fail> {
    let alloc = rt.alloc();
    let touched = main_touch_after_barrier(alloc)?;
    expect(
        &rt,
        alloc,
        "after a barrier",
        touched,
        &M0.limits,
        Exit(0),
        1,
        b"",
    )?;
    expect(
        &rt,
        alloc,
        "zeros in a scratch",
        scratches(alloc)?,
        &M0.limits,
        Exit(0),
        2,
        b"\x00\x00",
    )
}

/// A task has the bases of its operands as listed, before two of them are merged: it writes to the third.
fn listed(alloc: Global) -> Result<Vec<u8>, AsmFault> {
    let mut main = Source::open(alloc)?;
    let y = X + 0x40;
    main.spawn(
        Code::Third,
        &[input(X, 4), output(X, 4), output(y, 4)],
        0x7A,
    )?;
    main.barrier()?;
    main.print(y, 1)?;
    main.exit(0)?;
    main.image()
}

/// An object at the end of its segment.
fn last_word(alloc: Global) -> Result<Vec<u8>, AsmFault> {
    let mut main = Source::open(alloc)?;
    let last = X + 0xFFC;
    main.spawn(Code::W, &[inout(last, 4)], 0x61)?;
    main.barrier()?;
    main.print(last, 4)?;
    main.exit(0)?;
    main.image()
}

/// Two tasks that tell what stands last in their scratch, and then write there.
fn scratches(alloc: Global) -> Result<Vec<u8>, AsmFault> {
    let mut main = Source::open(alloc)?;
    let y = X + 0x40;
    main.spawn(Code::Scratch, &[output(X, 4)], 0x79)?;
    main.spawn(Code::Scratch, &[output(y, 4)], 0x7A)?;
    main.barrier()?;
    main.print(X, 1)?;
    main.print(y, 1)?;
    main.exit(0)?;
    main.image()
}

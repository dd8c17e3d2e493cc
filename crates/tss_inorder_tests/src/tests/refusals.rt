// Each refusal.
use super::{X, exits_with, expect};
use std::alloc::Global;
use std::test::Fail;
use tss_asm::AsmFault;
use tss_base::Ending::Refused;
use tss_base::Limits;
use tss_isa::Instr;
use tss_programs::{
    Code, Entry, M0, Source, await_second, input, main_touch, no_operands, output, partial_overlap,
};

/// The pc of a spawn with which main begins.
const SPAWN_PC: u32 = 0x10028;

#[test]
fn a_list_is_refused(rt: HostRuntime) -> Result<(), Fail> {
    let alloc = rt.alloc();
    let many = no_operands(alloc, 8)?;
    expect(
        &rt,
        alloc,
        "eight operands",
        many,
        &M0.limits,
        Refused(1, SPAWN_PC),
        0,
        b"",
    )?;
    let odd = odd_list(alloc)?;
    expect(
        &rt,
        alloc,
        "at no multiple of 4",
        odd,
        &M0.limits,
        Refused(2, 0x10010),
        0,
        b"",
    )
}

#[test]
fn an_entry_is_refused(rt: HostRuntime) -> Result<(), Fail> {
    let alloc = rt.alloc();
    let nine = Entry {
        mode: 9,
        ..input(X + 2, 4)
    };
    let rows: [(&str, [Entry; 2], u32); 6] = [
        ("mode 9", [input(X, 4), nine], 4),
        ("no byte", [input(X, 4), input(X + 4, 0)], 5),
        (
            "a base at no multiple of 4",
            [input(X, 4), input(X + 2, 4)],
            6,
        ),
        (
            "an input past the data",
            [input(X, 4), input(X + 0x1000, 4)],
            7,
        ),
        (
            "an output in the text",
            [input(X, 4), output(0x10000, 4)],
            7,
        ),
        (
            "objects that overlap in part",
            [input(X, 8), input(X + 4, 8)],
            8,
        ),
    ];
    for (name, entries, number) in &rows {
        let program = spawns(alloc, entries)?;
        expect(
            &rt,
            alloc,
            name,
            program,
            &M0.limits,
            Refused(*number, SPAWN_PC),
            0,
            b"",
        )?;
    }
    let five = partial_overlap(alloc, 5)?;
    expect(
        &rt,
        alloc,
        "partial overlap",
        five,
        &M0.limits,
        Refused(8, SPAWN_PC),
        0,
        b"",
    )
}

#[test]
fn limits_are_reached(rt: HostRuntime) -> Result<(), Fail> {
    let alloc = rt.alloc();
    let one_object = Limits {
        epoch_objects: 1,
        ..M0.limits
    };
    let two = spawns(alloc, &[input(X, 4), input(X + 4, 4)])?;
    expect(
        &rt,
        alloc,
        "named objects",
        two,
        &one_object,
        Refused(9, SPAWN_PC),
        0,
        b"",
    )?;
    let one_task = Limits {
        max_tasks: 1,
        ..M0.limits
    };
    expect(
        &rt,
        alloc,
        "tasks",
        two_tasks(alloc)?,
        &one_task,
        Refused(10, 0x10054),
        1,
        b"",
    )?;
    let four = Limits {
        main_budget: 4,
        ..M0.limits
    };
    expect(
        &rt,
        alloc,
        "instructions",
        exits_with(alloc, 3)?,
        &four,
        Refused(11, 0x10010),
        0,
        b"",
    )?;
    let one_byte = Limits {
        output_bytes: 1,
        ..M0.limits
    };
    let twice = two_prints(alloc)?;
    expect(
        &rt,
        alloc,
        "output",
        twice,
        &one_byte,
        Refused(12, 0x10034),
        0,
        b"\x00",
    )
}

#[test]
fn main_touches_what_it_named(rt: HostRuntime) -> Result<(), Fail> {
    let alloc = rt.alloc();
    expect(
        &rt,
        alloc,
        "a load",
        main_touch(alloc)?,
        &M0.limits,
        Refused(3, 0x10034),
        1,
        b"",
    )?;
    expect(
        &rt,
        alloc,
        "a print",
        print_touch(alloc)?,
        &M0.limits,
        Refused(3, 0x10044),
        1,
        b"",
    )
}

#[test]
fn what_is_not_named_is_not_awaited(rt: HostRuntime) -> Result<(), Fail> {
    let alloc = rt.alloc();
    let other = await_second(alloc)?;
    expect(
        &rt,
        alloc,
        "another base",
        other,
        &M0.limits,
        Refused(13, 0x1003C),
        1,
        b"",
    )?;
    let twice = await_twice(alloc)?;
    expect(
        &rt,
        alloc,
        "a second time",
        twice,
        &M0.limits,
        Refused(13, 0x10050),
        1,
        b"",
    )
}

/// Main spawns a task with these operands, and exits.
fn spawns(alloc: Global, entries: &[Entry]) -> Result<Vec<u8>, AsmFault> {
    let mut main = Source::open(alloc)?;
    main.spawn(Code::N, entries, 0)?;
    main.exit(0)?;
    main.image()
}

/// A list of one operand in the text, at no multiple of 4.
fn odd_list(alloc: Global) -> Result<Vec<u8>, AsmFault> {
    let mut main = Source::open(alloc)?;
    main.addi(12, 0, 1)?;
    main.li(11, 0x10002)?;
    main.addi(17, 0, 2)?;
    main.instr(Instr::Ecall)?;
    main.image()
}

/// Two tasks without operands.
fn two_tasks(alloc: Global) -> Result<Vec<u8>, AsmFault> {
    let mut main = Source::open(alloc)?;
    main.spawn(Code::N, &[], 0)?;
    main.spawn(Code::N, &[], 0)?;
    main.exit(0)?;
    main.image()
}

/// Two prints of a byte.
fn two_prints(alloc: Global) -> Result<Vec<u8>, AsmFault> {
    let mut main = Source::open(alloc)?;
    main.print(X, 1)?;
    main.print(X, 1)?;
    main.image()
}

/// A print of the last byte of a named object.
fn print_touch(alloc: Global) -> Result<Vec<u8>, AsmFault> {
    let mut main = Source::open(alloc)?;
    main.spawn(Code::N, &[input(X, 4)], 0)?;
    main.print(X + 3, 1)?;
    main.image()
}

/// Main waits for one object twice.
fn await_twice(alloc: Global) -> Result<Vec<u8>, AsmFault> {
    let mut main = Source::open(alloc)?;
    main.spawn(Code::N, &[input(X, 4)], 0)?;
    main.wait_for(X)?;
    main.wait_for(X)?;
    main.image()
}

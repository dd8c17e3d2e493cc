// Each trap.
use super::{LOAD, STORE, X, executes, expect, prints};
use std::alloc::Global;
use std::test::Fail;
use tss_asm::AsmFault;
use tss_base::Ending::{MainTrap, TaskTrap};
use tss_base::{Limits, Trap};
use tss_isa::Instr;
use tss_programs::{
    Code, Entry, M0, Source, hi, input, late_trap, no_instruction, spinning_reader,
};

/// A jump to the address in x5.
const JUMP: Instr = Instr::Jalr {
    rd: 0,
    rs1: 5,
    offset: 0,
};

/// A trap.
fn trap(pc: u32, cause: u32, value: u32) -> Trap {
    Trap { pc, cause, value }
}

#[test]
fn main_jumps_to_no_instruction(rt: HostRuntime) -> Result<(), Fail> {
    let alloc = rt.alloc();
    let rows: [(&str, u32, Trap); 3] = [
        ("at no multiple of 4", 0x10002, trap(0x10008, 0, 0x10002)),
        ("in no segment", 0x30000, trap(0x30000, 1, 0x30000)),
        (
            "where a task ends",
            0xFFFF_FFF0,
            trap(0xFFFF_FFF0, 1, 0xFFFF_FFF0),
        ),
    ];
    for (name, at, trapped) in &rows {
        let program = executes(alloc, *at, JUMP)?;
        expect(
            &rt,
            alloc,
            name,
            program,
            &M0.limits,
            MainTrap(*trapped),
            0,
            b"",
        )?;
    }
    Ok(())
}

#[test]
fn main_executes_what_traps(rt: HostRuntime) -> Result<(), Fail> {
    let alloc = rt.alloc();
    let illegal = MainTrap(trap(0x10000, 2, 0));
    expect(
        &rt,
        alloc,
        "a zero",
        word(alloc, 0)?,
        &M0.limits,
        illegal,
        0,
        b"",
    )?;
    let breakpoint = MainTrap(trap(0x10000, 3, 0x10000));
    expect(
        &rt,
        alloc,
        "EBREAK",
        word(alloc, 0x0010_0073)?,
        &M0.limits,
        breakpoint,
        0,
        b"",
    )?;
    let unknown = MainTrap(trap(0x10004, 10, 9));
    expect(
        &rt,
        alloc,
        "call 9",
        ninth_call(alloc)?,
        &M0.limits,
        unknown,
        0,
        b"",
    )
}

#[test]
fn main_accesses_what_it_may_not(rt: HostRuntime) -> Result<(), Fail> {
    let alloc = rt.alloc();
    let rows: [(&str, u32, Instr, Trap); 4] = [
        (
            "a load at no multiple of 4",
            X + 2,
            LOAD,
            trap(0x10008, 4, X + 2),
        ),
        (
            "a load past the data",
            X + 0x1000,
            LOAD,
            trap(0x10008, 5, X + 0x1000),
        ),
        (
            "a store at no multiple of 4",
            X + 1,
            STORE,
            trap(0x10008, 6, X + 1),
        ),
        (
            "a store in the text",
            0x10000,
            STORE,
            trap(0x10008, 7, 0x10000),
        ),
    ];
    for (name, at, i, trapped) in &rows {
        let program = executes(alloc, *at, *i)?;
        expect(
            &rt,
            alloc,
            name,
            program,
            &M0.limits,
            MainTrap(*trapped),
            0,
            b"",
        )?;
    }
    let past = MainTrap(trap(0x10018, 5, X + 0xFFE));
    expect(
        &rt,
        alloc,
        "a print past the data",
        prints(alloc, X + 0xFFE, 3)?,
        &M0.limits,
        past,
        0,
        b"",
    )
}

#[test]
fn a_task_traps(rt: HostRuntime) -> Result<(), Fail> {
    let alloc = rt.alloc();
    let x = [input(X, 4)];
    let rows: [(&str, Code, &[Entry], Trap); 3] = [
        ("a call", Code::Call, &[], trap(0x10044, 8, 77)),
        (
            "a load past its operand",
            Code::Beyond,
            &x,
            trap(0x10040, 5, X + 4),
        ),
        ("a store in an input", Code::Stores, &x, trap(0x10040, 7, X)),
    ];
    for (name, code, entries, trapped) in &rows {
        let program = spawns(alloc, *code, entries)?;
        expect(
            &rt,
            alloc,
            name,
            program,
            &M0.limits,
            TaskTrap(1, *trapped),
            1,
            b"",
        )?;
    }
    let none = TaskTrap(1, trap(0x1004C, 2, 0));
    expect(
        &rt,
        alloc,
        "no instruction",
        no_instruction(alloc)?,
        &M0.limits,
        none,
        1,
        b"",
    )?;
    let one = Limits {
        task_budget: 1,
        ..M0.limits
    };
    let spent = TaskTrap(1, trap(0x1006C, 9, 0));
    expect(
        &rt,
        alloc,
        "a spent budget",
        hi(alloc)?,
        &one,
        spent,
        1,
        b"",
    )
}

#[test]
fn the_first_trap_in_program_order(rt: HostRuntime) -> Result<(), Fail> {
    let alloc = rt.alloc();
    let second = TaskTrap(2, trap(0x10144, 3, 0x10144));
    expect(
        &rt,
        alloc,
        "late trap",
        late_trap(alloc)?,
        &M0.limits,
        second,
        2,
        b"a",
    )?;
    let first = TaskTrap(1, trap(0x10078, 3, 0x10078));
    expect(
        &rt,
        alloc,
        "spinning reader",
        spinning_reader(alloc)?,
        &M0.limits,
        first,
        1,
        b"",
    )
}

/// Main is one word.
fn word(alloc: Global, value: u32) -> Result<Vec<u8>, AsmFault> {
    let mut main = Source::open(alloc)?;
    main.word(value)?;
    main.image()
}

/// Main makes a call of a number that isn't one.
fn ninth_call(alloc: Global) -> Result<Vec<u8>, AsmFault> {
    let mut main = Source::open(alloc)?;
    main.addi(17, 0, 9)?;
    main.instr(Instr::Ecall)?;
    main.image()
}

/// Main spawns a task with these operands, and exits.
fn spawns(alloc: Global, code: Code, entries: &[Entry]) -> Result<Vec<u8>, AsmFault> {
    let mut main = Source::open(alloc)?;
    main.spawn(code, entries, 0)?;
    main.exit(0)?;
    main.image()
}

// The most tasks, and the most objects of an epoch.
use super::{X, expect};
use std::alloc::Global;
use std::test::Fail;
use tss_asm::AsmFault;
use tss_base::Ending::{Exit, Refused};
use tss_base::Limits;
use tss_isa::{Instr, StoreKind, Test};
use tss_programs::{Code, M0, Source};

/// Limits under which main may spawn as many tasks as there may be.
fn most() -> Limits {
    Limits {
        main_budget: 1_000_000,
        max_tasks: 65_536,
        ..M0.limits
    }
}

#[test]
fn the_most_tasks(rt: HostRuntime) -> Result<(), Fail> {
    let alloc = rt.alloc();
    expect(
        &rt,
        alloc,
        "without operands",
        tasks(alloc)?,
        &most(),
        Exit(0),
        65_536,
        b"",
    )
}

#[test]
fn the_most_objects_of_an_epoch(rt: HostRuntime) -> Result<(), Fail> {
    let alloc = rt.alloc();
    let all = Limits {
        epoch_objects: 65_536,
        ..most()
    };
    expect(
        &rt,
        alloc,
        "an object a task",
        objects(alloc)?,
        &all,
        Exit(0),
        65_536,
        b"",
    )?;
    let fewer = Limits {
        epoch_objects: 65_535,
        ..most()
    };
    let refused = Refused(9, 0x1004C);
    expect(
        &rt,
        alloc,
        "one more",
        objects(alloc)?,
        &fewer,
        refused,
        65_535,
        b"",
    )
}

/// Main spawns 65,536 tasks in a loop.
fn tasks(alloc: Global) -> Result<Vec<u8>, AsmFault> {
    let mut main = Source::open(alloc)?;
    spawn_tasks(&mut main)?;
    main.image()
}

fn spawn_tasks(main: &mut Source) -> Result<(), AsmFault> {
    main.li(5, 0x1_0000)?;
    main.task_address(10, Code::N)?;
    main.li(12, 0)?;
    main.li(17, 2)?;
    let again = main.here()?;
    main.instr(Instr::Ecall)?;
    main.addi(5, 5, -1)?;
    main.branch(Test::Bne, 5, 0, again)?;
    main.exit(0)
}

/// Main stores a word of a list of one operand, which stands after the objects.
fn store(main: &mut Source, rs2: u8, offset: i32) -> Result<(), AsmFault> {
    main.instr(Instr::Store {
        kind: StoreKind::Sw,
        rs2,
        rs1: 11,
        offset,
    })
}

/// Main spawns 65,536 tasks in a loop, each on a word of its own.
fn objects(alloc: Global) -> Result<Vec<u8>, AsmFault> {
    let mut main = Source::open(alloc)?;
    main.zeros(0x5_0000);
    list_of_one(&mut main)?;
    spawn_on_words(&mut main)?;
    main.image()
}

/// The length and the mode of the one operand of the list.
fn list_of_one(main: &mut Source) -> Result<(), AsmFault> {
    main.li(5, 0x1_0000)?;
    main.li(6, X)?;
    main.li(11, X + 0x4_0000)?;
    main.li(7, 4)?;
    store(main, 7, 4)?;
    main.li(7, 1)?;
    store(main, 7, 8)
}

fn spawn_on_words(main: &mut Source) -> Result<(), AsmFault> {
    main.task_address(10, Code::N)?;
    main.li(12, 1)?;
    main.li(17, 2)?;
    let again = main.here()?;
    store(main, 6, 0)?;
    main.instr(Instr::Ecall)?;
    main.addi(6, 6, 4)?;
    main.addi(5, 5, -1)?;
    main.branch(Test::Bne, 5, 0, again)?;
    main.exit(0)
}

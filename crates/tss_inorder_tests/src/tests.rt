// What no clause says: that memory is found for a run. And programs with names, whose endings, tasks and output were
// worked out apart.

mod awaits;
mod events;
mod exits;
mod many;
mod refusals;
mod restarts;
mod traps;

use std::alloc::Global;
use std::fmt::Debug;
use std::process::Abort;
use std::test::Fail;
use tss_asm::AsmFault;
use tss_base::{Ending, Limits};
use tss_elf::read_image;
use tss_inorder::run_in_order;
use tss_isa::{Instr, LoadKind, StoreKind};
use tss_programs::Source;

/// Checks that two values are equal. A call has fewer steps than `assert_eq!`, so a test of many is proved sooner.
fn check_eq<T: PartialEq + Debug + Copy>(rt: &impl Abort, left: T, right: T) {
    assert_eq!(rt; left, right);
}

/// Where the data of a program stands.
const X: u32 = 0x20000;

/// Checks what a program comes to in program order: its ending, its tasks and its output.
fn expect(
    rt: &impl Abort,
    alloc: Global,
    name: &str,
    program: Vec<u8>,
    limits: &Limits,
    ending: Ending,
    tasks: u32,
    output: &[u8],
) -> Result<(), Fail> {
    assert!(rt; limits.max_operands <= 7);
    let image = read_image(alloc, program.as_slice())?;
    let reference = run_in_order(alloc, &image, limits)?;
    assert_eq!(rt; reference.ending(), ending, "{name}");
    assert_eq!(rt; reference.tasks(), tasks, "{name}");
    assert_eq!(rt; reference.output(), output, "{name}");
    Ok(())
}

/// Main exits.
fn exits_with(alloc: Global, status: u32) -> Result<Vec<u8>, AsmFault> {
    let mut main = Source::open(alloc)?;
    main.exit(status)?;
    main.image()
}

/// Main prints so many bytes at an address, and exits.
fn prints(alloc: Global, at: u32, len: u32) -> Result<Vec<u8>, AsmFault> {
    let mut main = Source::open(alloc)?;
    main.print(at, len)?;
    main.exit(0)?;
    main.image()
}

/// A load of a word by main.
const LOAD: Instr = Instr::Load {
    kind: LoadKind::Lw,
    rd: 6,
    rs1: 5,
    offset: 0,
};

/// A store of a word by main.
const STORE: Instr = Instr::Store {
    kind: StoreKind::Sw,
    rs2: 6,
    rs1: 5,
    offset: 0,
};

/// Main executes an instruction that takes its address from x5.
fn executes(alloc: Global, at: u32, i: Instr) -> Result<Vec<u8>, AsmFault> {
    let mut main = Source::open(alloc)?;
    main.li(5, at)?;
    main.instr(i)?;
    main.image()
}

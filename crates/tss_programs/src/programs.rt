// The programs with names.
use crate::code::Code::{H, I, N, Q, R, Rest, W, Z};
use crate::source::{Entry, Source, inout, input, output};
use std::alloc::Global;
use tss_asm::AsmFault;
use tss_isa::{Instr, LoadKind, StoreKind};

/// Two objects of a word.
const X: u32 = 0x20000;

const Y: u32 = 0x20040;

const WORD: u32 = 4;

/// Main exits with status 7, by three words.
pub fn exit_seven(alloc: Global) -> Result<Vec<u8>, AsmFault> {
    let mut main = Source::open(alloc)?;
    main.addi(10, 0, 7)?;
    main.addi(17, 0, 1)?;
    main.instr(Instr::Ecall)?;
    main.image()
}

/// A task writes a word, which main prints after a barrier.
pub fn hi(alloc: Global) -> Result<Vec<u8>, AsmFault> {
    let mut main = Source::open(alloc)?;
    main.spawn(W, &[inout(X, WORD)], 0x3F21_6948)?;
    main.barrier()?;
    main.print(X, 4)?;
    main.exit(0)?;
    main.image()
}

/// A word is written by a task, copied by a second, and written again by a third, whose output is renamed.
pub fn renamed_output(alloc: Global) -> Result<Vec<u8>, AsmFault> {
    let mut main = Source::open(alloc)?;
    main.spawn(W, &[output(X, WORD)], 0x61)?;
    main.spawn(R, &[input(X, WORD), output(Y, WORD)], 0)?;
    main.spawn(W, &[output(X, WORD)], 0x63)?;
    main.barrier()?;
    main.print(Y, 1)?;
    main.print(X, 1)?;
    main.exit(0)?;
    main.image()
}

/// A writer, seven readers of what it writes, and a task that adds one to it.
pub fn many_readers(alloc: Global) -> Result<Vec<u8>, AsmFault> {
    let mut main = Source::open(alloc)?;
    main.spawn(W, &[output(X, WORD)], 0x61)?;
    for _ in 0..7 {
        main.spawn(Q, &[input(X, WORD)], 0)?;
    }
    main.spawn(I, &[inout(X, WORD)], 0)?;
    main.barrier()?;
    main.print(X, 1)?;
    main.exit(0)?;
    main.image()
}

/// Two tasks with seven operands each, on fourteen objects.
pub fn full_tables(alloc: Global) -> Result<Vec<u8>, AsmFault> {
    let inputs: [Entry; 7] = [
        input(0x20000, WORD),
        input(0x20040, WORD),
        input(0x20080, WORD),
        input(0x200C0, WORD),
        input(0x20100, WORD),
        input(0x20140, WORD),
        input(0x20180, WORD),
    ];
    let outputs: [Entry; 7] = [
        output(0x20200, WORD),
        output(0x20240, WORD),
        output(0x20280, WORD),
        output(0x202C0, WORD),
        output(0x20300, WORD),
        output(0x20340, WORD),
        output(0x20380, WORD),
    ];
    let mut main = Source::open(alloc)?;
    main.spawn(N, &inputs, 0)?;
    main.spawn(N, &outputs, 0)?;
    main.barrier()?;
    main.exit(0)?;
    main.image()
}

/// Two readers of one object, of which the second comes when the first has left.
pub fn idle_race(alloc: Global) -> Result<Vec<u8>, AsmFault> {
    let mut main = Source::open(alloc)?;
    main.spawn(Q, &[input(X, WORD)], 0)?;
    main.spawn(Q, &[input(X, WORD)], 0)?;
    main.barrier()?;
    main.exit(0)?;
    main.image()
}

/// Four tasks of which the second and the fourth trap, and a letter of `abcd`, which stands after the tasks, printed
/// after each spawn.
pub fn late_trap(alloc: Global) -> Result<Vec<u8>, AsmFault> {
    let letters = 0x10148;
    let mut main = Source::open(alloc)?;
    main.spawn(N, &[], 0)?;
    main.print(letters, 1)?;
    main.spawn(H, &[], 0)?;
    main.print(letters + 1, 1)?;
    main.spawn(N, &[], 0)?;
    main.print(letters + 2, 1)?;
    main.spawn(H, &[], 0)?;
    main.print(letters + 3, 1)?;
    main.barrier()?;
    main.exit(0)?;
    main.last_word(0x6463_6261)?;
    main.image()
}

/// A task that traps, and one that would read for ever what the first leaves.
pub fn spinning_reader(alloc: Global) -> Result<Vec<u8>, AsmFault> {
    let mut main = Source::open(alloc)?;
    main.spawn(H, &[output(X, WORD)], 0)?;
    main.spawn(Z, &[input(X, WORD)], 0)?;
    main.barrier()?;
    main.exit(0)?;
    main.image()
}

/// A task with two objects, of which the first has this length. With 5 it reaches into the second, and with 4 it ends
/// where that begins.
pub fn partial_overlap(alloc: Global, len: u32) -> Result<Vec<u8>, AsmFault> {
    let mut main = Source::open(alloc)?;
    main.spawn(N, &[input(X, len), input(X + WORD, WORD)], 0)?;
    main.barrier()?;
    main.exit(0)?;
    main.image()
}

/// Main loads a word.
fn load(main: &mut Source, at: u32) -> Result<(), AsmFault> {
    main.li(5, at)?;
    main.instr(Instr::Load {
        kind: LoadKind::Lw,
        rd: 6,
        rs1: 5,
        offset: 0,
    })
}

/// Main loads from an object that it has named.
pub fn main_touch(alloc: Global) -> Result<Vec<u8>, AsmFault> {
    let mut main = Source::open(alloc)?;
    main.spawn(W, &[inout(X, WORD)], 0x61)?;
    load(&mut main, X)?;
    main.exit(0)?;
    main.image()
}

/// The same after a barrier.
pub fn main_touch_after_barrier(alloc: Global) -> Result<Vec<u8>, AsmFault> {
    let mut main = Source::open(alloc)?;
    main.spawn(W, &[inout(X, WORD)], 0x61)?;
    main.barrier()?;
    load(&mut main, X)?;
    main.exit(0)?;
    main.image()
}

/// Main writes a word and spawns a task that adds one to it, with these operands.
fn add_one(alloc: Global, entries: &[Entry]) -> Result<Vec<u8>, AsmFault> {
    let mut main = Source::open(alloc)?;
    main.li(5, X)?;
    main.li(6, 0x41)?;
    main.instr(Instr::Store {
        kind: StoreKind::Sw,
        rs2: 6,
        rs1: 5,
        offset: 0,
    })?;
    main.spawn(I, entries, 0)?;
    main.barrier()?;
    main.print(X, 1)?;
    main.exit(0)?;
    main.image()
}

/// A task adds one to a word that it names as an input and as an output.
pub fn merged_operands(alloc: Global) -> Result<Vec<u8>, AsmFault> {
    add_one(alloc, &[input(X, WORD), output(X, WORD)])
}

/// The same with an output alone, which begins as zeros.
pub fn output_alone(alloc: Global) -> Result<Vec<u8>, AsmFault> {
    add_one(alloc, &[output(X, WORD)])
}

/// A task without operands whose list is said to have so many.
pub fn no_operands(alloc: Global, count: u32) -> Result<Vec<u8>, AsmFault> {
    let mut main = Source::open(alloc)?;
    main.spawn_of(N, &[], count, 0)?;
    main.barrier()?;
    main.exit(5)?;
    main.image()
}

/// A task without operands whose one word is zero.
pub fn no_instruction(alloc: Global) -> Result<Vec<u8>, AsmFault> {
    let mut main = Source::open(alloc)?;
    main.spawn(Rest, &[], 0)?;
    main.barrier()?;
    main.exit(5)?;
    main.last_word(0)?;
    main.image()
}

/// Main waits for an object by its base, and then loads from the one that its task has written.
fn await_one(alloc: Global, base: u32) -> Result<Vec<u8>, AsmFault> {
    let mut main = Source::open(alloc)?;
    main.spawn(W, &[inout(X, WORD)], 0x61)?;
    main.wait_for(base)?;
    load(&mut main, X)?;
    main.exit(0)?;
    main.image()
}

/// Main waits for the object that its task writes, and loads from it.
pub fn await_first(alloc: Global) -> Result<Vec<u8>, AsmFault> {
    await_one(alloc, X)
}

/// Main waits for an object that it hasn't named.
pub fn await_second(alloc: Global) -> Result<Vec<u8>, AsmFault> {
    await_one(alloc, Y)
}

/// Main waits for the first of two objects.
pub fn await_third(alloc: Global) -> Result<Vec<u8>, AsmFault> {
    let mut main = Source::open(alloc)?;
    main.spawn(W, &[inout(X, WORD)], 0x61)?;
    main.spawn(W, &[inout(Y, WORD)], 0x62)?;
    main.wait_for(X)?;
    main.exit(0)?;
    main.image()
}

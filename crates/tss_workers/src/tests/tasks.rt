// Tasks from their start to their end: what they read, what they leave, and where they trap. The results are worked out
// by hand.
use crate::Finished;
use crate::tests::unit::Unit;
use std::alloc::Global;
use std::process::Abort;
use std::test::Fail;
use tss_asm::AsmFault;
use tss_base::addresses::{END_PC, SCRATCH_END};
use tss_base::bounds::MAX_OPERANDS;
use tss_base::causes::{LOAD_DENIED, STORE_DENIED};
use tss_base::{Mode, OpName, Operand, Range, Storage, Task, Trap};
use tss_isa::{Instr, LoadKind, RegOp, StoreKind, Test};
use tss_programs::Source;

/// Where the code of a task stands, and two objects in different banks.
const TEXT: u32 = 0x10000;

const X: u32 = 0x20000;

const Y: u32 = 0x20040;

fn load(rd: u8, rs1: u8, offset: i32) -> Instr {
    Instr::Load {
        kind: LoadKind::Lw,
        rd,
        rs1,
        offset,
    }
}

fn store(rs2: u8, rs1: u8, offset: i32) -> Instr {
    Instr::Store {
        kind: StoreKind::Sw,
        rs2,
        rs1,
        offset,
    }
}

/// The end of a task.
const RET: Instr = Instr::Jalr {
    rd: 0,
    rs1: 1,
    offset: 0,
};

/// For each word of the first object, as many as the argument says, puts its sum with the number of words that are left
/// in the second, and last in the scratch.
fn sums(alloc: Global) -> Result<Vec<u8>, AsmFault> {
    let mut text = Source::open(alloc)?;
    let turn = text.here()?;
    text.instr(load(5, 10, 0))?;
    text.instr(Instr::Op {
        op: RegOp::Add,
        rd: 5,
        rs1: 5,
        rs2: 12,
    })?;
    text.instr(store(5, 11, 0))?;
    text.instr(store(5, 2, -4))?;
    text.addi(10, 10, 4)?;
    text.addi(11, 11, 4)?;
    text.addi(12, 12, -1)?;
    text.branch(Test::Bne, 12, 0, turn)?;
    text.instr(RET)?;
    text.image()
}

/// Does one instruction, puts x5 in the second object, and ends. The word after that is 0x04030201.
fn does(alloc: Global, i: Instr) -> Result<Vec<u8>, AsmFault> {
    let mut text = Source::open(alloc)?;
    text.instr(i)?;
    text.instr(store(5, 11, 0))?;
    text.instr(RET)?;
    text.word(0x0403_0201)?;
    text.zeros(0x10100);
    text.image()
}

fn operand(base: u32, len: u32, mode: Mode) -> Operand {
    Operand {
        object: Range { base, len },
        mode,
    }
}

/// A task with these two operands and an argument.
fn task(first: Operand, second: Operand, argument: u32) -> Task {
    let mut bases = [0; MAX_OPERANDS as usize];
    bases[0] = first.object.base;
    bases[1] = second.object.base;
    let mut operands = [first; MAX_OPERANDS as usize];
    operands[1] = second;
    Task {
        number: 3,
        entry: TEXT,
        argument,
        listed: 2,
        bases,
        count: 2,
        operands,
    }
}

/// The buffer at a place of its bank.
fn buffer(place: u32) -> Storage {
    Storage::Buffer(place, OpName { task: 3, place: 0 })
}

fn storages(first: Storage, second: Storage) -> [Storage; MAX_OPERANDS as usize] {
    let mut storages = [Storage::Home; MAX_OPERANDS as usize];
    storages[0] = first;
    storages[1] = second;
    storages
}

/// The words 1, 2 and so on.
static NUMBERS: [u8; 32] = [
    1, 0, 0, 0, 2, 0, 0, 0, 3, 0, 0, 0, 4, 0, 0, 0, 5, 0, 0, 0, 6, 0, 0, 0, 7, 0, 0, 0, 8, 0, 0, 0,
];

/// What their sums come to: each word is 9.
static NINES: [u8; 32] = [
    9, 0, 0, 0, 9, 0, 0, 0, 9, 0, 0, 0, 9, 0, 0, 0, 9, 0, 0, 0, 9, 0, 0, 0, 9, 0, 0, 0, 9, 0, 0, 0,
];

/// Buffers with the words 1, 2 and so on for the first object, and others for the second.
fn numbered(rt: &impl Abort, unit: &mut Unit) {
    assert!(rt; unit.set(0, 1) && unit.set(1, 0));
    for k in 0..8 {
        assert!(rt; unit.put(0, 1, 4 * k, k + 1));
        assert!(rt; unit.put(1, 0, 4 * k, 0xFFFF_FFFF));
    }
}

#[test]
fn quanta_of_one_and_of_a_hundred_give_the_same(rt: HostRuntime) -> Result<(), Fail> {
    let program = sums(rt.alloc())?;
    let task = task(operand(X, 32, Mode::Input), operand(Y, 32, Mode::Output), 8);
    let storages = storages(buffer(1), buffer(0));
    let mut scratch = [0; 0x10000];
    scratch[0xFFFC] = 9;
    let mut registers = [0; 32];
    registers[1] = END_PC;
    registers[2] = SCRATCH_END;
    registers[5] = 9;
    registers[10] = X + 32;
    registers[11] = Y + 32;
    for (quantum, stretches) in [(1, 65), (100, 1)] {
        let mut unit = Unit::open(rt.alloc(), program.as_slice(), 32)?;
        numbered(&rt, &mut unit);
        assert!(rt; unit.start(&task, &storages));
        assert!(rt; unit.buffer_is(1, 0, &[0; 32]));
        assert_eq!(rt; unit.run(quantum), Some(stretches));
        assert!(rt; unit.buffer_is(0, 1, &NUMBERS));
        assert!(rt; unit.buffer_is(1, 0, &NINES));
        assert!(rt; unit.home_is(X, &[0; 0x1000]));
        assert!(rt; unit.scratch_is(&scratch));
        assert_eq!(rt; unit.at(), Some((END_PC, 65)));
        for r in 0..32 {
            assert_eq!(rt; unit.register(r), Some(registers[r as usize]));
        }
    }
    Ok(())
}

#[test]
fn objects_lie_at_home_or_in_buffers(rt: HostRuntime) -> Result<(), Fail> {
    let program = sums(rt.alloc())?;
    let task = task(operand(X, 32, Mode::Input), operand(Y, 32, Mode::Output), 8);
    for (first, second, home, kept) in [
        (Storage::Home, buffer(0), [0xEE; 32], NINES),
        (buffer(1), Storage::Home, NINES, [0xFF; 32]),
        (Storage::Home, Storage::Home, NINES, [0xFF; 32]),
    ] {
        let mut unit = Unit::open(rt.alloc(), program.as_slice(), 32)?;
        numbered(&rt, &mut unit);
        for k in 0..8 {
            let word = if first == Storage::Home { k + 1 } else { 77 };
            assert!(rt; unit.put_home(X + 4 * u32::from(k), word));
        }
        for k in 0..32 {
            assert!(rt; unit.put_home(Y + k, 0xEE));
        }
        assert!(rt; unit.start(&task, &storages(first, second)));
        assert_eq!(rt; unit.run(7), Some(10));
        assert_eq!(rt;
            unit.finish(),
            Some(Finished {
                task: 3,
                trap: None
            })
        );
        assert!(rt; unit.home_is(Y, &home));
        assert!(rt; unit.buffer_is(1, 0, &kept));
    }
    Ok(())
}

/// The word after the text of a task that does one instruction.
const WORD: u32 = TEXT + 12;

#[test]
fn constants_are_read_and_not_written(rt: HostRuntime) -> Result<(), Fail> {
    for (i, base, argument, first, trap) in [
        (load(5, 12, 0), X, WORD, 1, None),
        (load(5, 10, 0), WORD, 0, 1, None),
        (store(5, 12, 0), X, WORD, 0xEE, Some((STORE_DENIED, WORD))),
        (store(5, 10, 0), X, 0, 0xEE, Some((STORE_DENIED, X))),
        (load(5, 12, 0), X, Y + 4, 0xEE, Some((LOAD_DENIED, Y + 4))),
    ] {
        let program = does(rt.alloc(), i)?;
        let mut unit = Unit::open(rt.alloc(), program.as_slice(), 32)?;
        let task = task(
            operand(base, 4, Mode::Input),
            operand(Y, 4, Mode::Inout),
            argument,
        );
        assert!(rt; unit.put_home(Y, 0xEE));
        assert!(rt; unit.start(&task, &storages(Storage::Home, Storage::Home)));
        assert!(rt; unit.run(100).is_some());
        let trap = trap.map(|(cause, value)| Trap {
            cause,
            pc: TEXT,
            value,
        });
        assert_eq!(rt; unit.finish(), Some(Finished { task: 3, trap }));
        assert!(rt; unit.home_is(Y, &[first]));
    }
    Ok(())
}

#[test]
fn the_greatest_object_is_zeroed_and_written(rt: HostRuntime) -> Result<(), Fail> {
    let last = X + 0xFFFC;
    let program = does(rt.alloc(), store(12, 12, 0))?;
    let mut unit = Unit::open(rt.alloc(), program.as_slice(), 0x10000)?;
    assert!(rt; unit.set(0, 1));
    assert!(rt; unit.put(0, 1, 0, 0xFFFF_FFFF));
    assert!(rt; unit.put(0, 1, 0xFFF8, 0xFFFF_FFFF));
    let task = task(
        operand(X, 0x10000, Mode::Output),
        operand(X + 0x10000, 4, Mode::Output),
        last,
    );
    assert!(rt; unit.start(&task, &storages(buffer(1), Storage::Home)));
    assert_eq!(rt; unit.run(100), Some(1));
    let mut bytes = [0; 0x10000];
    bytes[0xFFFC] = 0xFC;
    bytes[0xFFFD] = 0xFF;
    bytes[0xFFFE] = 0x02;
    assert!(rt; unit.buffer_is(0, 1, &bytes));
    Ok(())
}

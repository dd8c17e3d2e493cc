// What no clause says: that memory is found. And words of the manual's table, the bytes of an image worked out apart, and
// each fault where it begins.
use std::alloc::Global;
use std::fmt::Debug;
use std::process::Abort;
use std::test::Fail;
use tss_asm::{AsmFault, Label, Program};
use tss_base::NoMemory;
use tss_elf::read_image;
use tss_isa::{ImmOp, Instr, Test};

/// Checks that two values are equal. A call has fewer steps than `assert_eq!`, so a test of many is proved sooner.
fn check_eq<T: PartialEq + Debug + Copy>(rt: &impl Abort, left: T, right: T) {
    assert_eq!(rt; left, right);
}

const TEXT: u32 = 0x10000;

const DATA: u32 = 0x20000;

/// Two headers: three words of code that exit with 7, and a page of zeros that can be written.
const EXIT: &str =
    "7f454c460101010000000000000000000200f30001000000000001003400000000000000000000003400200002000000\
    00000000010000007400000000000100000001000c0000000c0000000500000004000000010000000000000000000200\
    0000020000000000001000000600000004000000130570009308100073000000";

/// An instruction that does nothing.
const NOP: Instr = Instr::OpImm {
    op: ImmOp::Addi,
    rd: 0,
    rs1: 0,
    imm: 0,
};

fn li(rd: u8, imm: i32) -> Instr {
    Instr::OpImm {
        op: ImmOp::Addi,
        rd,
        rs1: 0,
        imm,
    }
}

/// A program that has begun, and the label of its start.
fn begun(alloc: Global, text_at: u32) -> Result<(Program, Label), NoMemory> {
    let mut program = Program::open(alloc, text_at, DATA);
    let start = program.label()?;
    program.place(start)?;
    Ok((program, start))
}

/// Puts so many instructions that do nothing.
fn put_nops(program: &mut Program, count: u32) -> Result<(), NoMemory> {
    for _ in 0..count {
        program.instr(NOP)?;
    }
    Ok(())
}

/// Checks that the program is an image, and what the words of its text are.
fn expect_text(
    rt: &impl Abort,
    alloc: Global,
    program: Program,
    entry: Label,
    words: &[u32],
) -> Result<(), Fail> {
    let mut bytes: Vec<u8> = Vec::new(alloc);
    for word in words {
        bytes.extend_from_slice(&word.to_le_bytes())?;
    }
    let finished = program.finish(entry)?;
    let image = read_image(alloc, &finished)?;
    assert!(rt; image.count() == 1);
    assert!(rt; image.segment(0).bytes() == bytes.as_slice());
    Ok(())
}

/// Checks which fault a program has.
fn expect_fault(
    rt: &impl Abort,
    program: Program,
    entry: Label,
    fault: AsmFault,
) -> Result<(), Fail> {
    check_eq(rt, program.finish(entry).err(), Some(fault));
    Ok(())
}

#[test]
fn exit_seven_has_its_bytes(rt: HostRuntime) -> Result<(), Fail> {
    let alloc = rt.alloc();
    let (mut program, start) = begun(alloc, TEXT)?;
    program.instr(li(10, 7))?;
    program.instr(li(17, 1))?;
    program.instr(Instr::Ecall)?;
    program.zeros(4096);
    let image = program.finish(start)?;
    let expected = hex::decode(alloc, EXIT)?;
    assert!(rt; image.as_slice() == expected.as_slice());
    Ok(())
}

#[test]
fn labels_are_found_before_and_after(rt: HostRuntime) -> Result<(), Fail> {
    let alloc = rt.alloc();
    let (mut program, start) = begun(alloc, TEXT)?;
    let end = program.label()?;
    program.jump(0, end)?;
    program.instr(NOP)?;
    program.branch(Test::Bne, 5, 6, start)?;
    program.place(end)?;
    program.branch(Test::Beq, 0, 0, end)?;
    program.jump(1, start)?;
    program.address(5, end)?;
    program.word(0xDEAD_BEEF)?;
    program.label_word(end)?;
    let words = [
        0x00C0_006F,
        0x0000_0013,
        0xFE62_9CE3,
        0x0000_0063,
        0xFF1F_F0EF,
        0x0001_02B7,
        0x00C2_8293,
        0xDEAD_BEEF,
        0x0001_000C,
    ];
    expect_text(&rt, alloc, program, start, &words)
}

#[test]
fn addresses_carry(rt: HostRuntime) -> Result<(), Fail> {
    let alloc = rt.alloc();
    let (mut program, start) = begun(alloc, 0x10FFC)?;
    program.address(5, start)?;
    expect_text(&rt, alloc, program, start, &[0x0001_12B7, 0xFFC2_8293])?;
    let (mut program, start) = begun(alloc, 0x107FC)?;
    program.address(5, start)?;
    expect_text(&rt, alloc, program, start, &[0x0001_02B7, 0x7FC2_8293])
}

#[test]
fn numbers_are_loaded(rt: HostRuntime) -> Result<(), Fail> {
    let alloc = rt.alloc();
    let (mut program, start) = begun(alloc, TEXT)?;
    program.load(13, 0x3F21_6948)?;
    program.load(5, 0xFFFF_FFF0)?;
    let words = [0x3F21_76B7, 0x9486_8693, 0x0000_02B7, 0xFF02_8293];
    expect_text(&rt, alloc, program, start, &words)
}

#[test]
fn a_second_place_replaces_the_first(rt: HostRuntime) -> Result<(), Fail> {
    let alloc = rt.alloc();
    let (mut program, start) = begun(alloc, TEXT)?;
    let label = program.label()?;
    program.place(label)?;
    program.label_word(label)?;
    program.place(label)?;
    expect_text(&rt, alloc, program, start, &[0x0001_0004])
}

#[test]
fn data_is_loaded_with_its_zeros(rt: HostRuntime) -> Result<(), Fail> {
    let alloc = rt.alloc();
    let mut program = Program::open(alloc, TEXT, 0x8000);
    let start = program.label()?;
    program.place(start)?;
    program.instr(NOP)?;
    program.data_word(0x0403_0201)?;
    program.zeros(3);
    let finished = program.finish(start)?;
    let image = read_image(alloc, &finished)?;
    assert!(rt; image.count() == 2);
    let data = image.segment(0);
    check_eq(&rt, data.base(), 0x8000);
    assert!(rt; data.writable());
    assert!(rt; data.bytes() == [1, 2, 3, 4, 0, 0, 0].as_slice());
    Ok(())
}

#[test]
fn used_labels_are_placed(rt: HostRuntime) -> Result<(), Fail> {
    let alloc = rt.alloc();
    let mut program = Program::open(alloc, TEXT, DATA);
    let entry = program.label()?;
    program.instr(NOP)?;
    expect_fault(&rt, program, entry, AsmFault::UnknownLabel)?;
    let (mut program, start) = begun(alloc, TEXT)?;
    let label = program.label()?;
    program.label_word(label)?;
    expect_fault(&rt, program, start, AsmFault::UnknownLabel)
}

#[test]
fn branches_reach_so_far(rt: HostRuntime) -> Result<(), Fail> {
    let alloc = rt.alloc();
    for (between, reaches) in [(1022u32, true), (1023, false), (1025, false)] {
        let (mut program, start) = begun(alloc, TEXT)?;
        let end = program.label()?;
        program.branch(Test::Beq, 0, 0, end)?;
        put_nops(&mut program, between)?;
        program.place(end)?;
        program.instr(NOP)?;
        if reaches {
            program.finish(start)?;
        } else {
            expect_fault(&rt, program, start, AsmFault::FarTarget)?;
        }
    }
    for (before, reaches) in [(1024u32, true), (1025, false)] {
        let (mut program, start) = begun(alloc, TEXT)?;
        put_nops(&mut program, before)?;
        program.branch(Test::Beq, 0, 0, start)?;
        if reaches {
            program.finish(start)?;
        } else {
            expect_fault(&rt, program, start, AsmFault::FarTarget)?;
        }
    }
    Ok(())
}

#[test]
fn fields_fit(rt: HostRuntime) -> Result<(), Fail> {
    let alloc = rt.alloc();
    let (mut program, start) = begun(alloc, TEXT)?;
    program.instr(Instr::Lui { rd: 5, imm: 1 })?;
    expect_fault(&rt, program, start, AsmFault::BadImmediate)?;
    let (mut program, start) = begun(alloc, TEXT)?;
    program.jump(32, start)?;
    expect_fault(&rt, program, start, AsmFault::BadImmediate)
}

#[test]
fn segments_lie_apart(rt: HostRuntime) -> Result<(), Fail> {
    let alloc = rt.alloc();
    let mut program = Program::open(alloc, DATA, DATA);
    let start = program.label()?;
    program.place(start)?;
    program.instr(NOP)?;
    program.data_word(0)?;
    expect_fault(&rt, program, start, AsmFault::BadLayout)
}

#[test]
fn the_entry_is_a_word_of_the_text(rt: HostRuntime) -> Result<(), Fail> {
    let alloc = rt.alloc();
    let (program, start) = begun(alloc, TEXT)?;
    expect_fault(&rt, program, start, AsmFault::BadLayout)?;
    let (mut program, _start) = begun(alloc, TEXT)?;
    program.instr(NOP)?;
    let end = program.label()?;
    program.place(end)?;
    expect_fault(&rt, program, end, AsmFault::BadLayout)
}

#[test]
fn the_first_fault_is_answered(rt: HostRuntime) -> Result<(), Fail> {
    let alloc = rt.alloc();
    let (mut program, start) = begun(alloc, 2)?;
    let end = program.label()?;
    program.instr(Instr::Lui { rd: 5, imm: 1 })?;
    program.branch(Test::Beq, 0, 0, end)?;
    put_nops(&mut program, 2000)?;
    program.place(end)?;
    expect_fault(&rt, program, start, AsmFault::FarTarget)?;
    let (mut program, start) = begun(alloc, 2)?;
    program.instr(Instr::Lui { rd: 5, imm: 1 })?;
    expect_fault(&rt, program, start, AsmFault::BadImmediate)?;
    let (mut program, start) = begun(alloc, 2)?;
    program.instr(NOP)?;
    expect_fault(&rt, program, start, AsmFault::BadLayout)
}

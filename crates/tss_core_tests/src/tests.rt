// Steps whose results are known from the rules, over plain views.
ghost use Rattle.std.specs.Prelude.{◌≡◌, vec_len, IfOk};

mod blocks;
mod plain_main;
mod plain_task;

use crate::tests::plain_main::PlainMain;
use crate::tests::plain_task::PlainTask;
use std::alloc::{AllocError, Global};
use std::fmt::Debug;
use std::process::Abort;
use std::test::Fail;
use tss_base::{Mode, Operand, Range, Task, Trap};
use tss_core::{Outcome, Regs, step};

/// Checks that two values are equal. A call has fewer steps than `assert_eq!`, so a test of many is proved sooner.
fn check_eq<T: PartialEq + Debug + Copy>(rt: &impl Abort, left: T, right: T) {
    assert_eq!(rt; left, right);
}

/// The address of the word that is executed.
const PC: u32 = 0x10000;

/// 256 bytes from address 0 on, of which the first four are 80 FF 7F 01, an object that main has named at 64, and code
/// of one word.
fn view(alloc: Global, writable: bool, word: u32) -> Result<PlainMain, AllocError> {
    let mut bytes = vec![in alloc; 0x80, 0xFF, 0x7F, 0x01]?;
    bytes.resize(256, 0)?;
    Ok(PlainMain {
        bytes,
        writable,
        named: vec![in alloc; Range { base: 64, len: 4 }]?,
        text: PC,
        code: vec![in alloc; word]?,
    })
}

/// Main's registers before the step.
fn registers(x5: u32, x7: u32) -> Regs
    ensures { result.done ≡ 0 }
{
    let mut regs = Regs::main(PC);
    regs.set(5, x5);
    regs.set(7, x7);
    regs
}

/// The word, x5 and x7 before it, the register that is looked at after it with its value, and the pc after it.
fn executed() -> [(u32, u32, u32, u8, u32, u32); 26] {
    [
        // bne x0, x0, 2 isn't taken, so its target doesn't matter
        (0x0000_1163, 0, 0, 6, 0, 0x10004),
        // jalr x1, 1(x5) clears bit 0 of its target
        (0x0012_80E7, 0x10004, 0, 1, 0x10004, 0x10004),
        // jalr x5, 2(x5) reads x5 before it writes it
        (0x0022_82E7, 0x20002, 0, 5, 0x10004, 0x20004),
        // sltiu x6, x5, -1 compares with the greatest number
        (0xFFF2_B313, 5, 0, 6, 1, 0x10004),
        (0xFFF2_B313, 0x8000_0000, 0, 6, 1, 0x10004),
        (0xFFF2_B313, 0xFFFF_FFFF, 0, 6, 0, 0x10004),
        // sra, sll and srl x6, x5, x7 shift by the low five bits of x7
        (0x4072_D333, 0x8000_0000, 31, 6, 0xFFFF_FFFF, 0x10004),
        (0x0072_9333, 3, 33, 6, 6, 0x10004),
        (0x0072_D333, 0x8000_0000, 32, 6, 0x8000_0000, 0x10004),
        // sub, slt and sltu x6, x5, x7
        (0x4072_8333, 3, 5, 6, 0xFFFF_FFFE, 0x10004),
        (0x0072_A333, 0xFFFF_FFFF, 1, 6, 1, 0x10004),
        (0x0072_B333, 0xFFFF_FFFF, 1, 6, 0, 0x10004),
        // lui x6, 0x12345 and auipc x6, 0xfffff
        (0x1234_5337, 0, 0, 6, 0x1234_5000, 0x10004),
        (0xFFFF_F317, 0, 0, 6, 0xF000, 0x10004),
        // addi x0, x5, 1 leaves x0
        (0x0012_8013, 5, 0, 0, 0, 0x10004),
        // jal x1, 8; blt x5, x7, 16 and bge x5, x7, 8 with sign; bgeu x5, x7, -4 on equal
        (0x0080_00EF, 0, 0, 1, 0x10004, 0x10008),
        (0x0072_C863, 0xFFFF_FFFF, 0, 6, 0, 0x10010),
        (0x0072_D463, 0xFFFF_FFFF, 0, 6, 0, 0x10004),
        (0xFE72_FEE3, 7, 7, 6, 0, 0xFFFC),
        // fence
        (0x0FF0_000F, 1, 0, 5, 1, 0x10004),
        // lb, lbu, lh, lhu, lw x6, 0(x5), and lw x0, 0(x5)
        (0x0002_8303, 0, 0, 6, 0xFFFF_FF80, 0x10004),
        (0x0002_C303, 0, 0, 6, 0x80, 0x10004),
        (0x0002_9303, 0, 0, 6, 0xFFFF_FF80, 0x10004),
        (0x0002_D303, 0, 0, 6, 0xFF80, 0x10004),
        (0x0002_A303, 0, 0, 6, 0x017F_FF80, 0x10004),
        (0x0002_A003, 0, 0, 0, 0, 0x10004),
    ]
}

fn trap(cause: u32, value: u32) -> Outcome {
    Outcome::Trapped(Trap {
        pc: PC,
        cause,
        value,
    })
}

/// The word, x5 before it, and what the step answers where nothing can be written.
fn unexecuted() -> [(u32, u32, Outcome); 12] {
    [
        // beq x0, x0, 2; jalr x5, 2(x5)
        (0x0000_0163, 0, trap(0, 0x10002)),
        (0x0022_82E7, 0x10001, trap(0, 0x10002)),
        // no instruction; ebreak; ecall
        (0x0000_0000, 0, trap(2, 0)),
        (0x0010_0073, 0, trap(3, PC)),
        (0x0000_0073, 0, Outcome::Call),
        // lh x6, 0(x5) at odd addresses, also where main may not load; lw x0, 0(x5) beyond the memory, and lw x6
        (0x0002_9303, 1, trap(4, 1)),
        (0x0002_9303, 0xFFFF_FFFF, trap(4, 0xFFFF_FFFF)),
        (0x0002_A003, 256, trap(5, 256)),
        (0x0002_A303, 0xFFFF_FFFC, trap(5, 0xFFFF_FFFC)),
        // lw x6, 0(x5) at the named object
        (0x0002_A303, 64, Outcome::Touched),
        // sw x7, 0(x5) at an address that isn't a multiple of 4, in memory that can't be written
        (0x0072_A023, 2, trap(6, 2)),
        (0x0072_A023, 4, trap(7, 4)),
    ]
}

/// sb, sh and sw x7, 0(x5) with x5 before them, and the first eight bytes after them.
fn stored() -> [(u32, u32, [u8; 8]); 3] {
    [
        (0x0072_8023, 1, [0x80, 0xEF, 0x7F, 0x01, 0, 0, 0, 0]),
        (0x0072_9023, 2, [0x80, 0xFF, 0xEF, 0xCD, 0, 0, 0, 0]),
        (
            0x0072_A023,
            4,
            [0x80, 0xFF, 0x7F, 0x01, 0xEF, 0xCD, 0xAB, 0x89],
        ),
    ]
}

#[test]
fn results_of_executed_words(rt: HostRuntime) -> Result<(), Fail> {
    for (word, x5, x7, register, value, pc) in executed() {
        let mut view = view(rt.alloc(), true, word)?;
        let mut regs = registers(x5, x7);
        let outcome = step(&mut regs, &mut view);
        assert_eq!(rt; outcome, Outcome::Next, "at {word}");
        assert_eq!(rt; regs.pc(), pc, "at {word}");
        check_eq(&rt, regs.done(), 1);
        assert!(rt; register < 32);
        assert_eq!(rt; regs.get(register), value, "at {word}");
    }
    Ok(())
}

/// A product or a quotient of x5 and x7 into x6: its word, x5, x7, and x6 after it.
fn multiplied() -> [(u32, u32, u32, u32); 20] {
    [
        // mul, mulh, mulhsu, mulhu, div, divu, rem, remu of the least number and -1
        (0x0272_8333, 0x8000_0000, 0xFFFF_FFFF, 0x8000_0000),
        (0x0272_9333, 0x8000_0000, 0xFFFF_FFFF, 0x0000_0000),
        (0x0272_A333, 0x8000_0000, 0xFFFF_FFFF, 0x8000_0000),
        (0x0272_B333, 0x8000_0000, 0xFFFF_FFFF, 0x7FFF_FFFF),
        (0x0272_C333, 0x8000_0000, 0xFFFF_FFFF, 0x8000_0000),
        (0x0272_D333, 0x8000_0000, 0xFFFF_FFFF, 0x0000_0000),
        (0x0272_E333, 0x8000_0000, 0xFFFF_FFFF, 0x0000_0000),
        (0x0272_F333, 0x8000_0000, 0xFFFF_FFFF, 0x8000_0000),
        // the same of -1 and -1, where the products differ
        (0x0272_8333, 0xFFFF_FFFF, 0xFFFF_FFFF, 0x0000_0001),
        (0x0272_9333, 0xFFFF_FFFF, 0xFFFF_FFFF, 0x0000_0000),
        (0x0272_A333, 0xFFFF_FFFF, 0xFFFF_FFFF, 0xFFFF_FFFF),
        (0x0272_B333, 0xFFFF_FFFF, 0xFFFF_FFFF, 0xFFFF_FFFE),
        // div and rem of -7 by 2 round towards zero; rem of 7 by -2
        (0x0272_C333, 0xFFFF_FFF9, 2, 0xFFFF_FFFD),
        (0x0272_E333, 0xFFFF_FFF9, 2, 0xFFFF_FFFF),
        (0x0272_E333, 7, 0xFFFF_FFFE, 0x0000_0001),
        // div, divu, rem, remu by zero
        (0x0272_C333, 0xFFFF_FFF9, 0, 0xFFFF_FFFF),
        (0x0272_D333, 0xFFFF_FFF9, 0, 0xFFFF_FFFF),
        (0x0272_E333, 0xFFFF_FFF9, 0, 0xFFFF_FFF9),
        (0x0272_F333, 0xFFFF_FFF9, 0, 0xFFFF_FFF9),
        // divu of 7 by 2
        (0x0272_D333, 7, 2, 0x0000_0003),
    ]
}

#[test]
fn products_and_quotients_are_those_of_the_manual(rt: HostRuntime) -> Result<(), Fail> {
    for (word, x5, x7, value) in multiplied() {
        let mut view = view(rt.alloc(), true, word)?;
        let mut regs = registers(x5, x7);
        assert_eq!(rt; step(&mut regs, &mut view), Outcome::Next, "at {word}");
        assert_eq!(rt; regs.get(6), value, "at {word} of {x5} and {x7}");
        check_eq(&rt, regs.pc(), PC + 4);
    }
    Ok(())
}

#[test]
fn words_that_are_not_executed_change_nothing(rt: HostRuntime) -> Result<(), Fail> {
    for (word, x5, want) in unexecuted() {
        let mut view = view(rt.alloc(), false, word)?;
        let mut regs = registers(x5, 9);
        assert_eq!(rt; step(&mut regs, &mut view), want, "at {word}");
        check_eq(&rt, regs.pc(), PC);
        check_eq(&rt, regs.done(), 0);
        check_eq(&rt, regs.get(5), x5);
    }
    let mut view = view(rt.alloc(), true, 0)?;
    let mut ended = Regs::main(0xFFFF_FFF0);
    check_eq(&rt, step(&mut ended, &mut view), Outcome::Ended);
    let mut outside = Regs::main(PC + 4);
    let want = Trap {
        pc: PC + 4,
        cause: 1,
        value: PC + 4,
    };
    check_eq(&rt, step(&mut outside, &mut view), Outcome::Trapped(want));
    Ok(())
}

#[test]
fn stores_write_their_bytes_alone(rt: HostRuntime) -> Result<(), Fail> {
    for (word, x5, want) in stored() {
        let mut view = view(rt.alloc(), true, word)?;
        let mut regs = registers(x5, 0x89AB_CDEF);
        check_eq(&rt, step(&mut regs, &mut view), Outcome::Next);
        check_eq(&rt, view.bytes.as_slice().get(..8), Some(want.as_slice()));
    }
    Ok(())
}

/// So many zeros.
fn zeros(alloc: Global, n: usize) -> Result<Vec<u8>, AllocError>
    ensures { IfOk result (λ v. vec_len v ≡ n) }
{
    vec![in alloc; 0; n]
}

/// A task's view of 256 bytes that main can write, with the word that is executed, an input at 16 and an output at 32.
fn task_view(alloc: Global, word: u32) -> Result<PlainTask, AllocError> {
    let bytes = zeros(alloc, 256)?;
    let scratch = zeros(alloc, 0x10000)?;
    let input = Operand {
        object: Range { base: 16, len: 8 },
        mode: Mode::Input,
    };
    let output = Operand {
        object: Range { base: 32, len: 8 },
        mode: Mode::Output,
    };
    Ok(PlainTask {
        bytes,
        writable: true,
        scratch,
        operands: vec![in alloc; input, output]?,
        text: PC,
        code: vec![in alloc; word]?,
    })
}

/// lw x6, 0(x5) and sw x7, 0(x5) with x5 before them, and the cause of the trap, or none.
fn accesses() -> [(u32, u32, Option<u32>); 10] {
    [
        (0x0002_A303, 16, None),
        (0x0002_A303, 36, None),
        (0x0002_A303, 40, Some(5)),
        (0x0002_A303, 0xFFFD_0000, None),
        (0x0002_A303, 0xFFFC_FFFC, Some(5)),
        (0x0072_A023, 16, Some(7)),
        (0x0072_A023, 36, None),
        (0x0072_A023, 64, Some(7)),
        (0x0072_A023, 0xFFFD_FFFC, None),
        (0x0072_A023, 0xFFFE_0000, Some(7)),
    ]
}

#[test]
fn a_task_uses_its_operands_and_its_scratch_alone(rt: HostRuntime) -> Result<(), Fail> {
    for (word, x5, cause) in accesses() {
        let mut view = task_view(rt.alloc(), word)?;
        let mut regs = registers(x5, 9);
        let want = match cause {
            Some(cause) => trap(cause, x5),
            None => Outcome::Next,
        };
        assert_eq!(rt; step(&mut regs, &mut view), want, "at {x5}");
    }
    Ok(())
}

#[test]
fn a_task_begins_with_its_bases_and_its_argument(rt: HostRuntime) {
    let unused = Operand {
        object: Range { base: 0, len: 0 },
        mode: Mode::Input,
    };
    let mut regs = Regs::task(&Task {
        number: 1,
        entry: 0x10040,
        argument: 0x61,
        listed: 2,
        bases: [0x20000, 0x20040, 0, 0, 0, 0, 0],
        count: 2,
        operands: [unused; 7],
    });
    check_eq(&rt, regs.pc(), 0x10040);
    let values = [
        (1, 0xFFFF_FFF0),
        (2, 0xFFFE_0000),
        (9, 0),
        (10, 0x20000),
        (11, 0x20040),
        (12, 0x61),
        (13, 0),
    ];
    for (register, value) in values {
        assert!(rt; register < 32);
        assert_eq!(rt; regs.get(register), value, "at {register}");
    }
    assert!(rt; regs.done() == 0);
    regs.called();
    check_eq(&rt, regs.pc(), 0x10044);
    check_eq(&rt, regs.done(), 1);
}

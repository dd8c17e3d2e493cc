// The numbers of calls, causes and refusals, by programs whose words are written out: no constant of the code is used.
use super::{IN_ORDER, expect, files_with};
use std::alloc::Global;
use std::process::Abort;
use std::test::Fail;
use tss_base::Key;

/// An image's file header and one program header, for code of 16 bytes at 0x10000.
const HEADERS: &str =
    "7f454c460101010000000000000000000200f30001000000000001003400000000000000000000003400200001000000000000000100000054000000000001000000010010000000100000000500000004000000";

/// The image of these words, at most 252 bytes of them.
fn image_of(alloc: Global, code: &str) -> Result<Vec<u8>, Fail> {
    let code = hex::decode(alloc, code)?;
    let mut image = hex::decode(alloc, HEADERS)?;
    for at in [68, 72] {
        if let Some(len) = image.get_mut(at) {
            *len = (code.len() % 256) as u8;
        }
    }
    image.extend_from_slice(code.as_slice())?;
    Ok(image)
}

/// Checks how a program without tasks ends, under the small machine with some changes.
fn expect_end(
    rt: &impl Abort,
    alloc: Global,
    code: &str,
    changes: &[(Key, &str)],
    status: u8,
    end: &str,
) -> Result<(), Fail> {
    let image = image_of(alloc, code)?;
    let mut files = files_with(alloc, image.as_slice(), changes, b"")?;
    let text = format!(in alloc; "end {end}\ntasks 0\noutput 0\n\n")?;
    expect(rt, alloc, &mut files, IN_ORDER, status, text.as_bytes())
}

#[test]
fn causes_of_traps_have_their_numbers(rt: HostRuntime) -> Result<(), Fail> {
    for (code, end) in [
        // jal x0, 2
        ("6f002000", "main-trap 00010000 0 00010002"),
        // jalr x0, 0(x0)
        ("67000000", "main-trap 00000000 1 00000000"),
        // no instruction
        ("00000000", "main-trap 00010000 2 00000000"),
        // ebreak
        ("73001000", "main-trap 00010000 3 00010000"),
        // lw x1, 2(x0)
        ("83202000", "main-trap 00010000 4 00000002"),
        // lw x1, 0(x0)
        ("83200000", "main-trap 00010000 5 00000000"),
        // sw x0, 2(x0)
        ("23210000", "main-trap 00010000 6 00000002"),
        // sw x0, 0(x0)
        ("23200000", "main-trap 00010000 7 00000000"),
        // addi x17, x0, 6; ecall
        ("9308600073000000", "main-trap 00010004 10 00000006"),
    ] {
        expect_end(&rt, rt.alloc(), code, &[], 1, end)?;
    }
    Ok(())
}

#[test]
fn calls_have_their_numbers(rt: HostRuntime) -> Result<(), Fail> {
    let alloc = rt.alloc();
    // addi x10, x0, 7; addi x17, x0, 1; ecall: an exit
    let exit = "130570009308100073000000";
    expect_end(&rt, alloc, exit, &[], 0, "exit 7")?;
    // addi x17, x0, 3; ecall, and then the same: a barrier
    let barrier = "9308300073000000130570009308100073000000";
    expect_end(&rt, alloc, barrier, &[], 0, "exit 7")?;
    // addi x17, x0, 5; ecall: an object that isn't named is awaited
    let awaits = "9308500073000000";
    expect_end(&rt, alloc, awaits, &[], 2, "refused 13 00010004")?;
    // lui x10, 0x10; addi x11, x0, 4; addi x17, x0, 4; ecall: four bytes are printed where there may be three
    let prints = "37050100930540009308400073000000";
    let three = [(Key::OutputBytes, "3")];
    expect_end(&rt, alloc, prints, &three, 2, "refused 12 0001000c")?;
    // addi x12, x0, 8; addi x17, x0, 2; ecall: a spawn with eight operands
    let spawns = "130680009308200073000000";
    expect_end(&rt, alloc, spawns, &[], 2, "refused 1 00010008")
}

/// Main spawns a task with so many operands, whose list is what follows: lui x11, 0x10; addi x11, x11, 0x14;
/// addi x12, x0, COUNT; addi x17, x0, 2; ecall.
const ONE_OPERAND: &str = "b705010093854501130610009308200073000000";

const TWO_OPERANDS: &str = "b705010093854501130620009308200073000000";

#[test]
fn refusals_have_their_numbers(rt: HostRuntime) -> Result<(), Fail> {
    let alloc = rt.alloc();
    // addi x11, x0, 2; addi x12, x0, 1; addi x17, x0, 2; ecall: a list at no multiple of 4
    let odd = "93052000130610009308200073000000";
    expect_end(&rt, alloc, odd, &[], 2, "refused 2 0001000c")?;
    for (spawn, list, changes, number) in [
        // The mode is 0, the length is 0, the base is odd, and the object lies in no segment.
        (ONE_OPERAND, "000001000400000000000000", [].as_slice(), 4),
        (ONE_OPERAND, "000001000000000001000000", &[], 5),
        (ONE_OPERAND, "020001000400000001000000", &[], 6),
        (ONE_OPERAND, "000002000400000001000000", &[], 7),
        // Two objects overlap in part, and two are named where there may be one.
        (
            TWO_OPERANDS,
            "000001000800000001000000040001000800000001000000",
            &[],
            8,
        ),
        (
            TWO_OPERANDS,
            "000001000400000001000000040001000400000001000000",
            &[(Key::EpochObjects, "1")],
            9,
        ),
    ] {
        let mut code = String::from_str(alloc, spawn)?;
        code.push_str(list)?;
        let end = format!(in alloc; "refused {number} 00010010")?;
        expect_end(&rt, alloc, code.as_str(), changes, 2, end.as_str())?;
    }
    // The second step of main, which may make one.
    let one = [(Key::MainBudget, "1")];
    let exit = "130570009308100073000000";
    expect_end(&rt, alloc, exit, &one, 2, "refused 11 00010004")
}

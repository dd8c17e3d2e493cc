// What no clause says: that memory is found for what a run keeps.
ghost use Rattle.std.specs.Prelude.{◌≡◌};

use std::fmt::Debug;
use std::process::Abort;
use std::test::Fail;
use tss_base::addresses::{SCRATCH, STACK_END};
use tss_base::{Limits, Range};
use tss_core::Regs;
use tss_steps::{Main, Printed, Scratch};

/// Checks that two values are equal. A call has fewer steps than `assert_eq!`, so a test of many is proved sooner.
fn check_eq<T: PartialEq + Debug + Copy>(rt: &impl Abort, left: T, right: T) {
    assert_eq!(rt; left, right);
}

const LIMITS: Limits = Limits {
    main_budget: 1000,
    task_budget: 100,
    max_tasks: 16,
    max_operands: 7,
    object_bytes: 128,
    epoch_objects: 16,
    output_bytes: 64,
};

/// Main stands at its entry, with nothing spawned, named or printed.
#[test]
fn main_before_its_first_instruction(rt: HostRuntime) -> Result<(), Fail> {
    let main = Main::open(rt.alloc(), 0x10000, &LIMITS)?;
    check_eq(&rt, main.regs().pc(), 0x10000);
    check_eq(&rt, main.regs().get(2), STACK_END);
    check_eq(&rt, main.spawned(), 0);
    check_eq(&rt, main.epoch_at(0), None);
    check_eq(&rt, main.ending(), None);
    assert!(rt; main.output().is_empty());
    Ok(())
}

/// Main goes on after a barrier with what it is told of before.
#[test]
fn main_is_restarted_after_a_barrier(rt: HostRuntime) -> Result<(), Fail> {
    let mut main = Main::open(rt.alloc(), 0x10000, &LIMITS)?;
    let regs = Regs::main(0x20000);
    main.restart(&regs, 3, b"ab");
    check_eq(&rt, main.regs().pc(), 0x20004);
    check_eq(&rt, main.regs().done(), 1);
    check_eq(&rt, main.spawned(), 3);
    check_eq(&rt, main.output(), b"ab".as_slice());
    main.restart(&regs, 0, b"");
    check_eq(&rt, main.spawned(), 0);
    assert!(rt; main.output().is_empty());
    Ok(())
}

/// The bytes of pieces stand one after the other.
#[test]
fn pieces_are_joined(rt: HostRuntime) -> Result<(), Fail> {
    let mut printed = Printed::open(rt.alloc(), 8)?;
    printed.push(0, b"ab");
    printed.push(0, b"c");
    check_eq(&rt, printed.bytes(), b"abc".as_slice());
    Ok(())
}

/// A scratch is zeros, keeps what is put, and is zeros again.
#[test]
fn a_scratch_is_zeros_at_first(rt: HostRuntime) -> Result<(), Fail> {
    let mut scratch = Scratch::open(rt.alloc())?;
    let last = Range {
        base: SCRATCH.base + 0xFFFC,
        len: 4,
    };
    check_eq(&rt, scratch.number(&last), 0);
    scratch.put(&last, 0x0102_0304);
    check_eq(&rt, scratch.number(&last), 0x0102_0304);
    scratch.clear();
    check_eq(&rt, scratch.number(&last), 0);
    Ok(())
}

// The inbox of an idle gateway.
ghost use Rattle.std.specs.Prelude.{◌≡◌};

use crate::Gateway;
use std::test::Fail;
use tss_base::{Blocked, Mode, OpName, Operand, Range, Task};

/// A task with one operand.
fn task(number: u32) -> Task
    ensures { result.count ≡ 1 }
{
    let object = Range {
        base: 0x20000,
        len: 4,
    };
    Task {
        number,
        entry: 0x10000,
        argument: 0,
        listed: 1,
        bases: [0x20000; 7],
        count: 1,
        operands: [Operand {
            object,
            mode: Mode::Output,
        }; 7],
    }
}

#[test]
fn inbox_takes_one_task(rt: HostRuntime) -> Result<(), Fail> {
    let mut gateway = Gateway::idle(1);
    assert!(rt; gateway.inbox().is_none());
    assert_eq!(rt; gateway.accept(task(1)), Ok(()));
    assert_eq!(rt; gateway.accept(task(2)), Err(Blocked));
    match gateway.inbox() {
        Some(task) => assert_eq!(rt; task.number, 1),
        None => assert!(rt; false, "no task is in the inbox"),
    }
    assert_eq!(rt; gateway.held_at(0), None);
    assert_eq!(rt; gateway.ack(OpName { task: 1, place: 0 }), Err(Blocked));
    Ok(())
}

// The texts of states in which a task has trapped.
use super::expect;
use std::alloc::Global;
use std::test::Fail;
use tss_asm::AsmFault;
use tss_programs::Code::{H, W};
use tss_programs::{Source, inout};

/// Two tasks: the first traps, and the second writes to an object.
fn first_traps(alloc: Global) -> Result<Vec<u8>, AsmFault> {
    let mut main = Source::open(alloc)?;
    main.spawn(H, &[], 0)?;
    main.spawn(W, &[inout(0x20000, 4)], 0x61)?;
    main.barrier()?;
    main.exit(0)?;
    main.image()
}

/// A log of `first_traps` in which the second task has left before the first traps.
const LOG: &str =
    "main\nmain\ntake\nmain\nmain\ntake\ndecode 2.0\nack 2.0\nopen 2.0\nready 2.0\nstart 0\n\
     start 1\nexec 1\nfinish 1\nrelease 2.0\nbye 2.0\nidle 2.0\nretire 2.0\ngone 2.0\nexec 0\nfinish 0\n";

/// After 20 events: the first task has trapped, and its worker tells so. Main may still go on.
const TRAPPED: &str = "main 00010058 22 2 runs\n\
     regs main 00000000 ffff0000 00000000 00000000 00000000 00000000 00000000 00000000 00000000 0001007c 00010084 00000001 00000061 00000000 00000000 00000000 00000002 00000000 00000000 00000000 00000000 00000000 00000000 00000000 00000000 00000000 00000000 00000000 00000000 00000000 00000000\n\
     epoch 00020000 4\n\
     task 1 running\n\
     worker 0 1 0 00010078 trapped\n\
     regs 0 fffffff0 fffe0000 00000000 00000000 00000000 00000000 00000000 00000000 00000000 00000000 00000000 00000000 00000000 00000000 00000000 00000000 00000000 00000000 00000000 00000000 00000000 00000000 00000000 00000000 00000000 00000000 00000000 00000000 00000000 00000000 00000000\n\
     worker 1 idle\n\
     worker 2 idle\n\
     row 00020000 61000000000000000000000000000000\n\
     enabled 2\n";

/// After all 21 events: the trap is held, and the run is over. What the second task wrote stands in memory.
const HELD: &str = "main 00010058 22 2 runs\n\
     regs main 00000000 ffff0000 00000000 00000000 00000000 00000000 00000000 00000000 00000000 0001007c 00010084 00000001 00000061 00000000 00000000 00000000 00000002 00000000 00000000 00000000 00000000 00000000 00000000 00000000 00000000 00000000 00000000 00000000 00000000 00000000 00000000\n\
     epoch 00020000 4\n\
     worker 0 idle\n\
     worker 1 idle\n\
     worker 2 idle\n\
     trap 1 00010078 3 00010078\n\
     row 00020000 61000000000000000000000000000000\n\
     enabled 0\n";

#[test]
fn a_trap_is_told_by_its_worker_and_then_held(rt: HostRuntime) -> Result<(), Fail> {
    let image = first_traps(rt.alloc())?;
    expect(&rt, rt.alloc(), &image, &[], LOG, 20, TRAPPED)?;
    expect(&rt, rt.alloc(), &image, &[], LOG, 21, HELD)
}

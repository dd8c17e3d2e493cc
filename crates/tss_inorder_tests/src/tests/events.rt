// The flat machine an event of main at a time.
use super::check_eq;
use std::process::Abort;
use std::test::Fail;
use tss_base::Ending;
use tss_elf::read_image;
use tss_inorder::{Did, Flat};
use tss_programs::{M0, hi};

/// Main spawns a task that stores a word, waits, prints it and exits: an event a call, and a stretch before each. The
/// end stays.
#[test]
fn one_task_event_by_event(rt: HostRuntime) -> Result<(), Fail> {
    let image = read_image(rt.alloc(), hi(rt.alloc())?.as_slice())?;
    let mut flat = Flat::open(rt.alloc(), &image, &M0.limits)?;
    check_eq(&rt, flat.next_call(), None);
    check_eq(&rt, flat.stretch(4), Did::Steps);
    check_eq(&rt, flat.main().pc(), 0x10010);
    check_eq(&rt, flat.stretch(100), Did::Steps);
    check_eq(&rt, flat.next_call(), Some(2));
    let spawned = matches!(flat.stretch(100), Did::Spawned(task, 2) if task.number == 1);
    assert!(rt; spawned);
    check_eq(&rt, flat.stretch(100), Did::Steps);
    check_eq(&rt, flat.stretch(100), Did::Barrier);
    check_eq(&rt, flat.stretch(100), Did::Steps);
    check_eq(&rt, flat.stretch(100), Did::Printed);
    check_eq(&rt, flat.output(), b"Hi!?".as_slice());
    check_eq(&rt, flat.stretch(100), Did::Steps);
    check_eq(&rt, flat.stretch(100), Did::Over(Ending::Exit(0)));
    check_eq(&rt, flat.tasks(), 1);
    check_eq(&rt, flat.next_call(), None);
    check_eq(&rt, flat.stretch(100), Did::Over(Ending::Exit(0)));
    Ok(())
}

// Main waits for one object.
use super::{X, check_eq, expect};
use std::process::Abort;
use std::test::Fail;
use tss_base::{Ending, Range};
use tss_elf::read_image;
use tss_inorder::{Did, Flat};
use tss_programs::{M0, await_first, await_third};

/// An object that was awaited is main's own again, and the others stay named.
#[test]
fn an_object_is_awaited_by_its_base(rt: HostRuntime) -> Result<(), Fail> {
    let alloc = rt.alloc();
    let end = Ending::Exit(0);
    expect(
        &rt,
        alloc,
        "its task's object",
        await_first(alloc)?,
        &M0.limits,
        end,
        1,
        b"",
    )?;
    expect(
        &rt,
        alloc,
        "the first of two",
        await_third(alloc)?,
        &M0.limits,
        end,
        2,
        b"",
    )
}

/// An await is an event of its own, which tells the object.
#[test]
fn an_await_tells_its_object(rt: HostRuntime) -> Result<(), Fail> {
    let image = read_image(rt.alloc(), await_first(rt.alloc())?.as_slice())?;
    let mut flat = Flat::open(rt.alloc(), &image, &M0.limits)?;
    check_eq(&rt, flat.stretch(100), Did::Steps);
    let spawned = matches!(flat.stretch(100), Did::Spawned(_, 2));
    assert!(rt; spawned);
    check_eq(&rt, flat.stretch(100), Did::Steps);
    check_eq(&rt, flat.next_call(), Some(5));
    let object = Range { base: X, len: 4 };
    check_eq(&rt, flat.stretch(100), Did::Awaited(object));
    check_eq(&rt, flat.main().pc(), 0x10040);
    check_eq(&rt, flat.stretch(100), Did::Steps);
    check_eq(&rt, flat.main().get(6), 0x61);
    check_eq(&rt, flat.stretch(100), Did::Over(Ending::Exit(0)));
    Ok(())
}

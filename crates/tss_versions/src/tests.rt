// Banks whose calls come as the rows of the machine have them, and one that is filled, emptied and filled anew.
mod bench;
mod checks;

use crate::tests::bench::{Bench, Plan, Told};
use crate::version_view::VersionView;
use std::test::Fail;
use tss_base::{Follow, How, Mode, OpName, Operand, Range, Storage};

/// An operand's name.
fn name(task: u32, place: u32) -> OpName {
    OpName { task, place }
}

/// An operand on the object of four bytes at a base.
fn operand(base: u32, mode: Mode) -> Operand {
    Operand {
        object: Range { base, len: 4 },
        mode,
    }
}

/// The first version of the object at 0x20000, by a task's first operand.
fn first(task: u32, mode: Mode, place: u8) -> Plan {
    Plan {
        o: name(task, 0),
        operand: operand(0x20000, mode),
        place,
        follows: None,
        buffer: 0,
    }
}

/// One that follows an earlier task's version, whose readers are `last`, over it.
fn over(task: u32, before: u32, last: u32, place: u8) -> Plan {
    let follow = Follow {
        version: name(before, 0),
        how: How::Over,
        last,
    };
    Plan {
        follows: Some(follow),
        ..first(task, Mode::Inout, place)
    }
}

/// One beside it, in a buffer.
fn beside(task: u32, before: u32, last: u32, place: u8, buffer: u8) -> Plan {
    let follow = Follow {
        version: name(before, 0),
        how: How::Beside,
        last,
    };
    Plan {
        follows: Some(follow),
        buffer,
        ..first(task, Mode::Output, place)
    }
}

/// An operand is told a version of the object at 0x20000, at home.
fn ready(task: u32, version: u32) -> Told {
    Told::Ready(name(task, 0), name(version, 0), Storage::Home)
}

/// The first operand of a task has left, or will.
fn bye(task: u32, promised: bool) -> Told {
    Told::Bye(name(task, 0), promised)
}

/// A version of the object at 0x20000 asks.
fn idle(task: u32, count: u32) -> Told {
    Told::Idle(name(task, 0), 0x20000, count)
}

/// The buffer of a task's first operand.
fn buffer(place: u32, task: u32) -> Storage {
    Storage::Buffer(place, name(task, 0))
}

/// A version has given way.
fn died(task: u32, place: u32, buffer: Option<Storage>) -> Told {
    Told::Gone(name(task, 0), place, buffer, false)
}

/// A version has retired.
fn retired(task: u32, place: u32, buffer: Option<Storage>) -> Told {
    Told::Gone(name(task, 0), place, buffer, true)
}

#[test]
fn opened_bank_has_no_version(rt: HostRuntime) -> Result<(), Fail> {
    for size in [7, 16, 256] {
        let bench = Bench::open(&rt, rt.alloc(), size);
        let count = bench.count();
        let version = bench.version(name(1, 0));
        bench.close();
        assert_eq!(rt; (count, version), (0, None));
    }
    Ok(())
}

#[test]
fn version_asks_again_after_one_more_reader(rt: HostRuntime) -> Result<(), Fail> {
    let mut bench = Bench::open(&rt, rt.alloc(), 16);
    bench.opens(&rt, rt.alloc(), first(1, Mode::Input, 0), &[ready(1, 1)]);
    bench.releases(
        &rt,
        name(1, 0),
        name(1, 0),
        false,
        &[bye(1, false), idle(1, 1)],
    );
    bench.refuses(&rt, name(1, 0), &[]);
    bench.uses(&rt, name(2, 0), name(1, 0), &[ready(2, 1)]);
    bench.releases(
        &rt,
        name(2, 0),
        name(1, 0),
        false,
        &[bye(2, false), idle(1, 2)],
    );
    bench.retires(&rt, name(1, 0), retired(1, 0, None));
    assert_eq!(rt; bench.count(), 0);
    bench.close();
    Ok(())
}

/// The seven inputs of task 1, each of an object of its own.
fn input(i: u8) -> Plan {
    Plan {
        o: name(1, u32::from(i)),
        operand: operand(0x20000 + 64 * u32::from(i), Mode::Input),
        ..first(1, Mode::Input, i)
    }
}

#[test]
fn full_bank_has_room_once_a_version_retired(rt: HostRuntime) -> Result<(), Fail> {
    let mut bench = Bench::open(&rt, rt.alloc(), 7);
    for i in 0..7u8 {
        let plan = input(i);
        bench.opens(
            &rt,
            rt.alloc(),
            plan,
            &[Told::Ready(plan.o, plan.o, Storage::Home)],
        );
    }
    for i in 0..7u8 {
        let plan = input(i);
        let idle = Told::Idle(plan.o, plan.operand.object.base, 1);
        bench.releases(
            &rt,
            plan.o,
            plan.o,
            false,
            &[Told::Bye(plan.o, false), idle],
        );
    }
    assert_eq!(rt; bench.count(), 7);
    bench.retires(&rt, name(1, 0), retired(1, 0, None));
    let second = Plan {
        o: name(2, 0),
        operand: operand(0x20200, Mode::Output),
        ..first(2, Mode::Output, 0)
    };
    bench.opens(&rt, rt.alloc(), second, &[ready(2, 2)]);
    assert_eq!(rt; bench.count(), 7);
    bench.close();
    Ok(())
}

#[test]
fn readers_are_chained_as_they_register(rt: HostRuntime) -> Result<(), Fail> {
    let mut bench = Bench::open(&rt, rt.alloc(), 16);
    let version = name(1, 0);
    bench.blocks_use(&rt, name(10, 0), version);
    bench.opens(&rt, rt.alloc(), first(1, Mode::Output, 3), &[ready(1, 1)]);
    bench.uses(&rt, name(10, 0), version, &[]);
    for task in (2..10).rev() {
        bench.uses(
            &rt,
            name(task, 0),
            version,
            &[Told::Link(name(task + 1, 0), name(task, 0))],
        );
    }
    let seen = VersionView {
        name: version,
        object: operand(0x20000, Mode::Output).object,
        storage: Some(Storage::Home),
        produced: false,
        registered: 9,
        released: 0,
        head: Some(name(10, 0)),
        tail: Some(name(2, 0)),
        predecessor: None,
        successor: None,
        asked: None,
        refused: None,
    };
    assert_eq!(rt; bench.version(version), Some(seen));
    bench.releases(&rt, version, version, true, &[ready(10, 1), bye(1, false)]);
    bench.releases(&rt, name(2, 0), version, false, &[bye(2, false)]);
    for task in 3..10 {
        bench.releases(&rt, name(task, 0), version, false, &[bye(task, true)]);
    }
    bench.releases(
        &rt,
        name(10, 0),
        version,
        false,
        &[bye(10, true), idle(1, 9)],
    );
    bench.uses(&rt, name(11, 0), version, &[ready(11, 1)]);
    bench.refuses(&rt, version, &[]);
    bench.releases(
        &rt,
        name(11, 0),
        version,
        false,
        &[bye(11, false), idle(1, 10)],
    );
    bench.retires(&rt, version, retired(1, 3, None));
    bench.close();
    Ok(())
}

#[test]
fn middle_version_goes_before_an_older_one(rt: HostRuntime) -> Result<(), Fail> {
    let mut bench = Bench::open(&rt, rt.alloc(), 16);
    bench.opens(&rt, rt.alloc(), first(1, Mode::Output, 4), &[ready(1, 1)]);
    bench.uses(&rt, name(2, 0), name(1, 0), &[]);
    let third = Told::Ready(name(3, 0), name(3, 0), buffer(0, 3));
    bench.opens(&rt, rt.alloc(), beside(3, 1, 1, 2, 0), &[third]);
    let fifth = Told::Ready(name(5, 0), name(5, 0), buffer(6, 5));
    bench.blocks(&rt, rt.alloc(), beside(5, 4, 0, 15, 6));
    bench.opens(&rt, rt.alloc(), beside(5, 3, 0, 15, 6), &[fifth]);
    let gone = died(3, 2, Some(buffer(0, 3)));
    bench.releases(&rt, name(3, 0), name(3, 0), true, &[bye(3, false), gone]);
    let (Some(oldest), Some(latest)) = (bench.version(name(1, 0)), bench.version(name(5, 0))) else {
        panic!(&rt; "no such versions");
    };
    assert_eq!(rt; oldest.successor, beside(5, 5, 1, 0, 0).follows);
    assert_eq!(rt; latest.predecessor, Some(name(1, 0)));
    bench.releases(&rt, name(5, 0), name(5, 0), true, &[bye(5, false)]);
    bench.releases(
        &rt,
        name(1, 0),
        name(1, 0),
        true,
        &[ready(2, 1), bye(1, false)],
    );
    let last = [bye(2, false), died(1, 4, None), idle(5, 0)];
    bench.releases(&rt, name(2, 0), name(1, 0), false, &last);
    bench.retires(&rt, name(5, 0), retired(5, 15, Some(buffer(6, 5))));
    bench.close();
    Ok(())
}

#[test]
fn inouts_have_the_storage_of_the_version_before(rt: HostRuntime) -> Result<(), Fail> {
    let mut bench = Bench::open(&rt, rt.alloc(), 16);
    bench.opens(&rt, rt.alloc(), first(1, Mode::Inout, 0), &[ready(1, 1)]);
    bench.uses(&rt, name(2, 0), name(1, 0), &[]);
    bench.opens(&rt, rt.alloc(), over(3, 1, 1, 1), &[]);
    bench.releases(
        &rt,
        name(1, 0),
        name(1, 0),
        true,
        &[ready(2, 1), bye(1, false)],
    );
    let last = [bye(2, false), died(1, 0, None), ready(3, 3)];
    bench.releases(&rt, name(2, 0), name(1, 0), false, &last);
    let fourth = Told::Ready(name(4, 0), name(4, 0), buffer(6, 4));
    bench.opens(&rt, rt.alloc(), beside(4, 3, 0, 0, 6), &[fourth]);
    bench.opens(&rt, rt.alloc(), over(5, 4, 0, 2), &[]);
    let fifth = Told::Ready(name(5, 0), name(5, 0), buffer(6, 4));
    let last = [bye(4, false), died(4, 0, None), fifth];
    bench.releases(&rt, name(4, 0), name(4, 0), true, &last);
    bench.releases(
        &rt,
        name(3, 0),
        name(3, 0),
        true,
        &[bye(3, false), died(3, 1, None)],
    );
    bench.releases(
        &rt,
        name(5, 0),
        name(5, 0),
        true,
        &[bye(5, false), idle(5, 0)],
    );
    bench.retires(&rt, name(5, 0), retired(5, 2, Some(buffer(6, 4))));
    bench.close();
    Ok(())
}

/// An input of an object of its own.
fn alone(i: u8, place: u8) -> Plan {
    Plan {
        o: name(1 + u32::from(i), 6),
        operand: operand(0x20000 + 64 * u32::from(i), Mode::Input),
        ..first(1, Mode::Input, place)
    }
}

#[test]
fn full_bank_is_emptied_and_filled_anew(rt: HostRuntime) -> Result<(), Fail> {
    let mut bench = Bench::open(&rt, rt.alloc(), 256);
    for turned in [0, 0x5a] {
        for i in 0..=255u8 {
            let plan = alone(i, i ^ turned);
            bench.opens(
                &rt,
                rt.alloc(),
                plan,
                &[Told::Ready(plan.o, plan.o, Storage::Home)],
            );
        }
        assert_eq!(rt; bench.count(), 256);
        for i in 0..=255u8 {
            let plan = alone(i, i ^ turned);
            let idle = Told::Idle(plan.o, plan.operand.object.base, 1);
            bench.releases(
                &rt,
                plan.o,
                plan.o,
                false,
                &[Told::Bye(plan.o, false), idle],
            );
            bench.retires(
                &rt,
                plan.o,
                Told::Gone(plan.o, u32::from(plan.place), None, true),
            );
        }
        assert_eq!(rt; bench.count(), 0);
    }
    bench.close();
    Ok(())
}

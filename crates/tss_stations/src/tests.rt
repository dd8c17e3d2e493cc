// Stations opened with ample memory: the rows of operands in each order, and slots taken anew.
ghost use Rattle.std.specs.Prelude.{◌≡◌};

use crate::{Farewell, LinkState, Stage, Stations};
use std::process::Abort;
use std::test::Fail;
use tss_base::bounds::{MAX_SLOTS, MAX_STATIONS};
use tss_base::{Mode, OpName, Operand, Range, Sizes, Storage, Task};
use tss_events::{Message, Sent};

/// A machine with so many stations and slots of each.
fn sizes(stations: u32, slots: u32) -> Sizes
    ensures stations { result.stations ≡ stations }
    ensures slots { result.slots ≡ slots }
{
    Sizes {
        stations,
        slots,
        workers: 1,
        banks: 1,
        entries: 7,
        versions: 7,
        buffers: 7,
        quantum: 1,
        window: 1,
    }
}

/// A task with so many operands.
fn task(number: u32, count: u32) -> Task
    ensures { result.number ≡ number }
{
    let operand = Operand {
        object: Range { base: 64, len: 4 },
        mode: Mode::Input,
    };
    Task {
        number,
        entry: 4,
        argument: 0,
        listed: count,
        bases: [64; 7],
        count,
        operands: [operand; 7],
    }
}

/// An operand's name.
fn name(task: u32, place: u32) -> OpName {
    OpName { task, place }
}

/// Lets a task in where there is room, and answers whether there was.
fn enter(stations: &mut Stations, number: u32, count: u32) -> bool {
    if number >= 1 && stations.room(number) && !stations.has(number) {
        stations.enter(&task(number, count));
        true
    } else {
        false
    }
}

/// The ready that was sent, if one was.
fn ready_in(rt: &impl Abort, sent: Sent) -> Option<(OpName, OpName, Storage)> {
    let mut sent = sent;
    match sent.pop() {
        None => {
            sent.end();
            None
        }
        Some(Message::Ready(o, version, storage)) => match sent.pop() {
            None => {
                sent.end();
                Some((o, version, storage))
            }
            Some(_) => panic!(rt; "two messages"),
        },
        Some(_) => panic!(rt; "another message"),
    }
}

/// A task's stage, if it is in flight.
fn stage(stations: &Stations, number: u32) -> Option<Stage> {
    stations.find(number).map(|found| found.1)
}

#[test]
fn a_link_is_held_until_its_operand_is_ready(rt: HostRuntime) -> Result<(), Fail> {
    let mut stations = Stations::open(rt.alloc(), &sizes(1, 8))?;
    assert!(rt; enter(&mut stations, 1, 2));
    assert_eq!(rt; stage(&stations, 1), Some(Stage::Waiting));
    let sent = stations.link(name(1, 0), name(2, 0));
    assert_eq!(rt; ready_in(&rt, sent), None);
    let held = stations.operand(name(1, 0)).map(|operand| operand.link);
    assert_eq!(rt; held, Some(LinkState::Held(name(2, 0))));
    let (sent, queued) = stations.ready(name(1, 0), name(1, 0), Storage::Home);
    assert_eq!(rt;
        ready_in(&rt, sent),
        Some((name(2, 0), name(1, 0), Storage::Home))
    );
    assert!(rt; !queued);
    assert_eq!(rt; stage(&stations, 1), Some(Stage::Waiting));
    let buffer = Storage::Buffer(3, name(1, 1));
    let (sent, queued) = stations.ready(name(1, 1), name(1, 1), buffer);
    assert_eq!(rt; ready_in(&rt, sent), None);
    assert!(rt; queued);
    assert_eq!(rt; stage(&stations, 1), Some(Stage::Queued));
    let sent = stations.link(name(1, 1), name(2, 1));
    assert_eq!(rt; ready_in(&rt, sent), Some((name(2, 1), name(1, 1), buffer)));
    let passed = stations.operand(name(1, 1)).map(|operand| operand.link);
    assert_eq!(rt; passed, Some(LinkState::Passed));
    assert!(rt; stations.operand(name(1, 2)).is_none());
    stations.close();
    Ok(())
}

#[test]
fn a_slot_is_free_when_the_promised_link_has_come(rt: HostRuntime) -> Result<(), Fail> {
    let mut stations = Stations::open(rt.alloc(), &sizes(2, 2))?;
    assert!(rt; enter(&mut stations, 1, 1) && enter(&mut stations, 3, 1));
    assert!(rt; !enter(&mut stations, 5, 1));
    let (sent, queued) = stations.ready(name(1, 0), name(1, 0), Storage::Home);
    assert_eq!(rt; (ready_in(&rt, sent), queued), (None, true));
    stations.begin(1);
    assert_eq!(rt; stage(&stations, 1), Some(Stage::Running));
    stations.finish(1);
    assert_eq!(rt; stage(&stations, 1), Some(Stage::Finished));
    stations.bye(name(1, 0), true);
    let farewell = stations.operand(name(1, 0)).map(|operand| operand.farewell);
    assert_eq!(rt; farewell, Some(Farewell::Promised));
    assert!(rt; !enter(&mut stations, 5, 1));
    let sent = stations.link(name(1, 0), name(3, 0));
    assert_eq!(rt;
        ready_in(&rt, sent),
        Some((name(3, 0), name(1, 0), Storage::Home))
    );
    assert_eq!(rt; stage(&stations, 1), None);
    assert!(rt; enter(&mut stations, 5, 1));
    stations.close();
    Ok(())
}

#[test]
fn a_task_without_operands_leaves_at_its_finish(rt: HostRuntime) -> Result<(), Fail> {
    let mut stations = Stations::open(rt.alloc(), &sizes(1, 1))?;
    for number in 1..4 {
        assert!(rt; enter(&mut stations, number, 0));
        assert_eq!(rt; stage(&stations, number), Some(Stage::Queued));
        assert!(rt; !enter(&mut stations, number + 1, 0));
        stations.begin(number);
        stations.finish(number);
        assert!(rt; !stations.has(number));
    }
    stations.close();
    Ok(())
}

#[test]
fn tasks_are_read_by_number(rt: HostRuntime) -> Result<(), Fail> {
    let mut stations = Stations::open(rt.alloc(), &sizes(MAX_STATIONS, MAX_SLOTS))?;
    for number in 1..1025 {
        assert!(rt; enter(&mut stations, number, 0));
    }
    assert!(rt; !enter(&mut stations, 1025, 0));
    stations.begin(7);
    stations.finish(7);
    assert!(rt; enter(&mut stations, 1031, 0));
    let at = |i: u32| stations.task_at(i).map(|found| found.0.number);
    assert_eq!(rt;
        (at(0), at(5), at(6), at(1023), at(1024)),
        (Some(1), Some(6), Some(8), Some(1031), None)
    );
    stations.close();
    Ok(())
}

// The worked logs: endings, tasks, output, numbers of events and peaks.
ghost use Rattle.tss_base.specs.Machine.{IsAdmissible};

use super::{check_eq, event, follow, machine, opened};
use std::alloc::Global;
use std::process::Abort;
use std::test::Fail;
use tss_base::{Counts, Ending, Key, Machine, OpName, Trap};
use tss_pipeline::Pipeline;
use tss_programs::{
    HI_LOG, IDLE_RACE_LOG, LATE_TRAP_LOG, MANY_READERS_LOG, RENAMED_OUTPUT_LOG, hi, idle_race,
    late_trap, many_readers, renamed_output,
};

/// What a run comes to.
#[derive(Drop)]
struct Row<'a> {
    ending: Ending,
    tasks: u32,
    output: &'a [u8],
    events: u32,
    peaks: [u32; 7],
}

/// Runs a log to its end.
fn expect(
    rt: &impl Abort,
    alloc: Global,
    image: &[u8],
    machine: &Machine,
    log: &str,
    row: &Row,
) -> Result<(), Fail>
    requires { IsAdmissible machine.now }
{
    let mut p = opened(alloc, image, machine)?;
    let mut peaks = p.counts();
    let events = follow(rt, &mut p, log, &mut peaks);
    check_eq(rt, events, row.events);
    assert!(rt; p.finished());
    check_eq(rt, p.enabled_count(), 0);
    check_eq(rt, p.result(), Some(row.ending));
    check_eq(rt, p.tasks(), row.tasks);
    assert!(rt; p.output() == row.output);
    let [messages, slots, ready, workers, entries, versions, buffers] = row.peaks;
    check_eq(
        rt,
        peaks,
        Counts {
            messages,
            slots,
            ready,
            workers,
            entries,
            versions,
            buffers,
        },
    );
    p.close();
    Ok(())
}

#[test]
fn hi_runs(rt: HostRuntime) -> Result<(), Fail> {
    let image = hi(rt.alloc())?;
    let machine = machine(rt.alloc(), &[])?;
    let row = Row {
        ending: Ending::Exit(0),
        tasks: 1,
        output: b"Hi!?",
        events: 21,
        peaks: [2, 1, 1, 1, 1, 1, 0],
    };
    expect(&rt, rt.alloc(), image.as_slice(), &machine, HI_LOG, &row)
}

#[test]
fn renamed_output_runs(rt: HostRuntime) -> Result<(), Fail> {
    let image = renamed_output(rt.alloc())?;
    let machine = machine(rt.alloc(), &[])?;
    let row = Row {
        ending: Ending::Exit(0),
        tasks: 3,
        output: b"ac",
        events: 58,
        peaks: [5, 3, 1, 2, 2, 3, 1],
    };
    expect(
        &rt,
        rt.alloc(),
        image.as_slice(),
        &machine,
        RENAMED_OUTPUT_LOG,
        &row,
    )
}

#[test]
fn many_readers_run(rt: HostRuntime) -> Result<(), Fail> {
    let image = many_readers(rt.alloc())?;
    let machine = machine(rt.alloc(), &[(Key::Stations, "2")])?;
    let row = Row {
        ending: Ending::Exit(0),
        tasks: 9,
        output: b"b",
        events: 124,
        peaks: [10, 5, 7, 1, 1, 2, 0],
    };
    expect(
        &rt,
        rt.alloc(),
        image.as_slice(),
        &machine,
        MANY_READERS_LOG,
        &row,
    )
}

#[test]
fn idle_race_runs(rt: HostRuntime) -> Result<(), Fail> {
    let image = idle_race(rt.alloc())?;
    let machine = machine(rt.alloc(), &[])?;
    let row = Row {
        ending: Ending::Exit(0),
        tasks: 2,
        output: b"",
        events: 33,
        peaks: [3, 1, 1, 1, 1, 1, 0],
    };
    expect(
        &rt,
        rt.alloc(),
        image.as_slice(),
        &machine,
        IDLE_RACE_LOG,
        &row,
    )
}

#[test]
fn late_trap_runs(rt: HostRuntime) -> Result<(), Fail> {
    let image = late_trap(rt.alloc())?;
    let machine = machine(rt.alloc(), &[])?;
    let row = Row {
        ending: Ending::TaskTrap(
            2,
            Trap {
                pc: 0x10144,
                cause: 3,
                value: 0x10144,
            },
        ),
        tasks: 2,
        output: b"a",
        events: 32,
        peaks: [0, 4, 4, 3, 0, 0, 0],
    };
    expect(
        &rt,
        rt.alloc(),
        image.as_slice(),
        &machine,
        LATE_TRAP_LOG,
        &row,
    )
}

#[test]
fn a_renamed_output_lies_in_a_buffer(rt: HostRuntime) -> Result<(), Fail> {
    let image = renamed_output(rt.alloc())?;
    let machine = machine(rt.alloc(), &[])?;
    let mut p = opened(rt.alloc(), image.as_slice(), &machine)?;
    let mut left: u32 = 30;
    for line in RENAMED_OUTPUT_LOG.lines() {
        if left == 0 {
            break;
        }
        left -= 1;
        assert!(&rt; p.step(event(&rt, line)) == Ok(()));
    }
    let Some((name, bytes)) = p.buffer_at(0, 0) else {
        panic!(&rt; "no buffer");
    };
    assert!(&rt; name == OpName { task: 3, place: 0 });
    assert!(&rt; p.buffer_at(0, 1) == None);
    check_eq(&rt, p.buffer_count(0), 1);
    check_eq(&rt, p.copy_buffer(0), None);
    p.close();
    Ok(())
}

/// How many versions of a bank there are, by their names in order.
fn versions_by_name(p: &Pipeline, bank: u32) -> u32 {
    let mut count: u32 = 0;
    let mut name = OpName { task: 0, place: 0 };
    for _ in 0..256u32 {
        let Some(next) = p.version_after(bank, name) else {
            break;
        };
        count = count.saturating_add(1);
        name = next;
    }
    count
}

/// Whether the counts of a state are those of what it shows.
fn counts_shown(rt: &impl Abort, p: &Pipeline) {
    assert!(rt; p.message_at(p.message_count()) == None);
    check_eq(rt, p.message_count(), p.counts().messages);
    check_eq(rt, p.queue_count(), p.counts().ready);
    assert!(rt; p.held_at(p.held_count()).is_none());
    assert!(rt; p.task_at(p.task_count()).is_none());
    assert!(rt; p.epoch_at(p.epoch_count()).is_none());
    assert!(rt; p.piece_at(p.piece_count()).is_none());
    check_eq(rt, p.entry_count(0), p.counts().entries);
    check_eq(rt, p.place_count(0), p.counts().versions);
    check_eq(rt, p.buffer_count(0), p.counts().buffers);
    check_eq(rt, versions_by_name(p, 0), p.version_count(0));
    if let Some((task, _)) = p.task_at(0) {
        check_eq(rt, p.operand_count(task.number), Some(task.count));
    }
}

#[test]
fn what_is_shown_is_counted(rt: HostRuntime) -> Result<(), Fail> {
    let image = renamed_output(rt.alloc())?;
    let machine = machine(rt.alloc(), &[])?;
    let mut p = opened(rt.alloc(), image.as_slice(), &machine)?;
    for line in RENAMED_OUTPUT_LOG.lines() {
        assert!(&rt; p.step(event(&rt, line)) == Ok(()));
        counts_shown(&rt, &p);
    }
    p.close();
    Ok(())
}

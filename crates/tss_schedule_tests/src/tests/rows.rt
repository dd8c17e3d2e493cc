// The worked logs, driven in both formats: endings, tasks, output, numbers of events and peaks.
ghost use Rattle.tss_base.specs.Machine.{IsAdmissible};

use super::{check_eq, machine, opened};
use std::alloc::Global;
use std::process::Abort;
use std::test::Fail;
use tss_base::{Counts, Ending, Key, Machine, Peaks, Trap};
use tss_log::{NoLog, migrate_log};
use tss_programs::{
    HI_LOG, IDLE_RACE_LOG, LATE_TRAP_LOG, MANY_READERS_LOG, RENAMED_OUTPUT_LOG, hi, idle_race,
    late_trap, many_readers, renamed_output,
};
use tss_schedule::{Given, Schedule, drive};

/// What a run comes to.
#[derive(Drop)]
struct Row<'a> {
    ending: Ending,
    tasks: u32,
    output: &'a [u8],
    events: u64,
    peaks: [u32; 7],
}

/// Drives a program by a log, which is a run without a fault.
fn run(
    rt: &impl Abort,
    alloc: Global,
    image: &[u8],
    machine: &Machine,
    log: &[u8],
    row: &Row,
) -> Result<(), Fail>
    requires { IsAdmissible machine.now }
{
    let mut p = opened(alloc, image, machine)?;
    let answer = drive(&mut p, &mut Given::new(log), &mut NoLog {});
    let [messages, slots, ready, workers, entries, versions, buffers] = row.peaks;
    let counts = Counts {
        messages,
        slots,
        ready,
        workers,
        entries,
        versions,
        buffers,
    };
    check_eq(
        rt,
        answer,
        Ok(Peaks {
            events: row.events,
            counts,
        }),
    );
    check_eq(rt, p.result(), Some(row.ending));
    check_eq(rt, p.tasks(), row.tasks);
    assert!(rt; p.output() == row.output);
    check_eq(rt, p.enabled_count(), 0);
    p.close();
    Ok(())
}

/// The same by the log in the older format and in the present one.
fn both_run(
    rt: &impl Abort,
    alloc: Global,
    image: &[u8],
    machine: &Machine,
    log: &str,
    row: &Row,
) -> Result<(), Fail>
    requires { IsAdmissible machine.now }
{
    run(rt, alloc, image, machine, log.as_bytes(), row)?;
    let present = migrate_log(alloc, log.as_bytes())?;
    run(rt, alloc, image, machine, present.as_slice(), row)
}

#[test]
fn logs_of_one_station(rt: HostRuntime) -> Result<(), Fail> {
    let alloc = rt.alloc();
    let machine = machine(alloc, &[])?;
    let row = Row {
        ending: Ending::Exit(0),
        tasks: 1,
        output: b"Hi!?",
        events: 21,
        peaks: [2, 1, 1, 1, 1, 1, 0],
    };
    both_run(&rt, alloc, hi(alloc)?.as_slice(), &machine, HI_LOG, &row)?;
    let row = Row {
        ending: Ending::Exit(0),
        tasks: 3,
        output: b"ac",
        events: 58,
        peaks: [5, 3, 1, 2, 2, 3, 1],
    };
    let image = renamed_output(alloc)?;
    both_run(
        &rt,
        alloc,
        image.as_slice(),
        &machine,
        RENAMED_OUTPUT_LOG,
        &row,
    )?;
    let row = Row {
        ending: Ending::Exit(0),
        tasks: 2,
        output: b"",
        events: 33,
        peaks: [3, 1, 1, 1, 1, 1, 0],
    };
    let image = idle_race(alloc)?;
    both_run(&rt, alloc, image.as_slice(), &machine, IDLE_RACE_LOG, &row)
}

#[test]
fn a_log_of_two_stations(rt: HostRuntime) -> Result<(), Fail> {
    let alloc = rt.alloc();
    let machine = machine(alloc, &[(Key::Stations, "2")])?;
    let row = Row {
        ending: Ending::Exit(0),
        tasks: 9,
        output: b"b",
        events: 124,
        peaks: [10, 5, 7, 1, 1, 2, 0],
    };
    let image = many_readers(alloc)?;
    both_run(
        &rt,
        alloc,
        image.as_slice(),
        &machine,
        MANY_READERS_LOG,
        &row,
    )
}

#[test]
fn a_log_that_ends_with_a_trap(rt: HostRuntime) -> Result<(), Fail> {
    let alloc = rt.alloc();
    let machine = machine(alloc, &[])?;
    let trap = Trap {
        pc: 0x10144,
        cause: 3,
        value: 0x10144,
    };
    let row = Row {
        ending: Ending::TaskTrap(2, trap),
        tasks: 2,
        output: b"a",
        events: 32,
        peaks: [0, 4, 4, 3, 0, 0, 0],
    };
    let image = late_trap(alloc)?;
    both_run(&rt, alloc, image.as_slice(), &machine, LATE_TRAP_LOG, &row)
}

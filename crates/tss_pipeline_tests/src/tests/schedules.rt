// Runs to the end that always do the first or the last of the events that may happen, on the least machine and others,
// and the greatest machine opened and ended.
ghost use Rattle.tss_base.specs.Machine.{IsAdmissible};

use super::{check_eq, machine, opened};
use std::alloc::Global;
use std::process::Abort;
use std::test::Fail;
use tss_base::{Ending, Event, Key, Machine};
use tss_pipeline::Pipeline;
use tss_programs::{full_tables, hi, idle_race, many_readers, renamed_output};

/// Which of the events that may happen is done.
#[derive(Clone, Copy, Debug, PartialEq, Eq)]
enum Which {
    First,
    Last,
}

/// The event that is done next.
fn next(p: &Pipeline, which: Which) -> Option<Event> {
    match which {
        Which::First => p.enabled_at(0),
        Which::Last => p.enabled_at(p.enabled_count().saturating_sub(1)),
    }
}

/// Runs a program to its end, which is an exit with 0.
fn runs(
    rt: &impl Abort,
    alloc: Global,
    image: &[u8],
    machine: &Machine,
    which: Which,
    tasks: u32,
) -> Result<(), Fail>
    requires { IsAdmissible machine.now }
{
    let mut p = opened(alloc, image, machine)?;
    for _ in 0..4009u32 {
        let Some(e) = next(&p, which) else {
            break;
        };
        assert!(rt; p.step(e) == Ok(()));
    }
    check_eq(rt, p.result(), Some(Ending::Exit(0)));
    check_eq(rt, p.tasks(), tasks);
    p.close();
    Ok(())
}

/// The five programs under a machine.
fn all_run(rt: &impl Abort, alloc: Global, machine: &Machine, which: Which) -> Result<(), Fail>
    requires { IsAdmissible machine.now }
{
    runs(rt, alloc, hi(alloc)?.as_slice(), machine, which, 1)?;
    runs(
        rt,
        alloc,
        renamed_output(alloc)?.as_slice(),
        machine,
        which,
        3,
    )?;
    runs(
        rt,
        alloc,
        many_readers(alloc)?.as_slice(),
        machine,
        which,
        9,
    )?;
    runs(rt, alloc, full_tables(alloc)?.as_slice(), machine, which, 2)?;
    runs(rt, alloc, idle_race(alloc)?.as_slice(), machine, which, 2)
}

#[test]
fn always_the_last_event(rt: HostRuntime) -> Result<(), Fail> {
    let machine = machine(rt.alloc(), &[])?;
    all_run(&rt, rt.alloc(), &machine, Which::Last)
}

#[test]
fn always_the_first_event(rt: HostRuntime) -> Result<(), Fail> {
    let machine = machine(rt.alloc(), &[(Key::Banks, "3"), (Key::Window, "8")])?;
    all_run(&rt, rt.alloc(), &machine, Which::First)
}

#[test]
fn the_least_machine(rt: HostRuntime) -> Result<(), Fail> {
    let machine = machine(
        rt.alloc(),
        &[
            (Key::Slots, "1"),
            (Key::Workers, "1"),
            (Key::Entries, "7"),
            (Key::Versions, "7"),
            (Key::Buffers, "7"),
            (Key::Quantum, "1"),
        ],
    )?;
    all_run(&rt, rt.alloc(), &machine, Which::Last)?;
    all_run(&rt, rt.alloc(), &machine, Which::First)
}

#[test]
fn the_greatest_machine(rt: HostRuntime) -> Result<(), Fail> {
    let machine = machine(
        rt.alloc(),
        &[
            (Key::MainBudget, "1000000000"),
            (Key::TaskBudget, "100000000"),
            (Key::MaxTasks, "65536"),
            (Key::ObjectBytes, "65536"),
            (Key::EpochObjects, "65536"),
            (Key::OutputBytes, "1048576"),
            (Key::Stations, "16"),
            (Key::Slots, "64"),
            (Key::Workers, "64"),
            (Key::Banks, "64"),
            (Key::Entries, "256"),
            (Key::Versions, "256"),
            (Key::Buffers, "64"),
            (Key::Quantum, "65536"),
            (Key::Window, "8"),
        ],
    )?;
    let image = hi(rt.alloc())?;
    let p = opened(rt.alloc(), image.as_slice(), &machine)?;
    check_eq(&rt, p.enabled_count(), 1);
    p.close();
    Ok(())
}

// Runs of seeds. The list was drawn by another program, from the words of the generator and the definitions.
ghost use Rattle.tss_base.specs.Machine.{IsAdmissible};

use super::{check_eq, follows, machine, opened};
use std::alloc::Global;
use std::process::Abort;
use std::test::Fail;
use tss_base::{Ending, Event, Key, Machine};
use tss_log::NoLog;
use tss_programs::{exit_seven, full_tables, hi, idle_race, many_readers, renamed_output};
use tss_schedule::{Pick, Schedule, Seeded, drive};

/// What seed 12 draws for a program whose third task's output is renamed.
const DRAWN: &str = "main\nmain\nmain\ntake\ndecode 1.0\nmain\nmain\nack 1.0\nopen 1.0\ntake\n\
     decode 2.0\ndecode 2.1\nack 2.0\nack 2.1\nready 1.0\nstart 2\nexec 2\nopen 2.1\nready 2.1\n\
     main\nuse 2.0\ntake\nmain\ndecode 3.0\nfinish 2\nrelease 1.0\nopen 3.0\nbye 1.0\nready 2.0\n\
     ack 3.0\nstart 0\nready 3.0\nstart 1\nexec 0\nfinish 0\nrelease 2.0\nrelease 2.1\nexec 1\n\
     finish 1\nrelease 3.0\nbye 2.1\nidle 3.0\ngone 1.0\nbye 3.0\nretire 3.0\nidle 2.1\ncopy 0\n\
     bye 2.0\nretire 2.1\ngone 2.1\ngone 3.0\nmain\nmain\nmain\nmain\nmain\nmain\nmain\n";

#[test]
fn seed_twelve(rt: HostRuntime) -> Result<(), Fail> {
    let image = renamed_output(rt.alloc())?;
    let machine = machine(rt.alloc(), &[])?;
    let mut p = opened(rt.alloc(), image.as_slice(), &machine)?;
    follows(&rt, &mut p, &mut Seeded::new(12), DRAWN);
    check_eq(&rt, p.result(), Some(Ending::Exit(0)));
    p.close();
    Ok(())
}

#[test]
fn an_end_is_told_again(rt: HostRuntime) -> Result<(), Fail> {
    let image = exit_seven(rt.alloc())?;
    let machine = machine(rt.alloc(), &[])?;
    let mut p = opened(rt.alloc(), image.as_slice(), &machine)?;
    let mut schedule = Seeded::new(0);
    follows(&rt, &mut p, &mut schedule, "main\nmain\n");
    assert!(&rt; schedule.pick(&p) == Pick::End);
    check_eq(&rt, p.result(), Some(Ending::Exit(7)));
    p.close();
    Ok(())
}

/// Drives a program by each of the first seeds. It exits with 0, and does no more events than the bound of a machine
/// with the small machine's budgets and longest objects.
fn all_exit(
    rt: &impl Abort,
    alloc: Global,
    image: &[u8],
    machine: &Machine,
    seeds: u64,
    tasks: u32,
) -> Result<(), Fail>
    requires { IsAdmissible machine.now }
{
    for seed in 0..seeds {
        let mut p = opened(alloc, image, machine)?;
        match drive(&mut p, &mut Seeded::new(seed), &mut NoLog {}) {
            Ok(peaks) => assert!(rt; peaks.events <= 4009),
            Err(_) => panic!(rt; "a seed has no fault"),
        }
        check_eq(rt, p.result(), Some(Ending::Exit(0)));
        check_eq(rt, p.tasks(), tasks);
        p.close();
    }
    Ok(())
}

/// Five programs, each by so many seeds.
fn five_exit(rt: &impl Abort, alloc: Global, machine: &Machine, seeds: u64) -> Result<(), Fail>
    requires { IsAdmissible machine.now }
{
    all_exit(rt, alloc, hi(alloc)?.as_slice(), machine, seeds, 1)?;
    all_exit(
        rt,
        alloc,
        renamed_output(alloc)?.as_slice(),
        machine,
        seeds,
        3,
    )?;
    all_exit(
        rt,
        alloc,
        many_readers(alloc)?.as_slice(),
        machine,
        seeds,
        9,
    )?;
    all_exit(rt, alloc, full_tables(alloc)?.as_slice(), machine, seeds, 2)?;
    all_exit(rt, alloc, idle_race(alloc)?.as_slice(), machine, seeds, 2)
}

#[test]
fn the_least_machine(rt: HostRuntime) -> Result<(), Fail> {
    let machine = machine(
        rt.alloc(),
        &[
            (Key::Slots, "1"),
            (Key::Workers, "1"),
            (Key::Entries, "7"),
            (Key::Versions, "7"),
            (Key::Buffers, "7"),
            (Key::Quantum, "1"),
        ],
    )?;
    five_exit(&rt, rt.alloc(), &machine, 20)
}

#[test]
fn the_widest_window(rt: HostRuntime) -> Result<(), Fail> {
    let machine = machine(
        rt.alloc(),
        &[
            (Key::Workers, "1"),
            (Key::Entries, "7"),
            (Key::Versions, "7"),
            (Key::Buffers, "7"),
            (Key::Quantum, "1"),
            (Key::Window, "8"),
        ],
    )?;
    five_exit(&rt, rt.alloc(), &machine, 20)
}

#[test]
fn full_tables_by_a_hundred_seeds(rt: HostRuntime) -> Result<(), Fail> {
    let machine = machine(
        rt.alloc(),
        &[
            (Key::Entries, "7"),
            (Key::Versions, "7"),
            (Key::Buffers, "7"),
        ],
    )?;
    let image = full_tables(rt.alloc())?;
    all_exit(&rt, rt.alloc(), image.as_slice(), &machine, 100, 2)
}

// Schedules of seeds and of logs that are given, over programs with names.
ghost use Rattle.std.specs.Prelude.{IfOk};
ghost use Rattle.tss_base.specs.Machine.{IsAdmissible};

mod faults;
mod logs;
mod rows;
mod seeds;
mod written;

use std::alloc::Global;
use std::fmt::Debug;
use std::process::Abort;
use std::test::Fail;
use tss_base::{Event, Key, Machine};
use tss_elf::read_image;
use tss_events::read_event;
use tss_machine::read_machine;
use tss_outside::MemFiles;
use tss_pipeline::Pipeline;
use tss_programs::description;
use tss_schedule::{Pick, Schedule};

/// Checks that two values are equal. A call has fewer steps than `assert_eq!`, so a test of many is proved sooner.
fn check_eq<T: PartialEq + Debug + Copy>(rt: &impl Abort, left: T, right: T) {
    assert_eq!(rt; left, right);
}

/// The small machine with some keys changed.
fn machine(alloc: Global, changes: &[(Key, &str)]) -> Result<Machine, Fail>
    ensures { IfOk result IsAdmissible }
{
    let text = description(alloc, changes)?;
    Ok(read_machine(alloc, text.as_bytes())?)
}

/// A pipeline for an image's bytes.
fn opened(alloc: Global, bytes: &[u8], machine: &Machine) -> Result<Pipeline, Fail>
    requires { IsAdmissible machine.now }
{
    let image = read_image(alloc, bytes)?;
    Ok(Pipeline::open(alloc, &image, machine)?)
}

/// Files in which a log has room.
fn roomy_files(alloc: Global) -> Result<MemFiles, Fail> {
    let mut files = MemFiles::new(alloc);
    files.room("log", 65536)?;
    Ok(files)
}

/// The event of a text.
fn event(rt: &impl Abort, text: &str) -> Event {
    match read_event(text.as_bytes()) {
        Some(e) => e,
        None => panic!(rt; "no event"),
    }
}

/// The picks are the events of these lines, each of which is done, and then the end.
fn follows<S: Schedule>(rt: &impl Abort, p: &mut Pipeline, schedule: &mut S, lines: &str) {
    for line in lines.lines() {
        let e = event(rt, line);
        assert!(rt; schedule.pick(p) == Pick::Do(e));
        assert!(rt; p.step(e) == Ok(()));
    }
    assert!(rt; schedule.pick(p) == Pick::End);
}

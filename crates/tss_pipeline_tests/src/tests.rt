// Runs of programs with names, by their logs and by schedules.
ghost use Rattle.std.specs.Prelude.{IfOk};
ghost use Rattle.tss_base.specs.Machine.{IsAdmissible};

mod logs;
mod refusals;
mod schedules;

use std::alloc::Global;
use std::fmt::Debug;
use std::process::Abort;
use std::test::Fail;
use tss_base::{Counts, Ending, Event, Key, Machine, OpName};
use tss_elf::read_image;
use tss_events::read_event;
use tss_machine::read_machine;
use tss_pipeline::{NotEnabled, Pipeline};
use tss_programs::description;

/// Checks that two values are equal. A call has fewer steps than `assert_eq!`, so a test of many is proved sooner.
fn check_eq<T: PartialEq + Debug + Copy>(rt: &impl Abort, left: T, right: T) {
    assert_eq!(rt; left, right);
}

/// The small machine with some keys changed.
fn machine(alloc: Global, changes: &[(Key, &str)]) -> Result<Machine, Fail>
    ensures { IfOk result IsAdmissible }
{
    let text = description(alloc, changes)?;
    Ok(read_machine(alloc, text.as_bytes())?)
}

/// A pipeline for an image's bytes.
fn opened(alloc: Global, bytes: &[u8], machine: &Machine) -> Result<Pipeline, Fail>
    requires { IsAdmissible machine.now }
{
    let image = read_image(alloc, bytes)?;
    Ok(Pipeline::open(alloc, &image, machine)?)
}

/// The event of a text.
fn event(rt: &impl Abort, text: &str) -> Event {
    match read_event(text.as_bytes()) {
        Some(e) => e,
        None => panic!(rt; "no event"),
    }
}

/// Does the events of a log, and keeps the greatest counts.
fn follow(rt: &impl Abort, p: &mut Pipeline, log: &str, peaks: &mut Counts) -> u32 {
    let mut done: u32 = 0;
    for line in log.lines() {
        assert!(rt; p.step(event(rt, line)) == Ok(()));
        done = done.saturating_add(1);
        greater(peaks, &p.counts());
    }
    done
}

/// The greater of each count.
fn greater(peaks: &mut Counts, counts: &Counts) {
    peaks.messages = peaks.messages.max(counts.messages);
    peaks.slots = peaks.slots.max(counts.slots);
    peaks.ready = peaks.ready.max(counts.ready);
    peaks.workers = peaks.workers.max(counts.workers);
    peaks.entries = peaks.entries.max(counts.entries);
    peaks.versions = peaks.versions.max(counts.versions);
    peaks.buffers = peaks.buffers.max(counts.buffers);
}

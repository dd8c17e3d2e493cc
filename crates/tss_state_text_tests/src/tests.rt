// States of worked programs, whose texts were written down by the rules of the state text.
ghost use Rattle.std.specs.Prelude.{IfOk};
ghost use Rattle.tss_base.specs.Machine.{IsAdmissible};
ghost use Rattle.tss_conditions.specs.Reached.{Reached};

mod pieces;
mod rows;
mod traps;

use std::alloc::Global;
use std::fmt::Debug;
use std::process::Abort;
use std::test::Fail;
use tss_base::{Event, Image, Key, Machine};
use tss_elf::read_image;
use tss_events::read_event;
use tss_machine::read_machine;
use tss_outside::{Failed, MemSink};
use tss_pipeline::Pipeline;
use tss_programs::description;
use tss_state_text::write_state;

/// Checks that two values are equal. A call has fewer steps than `assert_eq!`, so a test of many is proved sooner.
fn check_eq<T: PartialEq + Debug + Copy>(rt: &impl Abort, left: T, right: T) {
    assert_eq!(rt; left, right);
}

/// The small machine with some keys changed.
fn machine(alloc: Global, changes: &[(Key, &str)]) -> Result<Machine, Fail>
    ensures { IfOk result IsAdmissible }
{
    let text = description(alloc, changes)?;
    Ok(read_machine(alloc, text.as_bytes())?)
}

/// The event of a text.
fn event(rt: &impl Abort, text: &str) -> Event {
    match read_event(text.as_bytes()) {
        Some(e) => e,
        None => panic!(rt; "no event"),
    }
}

/// Does an event, which may happen.
fn step(rt: &impl Abort, p: &mut Pipeline, image: &Image, e: Event)
    requires { Reached p.old.machine image.now p.old.state }
    ensures { Reached p.new.machine image.now p.new.state }
{
    assert!(rt; p.step(e) == Ok(()));
}

/// The pipeline after the events of a log, or after so many of them.
fn after(
    rt: &impl Abort,
    alloc: Global,
    image: &Image,
    machine: &Machine,
    log: &str,
    count: usize,
) -> Result<Pipeline, Fail>
    requires { IsAdmissible machine.now }
    ensures { IfOk result (λ p. Reached p.machine image.now p.state) }
{
    assert!(rt; image.count() > 0);
    let mut p = Pipeline::open(alloc, image, machine)?;
    let mut left = count;
    for line in log.lines() {
        if left > 0 {
            step(rt, &mut p, image, event(rt, line));
            left -= 1;
        }
    }
    Ok(p)
}

/// Writes the state of a pipeline.
fn write(out: &mut MemSink, p: &Pipeline, image: &Image) -> Result<(), Failed>
    requires { Reached p.now.machine image.now p.now.state }
{
    write_state(out, p, image)
}

/// Writes the state after so many events of a log, and answers whether all of it was written.
fn write_after(
    rt: &impl Abort,
    alloc: Global,
    bytes: &[u8],
    changes: &[(Key, &str)],
    log: &str,
    count: usize,
    out: &mut MemSink,
) -> Result<bool, Fail> {
    let machine = machine(alloc, changes)?;
    let image = read_image(alloc, bytes)?;
    let p = after(rt, alloc, &image, &machine, log, count)?;
    let written = write(out, &p, &image);
    p.close();
    Ok(written.is_ok())
}

/// Checks the text of the state after so many events of a log.
fn expect(
    rt: &impl Abort,
    alloc: Global,
    bytes: &[u8],
    changes: &[(Key, &str)],
    log: &str,
    count: usize,
    text: &str,
) -> Result<(), Fail> {
    let mut out = MemSink::new(alloc, 16384)?;
    let whole = write_after(rt, alloc, bytes, changes, log, count, &mut out)?;
    assert!(rt; whole);
    assert!(rt; out.bytes() == text.as_bytes());
    Ok(())
}

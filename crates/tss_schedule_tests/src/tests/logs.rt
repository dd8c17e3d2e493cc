// Logs that are given, of both formats, and lines that are no event's text.
use super::{check_eq, follows, machine, opened};
use std::alloc::Global;
use std::process::Abort;
use std::test::Fail;
use tss_base::{Ending, Event};
use tss_pipeline::Pipeline;
use tss_programs::{HI_LOG, exit_seven, hi};
use tss_schedule::{Given, Pick, Schedule};

/// A pipeline that is at its start.
fn fresh(alloc: Global) -> Result<Pipeline, Fail> {
    let image = exit_seven(alloc)?;
    let machine = machine(alloc, &[])?;
    opened(alloc, image.as_slice(), &machine)
}

#[test]
fn offsets(rt: HostRuntime) -> Result<(), Fail> {
    check_eq(&rt, Given::new(b"tss-log 2\nmain\n").offset(), 1);
    check_eq(&rt, Given::new(b"tss-log 2").offset(), 1);
    check_eq(&rt, Given::new(b"main\ntss-log 2\n").offset(), 0);
    check_eq(&rt, Given::new(b"tss-log 2 \n").offset(), 0);
    check_eq(&rt, Given::new(b"").offset(), 0);
    Ok(())
}

#[test]
fn both_formats(rt: HostRuntime) -> Result<(), Fail> {
    let image = hi(rt.alloc())?;
    let machine = machine(rt.alloc(), &[])?;
    for header in ["", "tss-log 2\n"] {
        let mut log = String::new(rt.alloc());
        log.push_str(header)?;
        log.push_str(HI_LOG)?;
        let mut p = opened(rt.alloc(), image.as_slice(), &machine)?;
        follows(&rt, &mut p, &mut Given::new(log.as_bytes()), HI_LOG);
        check_eq(&rt, p.result(), Some(Ending::Exit(0)));
        p.close();
    }
    Ok(())
}

#[test]
fn lines_that_are_no_events(rt: HostRuntime) -> Result<(), Fail> {
    let p = fresh(rt.alloc())?;
    for line in [
        "main\nstart 00\n",
        "main\ndecode 1.7\n",
        "main\ndecode 0.0\n",
        "main\ntake \n",
        "main\nmain\r\n",
        "main\n\n",
        "main\nMain",
        "main\ntss-log 2\n",
    ] {
        let mut schedule = Given::new(line.as_bytes());
        assert!(&rt; schedule.pick(&p) == Pick::Do(Event::Main));
        assert!(&rt; schedule.pick(&p) == Pick::Bad);
        assert!(&rt; schedule.pick(&p) == Pick::End);
        assert!(&rt; schedule.pick(&p) == Pick::End);
    }
    p.close();
    Ok(())
}

#[test]
fn a_header_alone(rt: HostRuntime) -> Result<(), Fail> {
    let p = fresh(rt.alloc())?;
    assert!(&rt; Given::new(b"tss-log 2\n").pick(&p) == Pick::End);
    assert!(&rt; Given::new(b"tss-log 2\ntss-log 2\n").pick(&p) == Pick::Bad);
    assert!(&rt; Given::new(b"").pick(&p) == Pick::End);
    p.close();
    Ok(())
}

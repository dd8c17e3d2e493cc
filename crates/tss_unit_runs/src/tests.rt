// Runs of programs with names by seeds and by logs, from the image to the end.
ghost use Rattle.std.specs.Prelude.{IfOk};
ghost use Rattle.tss_base.specs.Machine.{IsAdmissible};

use crate::{
    FinishedRun, GivenFault, LineFault, LoggedFault, run_given, run_logged, run_seeded, state_given,
};
use std::alloc::Global;
use std::process::Abort;
use std::test::Fail;
use tss_base::{Counts, Ending, Image, Machine, Peaks};
use tss_elf::read_image;
use tss_machine::read_machine;
use tss_outside::MemFiles;
use tss_programs::{description, hi};

/// The log of one task from its spawn until its object has gone home, without a header.
const HI: &str =
    "main\nmain\ntake\ndecode 1.0\nack 1.0\nopen 1.0\nready 1.0\nstart 0\nexec 0\nfinish 0\n\
     release 1.0\nbye 1.0\nidle 1.0\nretire 1.0\ngone 1.0\nmain\nmain\nmain\nmain\nmain\nmain\n";

/// Its peaks.
const HI_PEAKS: Peaks = Peaks {
    events: 21,
    counts: Counts {
        messages: 2,
        slots: 1,
        ready: 1,
        workers: 1,
        entries: 1,
        versions: 1,
        buffers: 0,
    },
};

/// The small machine.
fn machine(alloc: Global) -> Result<Machine, Fail>
    ensures { IfOk result IsAdmissible }
{
    let text = description(alloc, &[])?;
    Ok(read_machine(alloc, text.as_bytes())?)
}

/// The image of the program `hi`.
fn image(alloc: Global) -> Result<Image, Fail> {
    let bytes = hi(alloc)?;
    Ok(read_image(alloc, bytes.as_slice())?)
}

/// A run of the program `hi` came to its end.
fn says_hi(rt: &impl Abort, run: FinishedRun) {
    assert_eq!(rt; run.ending(), Ending::Exit(0));
    assert_eq!(rt; run.tasks(), 1);
    assert_eq!(rt; run.output(), b"Hi!?".as_slice());
    assert_eq!(rt; run.peaks().events, 21);
    run.close();
}

/// Why there is no run of a log, if there is none.
fn fault(alloc: Global, log: &[u8]) -> Result<Option<GivenFault>, Fail> {
    match run_given(alloc, machine(alloc)?, image(alloc)?, log) {
        Ok(run) => {
            run.close();
            Ok(None)
        }
        Err(fault) => Ok(Some(fault)),
    }
}

#[test]
fn a_seeded_run_is_the_run_of_its_log(rt: HostRuntime) -> Result<(), Fail> {
    let alloc = rt.alloc();
    let mut files = MemFiles::new(alloc);
    files.room("log", 4096)?;
    match run_logged(alloc, machine(alloc)?, image(alloc)?, 5, &mut files, "log") {
        Ok(run) => says_hi(&rt, run),
        Err(_) => panic!(rt; "no run"),
    }
    assert!(rt; files.bytes("log").starts_with(b"tss-log 2\nmain\n"));
    says_hi(&rt, run_seeded(alloc, machine(alloc)?, image(alloc)?, 5)?);
    match run_given(alloc, machine(alloc)?, image(alloc)?, files.bytes("log")) {
        Ok(run) => says_hi(&rt, run),
        Err(_) => panic!(rt; "no run"),
    }
    Ok(())
}

#[test]
fn a_given_log_has_its_peaks(rt: HostRuntime) -> Result<(), Fail> {
    let alloc = rt.alloc();
    match run_given(alloc, machine(alloc)?, image(alloc)?, HI.as_bytes()) {
        Ok(run) => {
            assert_eq!(rt; *run.peaks(), HI_PEAKS);
            run.close();
        }
        Err(_) => panic!(rt; "no run"),
    }
    Ok(())
}

#[test]
fn faults_are_told_by_lines(rt: HostRuntime) -> Result<(), Fail> {
    let bad = fault(rt.alloc(), b"main\nMain\n")?;
    assert_eq!(rt; bad, Some(GivenFault::Line(LineFault::BadLine(2))));
    let early = fault(rt.alloc(), b"tss-log 2\nmain\ntake\n")?;
    assert_eq!(rt; early, Some(GivenFault::Line(LineFault::NotEnabled(3))));
    let short = fault(rt.alloc(), b"tss-log 2\n")?;
    assert_eq!(rt; short, Some(GivenFault::Line(LineFault::Short(2))));
    let text = format!(in rt.alloc(); "{}main\n", HI)?;
    let long = fault(rt.alloc(), text.as_bytes())?;
    assert_eq!(rt; long, Some(GivenFault::Line(LineFault::Long(22))));
    Ok(())
}

#[test]
fn a_log_may_end_before_its_run_is_over(rt: HostRuntime) -> Result<(), Fail> {
    let alloc = rt.alloc();
    let image = image(alloc)?;
    match state_given(alloc, &machine(alloc)?, &image, b"main\nmain\ntake\n") {
        Ok(pipeline) => {
            assert!(rt; !pipeline.finished());
            assert_eq!(rt; pipeline.spawned(), 1);
            pipeline.close();
        }
        Err(_) => panic!(rt; "no state"),
    }
    Ok(())
}

#[test]
fn a_log_that_cannot_be_written_is_told(rt: HostRuntime) -> Result<(), Fail> {
    let alloc = rt.alloc();
    let mut files = MemFiles::new(alloc);
    files.room("log", 4096)?;
    files.fail_append(1)?;
    match run_logged(alloc, machine(alloc)?, image(alloc)?, 5, &mut files, "log") {
        Ok(run) => {
            run.close();
            panic!(rt; "a run")
        }
        Err(fault) => assert!(rt; fault == LoggedFault::WriteFault),
    }
    assert_eq!(rt; files.bytes("log").len(), 0);
    Ok(())
}

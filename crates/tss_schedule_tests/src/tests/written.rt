// What is logged of a run, and the run of that log.
use super::{check_eq, machine, opened, roomy_files};
use std::process::Abort;
use std::test::Fail;
use tss_log::{FileLog, Log, NoLog};
use tss_programs::{hi, renamed_output};
use tss_schedule::{Given, ScheduleFault, Seeded, drive};

#[test]
fn a_seed_is_the_run_of_its_log(rt: HostRuntime) -> Result<(), Fail> {
    let image = renamed_output(rt.alloc())?;
    let machine = machine(rt.alloc(), &[])?;
    for seed in 0..8 {
        let mut files = roomy_files(rt.alloc())?;
        let mut log = FileLog::new(&mut files, "log");
        let mut p = opened(rt.alloc(), image.as_slice(), &machine)?;
        let drawn = drive(&mut p, &mut Seeded::new(seed), &mut log);
        p.close();
        assert!(&rt; drawn.is_ok());
        assert!(&rt; files.bytes("log").starts_with(b"tss-log 2\nmain\n"));
        let mut p = opened(rt.alloc(), image.as_slice(), &machine)?;
        let mut schedule = Given::new(files.bytes("log"));
        let given = drive(&mut p, &mut schedule, &mut NoLog {});
        p.close();
        check_eq(&rt, schedule.offset(), 1);
        check_eq(&rt, given, drawn);
    }
    Ok(())
}

#[test]
fn the_log_of_a_fault_has_the_events_before_it(rt: HostRuntime) -> Result<(), Fail> {
    let image = hi(rt.alloc())?;
    let machine = machine(rt.alloc(), &[])?;
    let mut files = roomy_files(rt.alloc())?;
    let mut log = FileLog::new(&mut files, "log");
    let mut p = opened(rt.alloc(), image.as_slice(), &machine)?;
    let mut schedule = Given::new(b"main\nmain\ntake\nmain\nTake\n");
    let answer = drive(&mut p, &mut schedule, &mut log);
    p.close();
    check_eq(&rt, answer, Err(ScheduleFault::BadLine(5)));
    assert!(&rt; log.close().is_ok());
    check_eq(
        &rt,
        files.bytes("log"),
        b"tss-log 2\nmain\nmain\ntake\nmain\n".as_slice(),
    );
    Ok(())
}

// Schedules that don't come to the end of a run, and logs that can't be written.
ghost use Rattle.tss_base.specs.Machine.{IsAdmissible};

use super::{check_eq, machine, opened, roomy_files};
use std::alloc::Global;
use std::process::Abort;
use std::test::Fail;
use tss_base::{Key, Machine, Peaks};
use tss_log::{FileLog, Log, NoLog};
use tss_outside::MemFiles;
use tss_programs::{FULL_TABLES_LOG, HI_LOG, exit_seven, full_tables, hi, spinning_reader};
use tss_schedule::{Given, Schedule, ScheduleFault, Seeded, drive};

/// What driving a program by a log answers.
fn driven(
    alloc: Global,
    image: &[u8],
    machine: &Machine,
    log: &[u8],
) -> Result<Result<Peaks, ScheduleFault>, Fail>
    requires { IsAdmissible machine.now }
{
    let mut p = opened(alloc, image, machine)?;
    let answer = drive(&mut p, &mut Given::new(log), &mut NoLog {});
    p.close();
    Ok(answer)
}

#[test]
fn bad_schedules(rt: HostRuntime) -> Result<(), Fail> {
    let alloc = rt.alloc();
    let image = exit_seven(alloc)?;
    let machine = machine(alloc, &[])?;
    for (log, fault) in [
        ("", ScheduleFault::Short(1)),
        ("tss-log 2\n", ScheduleFault::Short(1)),
        ("main", ScheduleFault::Short(2)),
        ("main\nmain\nmain\n", ScheduleFault::Long(3)),
        ("tss-log 2\nmain\nmain\nmain", ScheduleFault::Long(3)),
        ("main\nmain\ntake\n", ScheduleFault::Long(3)),
        ("main\nmain\nMain\n", ScheduleFault::BadLine(3)),
        ("main\nMain", ScheduleFault::BadLine(2)),
        ("main\ntss-log 2\nmain\n", ScheduleFault::BadLine(2)),
        ("take\nMain\n", ScheduleFault::NotEnabled(1)),
        ("tss-log 2\nmain\nstart 0\n", ScheduleFault::NotEnabled(2)),
        ("main\nstart 00\n", ScheduleFault::BadLine(2)),
        ("main\ndecode 1.7\n", ScheduleFault::BadLine(2)),
        ("main\ndecode 0.0\n", ScheduleFault::BadLine(2)),
        ("main\ntake \n", ScheduleFault::BadLine(2)),
        ("main\nmain\r\n", ScheduleFault::BadLine(2)),
        ("main\n\nmain\n", ScheduleFault::BadLine(2)),
    ] {
        let answer = driven(alloc, image.as_slice(), &machine, log.as_bytes())?;
        check_eq(&rt, answer, Err(fault));
    }
    Ok(())
}

#[test]
fn a_log_is_cut_at_each_byte_of_its_last_line(rt: HostRuntime) -> Result<(), Fail> {
    let alloc = rt.alloc();
    let image = hi(alloc)?;
    let machine = machine(alloc, &[])?;
    let log = HI_LOG.as_bytes();
    // The last line is `main`, the 21st.
    let last = log.len() - 5;
    let short = driven(alloc, image.as_slice(), &machine, &log[..last])?;
    check_eq(&rt, short, Err(ScheduleFault::Short(21)));
    for end in last + 1..last + 4 {
        let bad = driven(alloc, image.as_slice(), &machine, &log[..end])?;
        check_eq(&rt, bad, Err(ScheduleFault::BadLine(21)));
    }
    for end in [last + 4, last + 5] {
        let whole = driven(alloc, image.as_slice(), &machine, &log[..end])?;
        assert!(&rt; whole.is_ok());
    }
    Ok(())
}

#[test]
fn a_decode_waits_for_full_tables(rt: HostRuntime) -> Result<(), Fail> {
    let alloc = rt.alloc();
    let image = full_tables(alloc)?;
    let machine = machine(
        alloc,
        &[
            (Key::Entries, "7"),
            (Key::Versions, "7"),
            (Key::Buffers, "7"),
        ],
    )?;
    for (more, fault) in [
        ("decode 2.0\n", ScheduleFault::NotEnabled(52)),
        (
            "idle 1.0\nretire 1.0\ngone 1.0\ndecode 2.0\n",
            ScheduleFault::Short(56),
        ),
    ] {
        let log = format!(in alloc; "{}{}", FULL_TABLES_LOG, more)?;
        let answer = driven(alloc, image.as_slice(), &machine, log.as_bytes())?;
        check_eq(&rt, answer, Err(fault));
    }
    Ok(())
}

/// Drives a program whose second task runs long, by a seed, into a log.
fn logged(
    alloc: Global,
    machine: &Machine,
    files: &mut MemFiles,
) -> Result<Result<Peaks, ScheduleFault>, Fail>
    requires { IsAdmissible machine.now }
{
    let image = spinning_reader(alloc)?;
    let mut p = opened(alloc, image.as_slice(), machine)?;
    let answer = drive(&mut p, &mut Seeded::new(2), &mut FileLog::new(files, "log"));
    p.close();
    Ok(answer)
}

#[test]
fn each_append_fails_in_turn(rt: HostRuntime) -> Result<(), Fail> {
    let alloc = rt.alloc();
    let machine = machine(alloc, &[(Key::TaskBudget, "1500"), (Key::Quantum, "1")])?;
    let mut files = roomy_files(alloc)?;
    let answer = logged(alloc, &machine, &mut files)?;
    assert!(&rt; answer.is_ok());
    let whole = files.bytes("log");
    assert!(&rt; whole.starts_with(b"tss-log 2\nmain\n"));
    // More than two pieces, and less than three: 1,547 events, as another program drew them.
    check_eq(&rt, whole.len(), 10840);
    let mut before: usize = 0;
    for number in 1..4u32 {
        let mut cut = roomy_files(alloc)?;
        cut.fail_append(number)?;
        let answer = logged(alloc, &machine, &mut cut)?;
        check_eq(&rt, answer, Err(ScheduleFault::WriteFault));
        let part = cut.bytes("log");
        assert!(&rt; whole.starts_with(part));
        assert!(&rt; number == 1 || part.ends_with(b"\n"));
        assert!(&rt; part.len() >= before && part.len() - before <= 4096);
        assert!(&rt; number == 1 || part.len() > before);
        before = part.len();
    }
    assert!(&rt; whole.len().saturating_sub(before) <= 4096);
    let mut later = roomy_files(alloc)?;
    later.fail_append(4)?;
    assert!(&rt; logged(alloc, &machine, &mut later)?.is_ok());
    assert!(&rt; later.bytes("log") == whole);
    Ok(())
}

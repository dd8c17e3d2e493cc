// What no clause says: how many pieces a log has after many lines. And logs that were written down by the rules of a
// log, and cut anywhere.
ghost use Rattle.std.specs.Prelude.{◌≡◌, OnOk};
ghost use Rattle.tss_outside.specs.Outside.{AppendsWhereTold, RaisesOnly};
ghost use Rattle.tss_protocol.specs.Text.{ended_line, log_header};
ghost use Rattle.tss_log.specs.Logs.{Stays};
ghost use Rattle.tss_log.specs.FileLogs.{held_under};

use std::alloc::Global;
use std::fmt::Debug;
use std::process::Abort;
use std::test::Fail;
use tss_base::{Event, OpName};
use tss_log::{FileLog, Lines, Log, LogFault, NoLog, line_count, migrate_log};
use tss_outside::{Failed, Files, MemFiles};

/// Checks that two values are equal. A call has fewer steps than `assert_eq!`, so a test of many is proved sooner.
fn check_eq<T: PartialEq + Debug + Copy>(rt: &impl Abort, left: T, right: T) {
    assert_eq!(rt; left, right);
}

/// The log of one task from its spawn until its object has gone home, without a header.
const HI: &str =
    "main\nmain\ntake\ndecode 1.0\nack 1.0\nopen 1.0\nready 1.0\nstart 0\nexec 0\nfinish 0\n\
     release 1.0\nbye 1.0\nidle 1.0\nretire 1.0\ngone 1.0\nmain\nmain\nmain\nmain\nmain\nmain\n";

// ---- a log in a file

/// Closes any log.
fn close<L: Log>(log: &mut L) -> Result<(), Failed>
    ensures ok { OnOk result (Stays (L.text log.old) (L.held log.new)) }
    ensures keeps { L.keeps log.old log.new }
{
    log.close()
}

/// Makes a log and closes it: its maker learns of its files what any log says of them.
fn put_header<F: Files>(files: &mut F, name: &str) -> Result<(), Failed>
    ensures ok { OnOk result (AppendsWhereTold (held_under name.now (F.held files.old))
        (held_under name.now (F.held files.new)) (ended_line log_header)) }
    ensures counts { RaisesOnly (F.knows files.old) (F.append_faults files.old) (F.append_faults files.new) name.now }
{
    let mut log = FileLog::new(files, name);
    close(&mut log)
}

/// Puts `start 0` and `start 1` into a new log of the file "log", then `main` so many times, and closes it where that
/// is asked for.
fn put_lines(files: &mut MemFiles, mains: u32, closes: bool) -> Result<(), Failed> {
    let mut log = FileLog::new(files, "log");
    log.line(&Event::Start(0))?;
    log.line(&Event::Start(1))?;
    for _ in 0..mains {
        log.line(&Event::Main)?;
    }
    if closes { log.close() } else { Ok(()) }
}

/// Files in which a log has room.
fn roomy_files(alloc: Global) -> Result<MemFiles, Fail> {
    let mut files = MemFiles::new(alloc);
    files.room("log", 65536)?;
    files.room("other", 65536)?;
    Ok(files)
}

#[test]
fn a_log_without_lines_has_the_header(rt: HostRuntime) -> Result<(), Fail> {
    let mut files = roomy_files(rt.alloc())?;
    assert!(rt; put_header(&mut files, "log").is_ok());
    check_eq(&rt, files.bytes("log"), b"tss-log 2\n".as_slice());
    assert!(rt; put_header(&mut files, "log").is_ok());
    check_eq(
        &rt,
        files.bytes("log"),
        b"tss-log 2\ntss-log 2\n".as_slice(),
    );
    check_eq(&rt, files.bytes("other").len(), 0);
    Ok(())
}

#[test]
fn a_piece_is_full_to_its_last_byte(rt: HostRuntime) -> Result<(), Fail> {
    // A header of 10 bytes, 2 lines of 8 and 814 of 5 are 4,096.
    let mut files = roomy_files(rt.alloc())?;
    assert!(rt; put_lines(&mut files, 814, false).is_ok());
    check_eq(&rt, files.bytes("log").len(), 0);
    assert!(rt; put_lines(&mut files, 815, false).is_ok());
    check_eq(&rt, files.bytes("log").len(), 4096);
    assert!(rt;
        files
            .bytes("log")
            .starts_with(b"tss-log 2\nstart 0\nstart 1\nmain\n")
    );
    assert!(rt; files.bytes("log").ends_with(b"\nmain\n"));
    Ok(())
}

#[test]
fn a_line_that_does_not_fit_begins_the_next_piece(rt: HostRuntime) -> Result<(), Fail> {
    // After a full piece one of 819 lines of 5 is 4,095.
    let mut files = roomy_files(rt.alloc())?;
    assert!(rt; put_lines(&mut files, 814 + 819, false).is_ok());
    check_eq(&rt, files.bytes("log").len(), 4096);
    assert!(rt; put_lines(&mut files, 814 + 820, false).is_ok());
    check_eq(&rt, files.bytes("log").len(), 4096 + 4096 + 4095);
    assert!(rt; files.bytes("log").ends_with(b"\nmain\n"));
    Ok(())
}

/// Three pieces, of which the append with this number fails: all before it are there.
fn fails_at(rt: &impl Abort, alloc: Global, number: u32, bytes: usize) -> Result<(), Fail> {
    let mut files = roomy_files(alloc)?;
    files.fail_append(number)?;
    check_eq(rt, put_lines(&mut files, 814 + 819 + 1, true), Err(Failed));
    check_eq(rt, files.bytes("log").len(), bytes);
    Ok(())
}

#[test]
fn each_append_fails_in_turn(rt: HostRuntime) -> Result<(), Fail> {
    fails_at(&rt, rt.alloc(), 1, 0)?;
    fails_at(&rt, rt.alloc(), 2, 4096)?;
    fails_at(&rt, rt.alloc(), 3, 4096 + 4095)?;
    let mut files = roomy_files(rt.alloc())?;
    files.fail_append(4)?;
    assert!(rt; put_lines(&mut files, 814 + 819 + 1, true).is_ok());
    check_eq(&rt, files.bytes("log").len(), 4096 + 4095 + 5);
    Ok(())
}

#[test]
fn a_line_after_a_fault_is_not_lost(rt: HostRuntime) -> Result<(), Fail> {
    let mut files = roomy_files(rt.alloc())?;
    files.fail_append(1)?;
    let mut log = FileLog::new(&mut files, "log");
    assert!(rt;
        log.line(&Event::Ready(OpName {
            task: 65536,
            place: 6
        }))
        .is_ok()
    );
    check_eq(&rt, log.close(), Err(Failed));
    assert!(rt; log.close().is_ok());
    assert!(rt; log.close().is_ok());
    check_eq(
        &rt,
        files.bytes("log"),
        b"tss-log 2\nready 65536.6\n".as_slice(),
    );
    Ok(())
}

#[test]
fn no_log_never_fails(rt: HostRuntime) -> Result<(), Fail> {
    let mut log = NoLog {};
    assert!(rt; log.line(&Event::Take).is_ok());
    assert!(rt; log.close().is_ok());
    Ok(())
}

// ---- the lines of a log

/// The log has the offset and so many lines after a header, of which the last is this one.
fn has_lines(rt: &impl Abort, log: &[u8], offset: u64, lines: u64, last: &[u8]) {
    let mut left = Lines::new(log);
    check_eq(rt, left.offset(), offset);
    let mut latest: &[u8] = b"";
    for _ in 0..lines {
        match left.next() {
            Some(line) => latest = line,
            None => panic!(rt; "no line is left"),
        }
    }
    assert!(rt; left.next().is_none());
    assert!(rt; left.next().is_none());
    assert!(rt; latest == last);
}

#[test]
fn a_header_is_passed_over(rt: HostRuntime) -> Result<(), Fail> {
    has_lines(&rt, b"", 0, 0, b"");
    has_lines(&rt, b"\n", 0, 1, b"");
    has_lines(&rt, b"main", 0, 1, b"main");
    has_lines(&rt, b"main\n\n", 0, 2, b"");
    has_lines(&rt, b"tss-log 2", 1, 0, b"");
    has_lines(&rt, b"tss-log 2\n", 1, 0, b"");
    has_lines(&rt, b"tss-log 2\ntss-log 2\n", 1, 1, b"tss-log 2");
    has_lines(&rt, b"tss-log 2 \nmain\n", 0, 2, b"main");
    has_lines(&rt, b"tss-log 3\nmain\n", 0, 2, b"main");
    has_lines(&rt, b"\ntss-log 2\n", 0, 2, b"tss-log 2");
    Ok(())
}

#[test]
fn a_log_is_cut_at_each_byte_of_its_last_line(rt: HostRuntime) -> Result<(), Fail> {
    let log = b"tss-log 2\nmain\ntake\ndecode 1.0\n";
    has_lines(&rt, log, 1, 3, b"decode 1.0");
    has_lines(&rt, &log[..20], 1, 2, b"take");
    for end in 21..log.len() {
        has_lines(&rt, &log[..end], 1, 3, &log[20..end]);
    }
    Ok(())
}

// ---- the older format

#[test]
fn a_log_is_migrated_once(rt: HostRuntime) -> Result<(), Fail> {
    let alloc = rt.alloc();
    let hi = HI.as_bytes();
    check_eq(&rt, line_count(hi), 21);
    let log = migrate_log(alloc, hi)?;
    check_eq(&rt, line_count(log.as_slice()), 22);
    assert!(rt; log.as_slice().starts_with(b"tss-log 2\nmain\nmain\ntake\n"));
    assert!(rt; log.as_slice().ends_with(hi));
    assert!(rt;
        matches!(
            migrate_log(alloc, log.as_slice()),
            Err(LogFault::BadLine(1))
        )
    );
    Ok(())
}

#[test]
fn the_last_line_gets_its_end(rt: HostRuntime) -> Result<(), Fail> {
    let alloc = rt.alloc();
    check_eq(
        &rt,
        migrate_log(alloc, b"main\ntake")?.as_slice(),
        b"tss-log 2\nmain\ntake\n".as_slice(),
    );
    check_eq(
        &rt,
        migrate_log(alloc, b"")?.as_slice(),
        b"tss-log 2\n".as_slice(),
    );
    check_eq(&rt, line_count(b""), 0);
    check_eq(&rt, line_count(b"main\ntake"), 2);
    Ok(())
}

#[test]
fn the_first_bad_line_is_told(rt: HostRuntime) -> Result<(), Fail> {
    let alloc = rt.alloc();
    assert!(rt;
        matches!(
            migrate_log(alloc, b"main\n\nmian\n"),
            Err(LogFault::BadLine(2))
        )
    );
    assert!(rt;
        matches!(
            migrate_log(alloc, b"main\ntake\nmian"),
            Err(LogFault::BadLine(3))
        )
    );
    Ok(())
}

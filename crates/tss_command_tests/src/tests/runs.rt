// Runs of programs with names by the unit machine, by seeds and by logs, whose reports the rules give.
use super::{GIVEN, LOGGED, expect, files_with, text};
use std::alloc::Global;
use std::process::Abort;
use std::test::Fail;
use tss_base::Key;
use tss_outside::MemFiles;
use tss_programs::{
    AWAIT_THIRD_LOG, FULL_TABLES_LOG, HI_LOG, IDLE_RACE_LOG, LATE_TRAP_LOG, MANY_READERS_LOG,
    RENAMED_OUTPUT_LOG, await_third, exit_seven, full_tables, hi, idle_race, late_trap,
    many_readers, renamed_output,
};

/// What `exit_seven` gives.
const SEVEN: &[u8] = b"end exit 7\ntasks 0\noutput 0\n\nevents 2\n\
    peak messages 0 of 135\npeak slots 0 of 8\npeak ready 0 of 8\npeak workers 0 of 3\n\
    peak entries 0 of 16\npeak versions 0 of 16\npeak buffers 0 of 7\n";

/// And with two tasks that decode at once.
const SEVEN_BY_TWO: &[u8] = b"end exit 7\ntasks 0\noutput 0\n\nevents 2\n\
    peak messages 0 of 142\npeak slots 0 of 8\npeak ready 0 of 8\npeak workers 0 of 3\n\
    peak entries 0 of 16\npeak versions 0 of 16\npeak buffers 0 of 7\n";

/// What `hi` gives by its log.
const HI: &[u8] = b"end exit 0\ntasks 1\noutput 4\nHi!?\n\
    row 00020000 4869213f000000000000000000000000\nevents 21\n\
    peak messages 2 of 135\npeak slots 1 of 8\npeak ready 1 of 8\npeak workers 1 of 3\n\
    peak entries 1 of 16\npeak versions 1 of 16\npeak buffers 0 of 7\n";

/// What `renamed_output` gives by its log.
const RENAMED: &[u8] = b"end exit 0\ntasks 3\noutput 2\nac\n\
    row 00020000 63000000000000000000000000000000\n\
    row 00020040 61000000000000000000000000000000\nevents 58\n\
    peak messages 5 of 135\npeak slots 3 of 8\npeak ready 1 of 8\npeak workers 2 of 3\n\
    peak entries 2 of 16\npeak versions 3 of 16\npeak buffers 1 of 7\n";

/// What `many_readers` gives by its log.
const READ: &[u8] = b"end exit 0\ntasks 9\noutput 1\nb\n\
    row 00020000 62000000000000000000000000000000\nevents 124\n\
    peak messages 10 of 247\npeak slots 5 of 8\npeak ready 7 of 16\npeak workers 1 of 3\n\
    peak entries 1 of 16\npeak versions 2 of 16\npeak buffers 0 of 7\n";

/// What `idle_race` gives by its log.
const RACE: &[u8] = b"end exit 0\ntasks 2\noutput 0\n\nevents 33\n\
    peak messages 3 of 135\npeak slots 1 of 8\npeak ready 1 of 8\npeak workers 1 of 3\n\
    peak entries 1 of 16\npeak versions 1 of 16\npeak buffers 0 of 7\n";

/// What `late_trap` gives by its log.
const LATE: &[u8] = b"end task-trap 2 00010144 3 00010144\ntasks 2\noutput 1\na\nevents 32\n\
    peak messages 0 of 135\npeak slots 4 of 8\npeak ready 4 of 8\npeak workers 3 of 3\n\
    peak entries 0 of 16\npeak versions 0 of 16\npeak buffers 0 of 7\n";

#[test]
fn every_seed_gives_the_same_run_of_main_alone(rt: HostRuntime) -> Result<(), Fail> {
    let alloc = rt.alloc();
    let image = exit_seven(alloc)?;
    let two = [(Key::Window, "2")];
    for seed in ["0", "1", "2", "3", "4", "18446744073709551615"] {
        let texts = ["run", "image", "machine", "seed", seed];
        let mut files = files_with(alloc, image.as_slice(), &[], b"")?;
        expect(&rt, alloc, &mut files, &texts, 0, SEVEN)?;
        let mut files = files_with(alloc, image.as_slice(), &two, b"")?;
        expect(&rt, alloc, &mut files, &texts, 0, SEVEN_BY_TWO)?;
    }
    Ok(())
}

#[test]
fn a_seeded_run_is_logged_and_its_log_gives_it_again(rt: HostRuntime) -> Result<(), Fail> {
    let alloc = rt.alloc();
    let mut files = files_with(alloc, hi(alloc)?.as_slice(), &[], b"")?;
    let logged = text(&rt, alloc, &mut files, LOGGED, 0)?;
    let log = files.bytes("out");
    assert!(rt; log.starts_with(b"tss-log 2\nmain\nmain\ntake\n"));
    assert!(rt; log.ends_with(b"\nmain\nmain\nmain\nmain\nmain\n"));
    let again = ["run", "image", "machine", "given", "out"];
    let given = text(&rt, alloc, &mut files, &again, 0)?;
    assert!(rt; given.bytes() == logged.bytes());
    Ok(())
}

#[test]
fn a_log_is_appended_to_what_its_file_held(rt: HostRuntime) -> Result<(), Fail> {
    let alloc = rt.alloc();
    let mut files = files_with(alloc, exit_seven(alloc)?.as_slice(), &[], b"")?;
    files.put("out", b"more\n")?;
    expect(&rt, alloc, &mut files, LOGGED, 0, SEVEN)?;
    assert!(rt; files.bytes("out") == b"more\ntss-log 2\nmain\nmain\n".as_slice());
    Ok(())
}

/// Checks what a program's log gives, and the same log once it was migrated.
fn expect_given(
    rt: &impl Abort,
    alloc: Global,
    image: &[u8],
    changes: &[(Key, &str)],
    log: &str,
    status: u8,
    whole: &[u8],
) -> Result<(), Fail> {
    let mut files = files_with(alloc, image, changes, log.as_bytes())?;
    expect(rt, alloc, &mut files, GIVEN, status, whole)?;
    let _text = text(rt, alloc, &mut files, &["migrate", "schedule", "out"], 0)?;
    let migrated = ["run", "image", "machine", "given", "out"];
    expect(rt, alloc, &mut files, &migrated, status, whole)
}

#[test]
fn logs_give_their_runs(rt: HostRuntime) -> Result<(), Fail> {
    let alloc = rt.alloc();
    let two = [(Key::Stations, "2")];
    let image = hi(alloc)?;
    expect_given(&rt, alloc, image.as_slice(), &[], HI_LOG, 0, HI)?;
    let image = renamed_output(alloc)?;
    let log = RENAMED_OUTPUT_LOG;
    expect_given(&rt, alloc, image.as_slice(), &[], log, 0, RENAMED)?;
    let image = many_readers(alloc)?;
    expect_given(
        &rt,
        alloc,
        image.as_slice(),
        &two,
        MANY_READERS_LOG,
        0,
        READ,
    )?;
    let image = idle_race(alloc)?;
    expect_given(&rt, alloc, image.as_slice(), &[], IDLE_RACE_LOG, 0, RACE)?;
    let image = late_trap(alloc)?;
    expect_given(&rt, alloc, image.as_slice(), &[], LATE_TRAP_LOG, 1, LATE)
}

/// Files with a program, and its log with one more event.
fn files_after(
    alloc: Global,
    image: &[u8],
    changes: &[(Key, &str)],
    log: &str,
    more: &str,
) -> Result<MemFiles, Fail> {
    let mut schedule = String::from_str(alloc, log)?;
    schedule.push_str(more)?;
    files_with(alloc, image, changes, schedule.as_str().as_bytes())
}

#[test]
fn an_event_waits_for_its_place_or_its_object(rt: HostRuntime) -> Result<(), Fail> {
    let alloc = rt.alloc();
    let sevens = [
        (Key::Entries, "7"),
        (Key::Versions, "7"),
        (Key::Buffers, "7"),
    ];
    let image = full_tables(alloc)?;
    let log = FULL_TABLES_LOG;
    let mut files = files_after(alloc, image.as_slice(), &sevens, log, "decode 2.0\n")?;
    let full = b"schedule not-enabled 52\n";
    expect(&rt, alloc, &mut files, GIVEN, 5, full)?;
    let image = await_third(alloc)?;
    let log = AWAIT_THIRD_LOG;
    let mut files = files_after(alloc, image.as_slice(), &[], log, "main\nmain\n")?;
    let early = b"schedule not-enabled 18\n";
    expect(&rt, alloc, &mut files, GIVEN, 5, early)
}

#[test]
fn schedules_are_answered_by_their_first_fault(rt: HostRuntime) -> Result<(), Fail> {
    let alloc = rt.alloc();
    let image = exit_seven(alloc)?;
    for (log, text) in [
        (b"".as_slice(), b"schedule short 1\n".as_slice()),
        (b"main\n", b"schedule short 2\n"),
        (b"main\nmain\nmain\n", b"schedule long 3\n"),
        (b"main\nMain\n", b"schedule bad-line 2\n"),
        (b"main\nstart 00\n", b"schedule bad-line 2\n"),
        (b"main\ndecode 1.7\n", b"schedule bad-line 2\n"),
        (b"main\ndecode 0.0\n", b"schedule bad-line 2\n"),
        (b"main\ntake \n", b"schedule bad-line 2\n"),
        (b"main\nmain\r\n", b"schedule bad-line 2\n"),
        (b"main\n\n\n", b"schedule bad-line 2\n"),
        (b"take\n", b"schedule not-enabled 1\n"),
        (b"tss-log 2\n", b"schedule short 2\n"),
        (b"tss-log 2\nmain\n", b"schedule short 3\n"),
        (b"tss-log 2\nmain\nmain\nmain", b"schedule long 4\n"),
        (b"tss-log 2\nmain\nMain\n", b"schedule bad-line 3\n"),
        (b"tss-log 2\ntss-log 2\n", b"schedule bad-line 2\n"),
    ] {
        let mut files = files_with(alloc, image.as_slice(), &[], log)?;
        expect(&rt, alloc, &mut files, GIVEN, 5, text)?;
    }
    Ok(())
}

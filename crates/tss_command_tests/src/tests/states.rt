// States of the unit machine after logs that are given.
use super::{STATE, answer, check_eq, files_with, from, page, text};
use std::alloc::Global;
use std::process::Abort;
use std::test::Fail;
use tss_base::Key;
use tss_outside::{MemFiles, MemSink};
use tss_programs::{
    AWAIT_THIRD_LOG, FULL_TABLES_LOG, IDLE_RACE_LOG, MANY_READERS_LOG, RENAMED_OUTPUT_LOG,
    await_third, exit_seven, full_tables, idle_race, many_readers, renamed_output,
};

/// What a state's text ends with after 30 lines of the log.
const MIDWAY: &[u8] = b"\nentry 0 00020000 4 3.0 0 live\nentry 0 00020040 4 2.1 0 live\n\
    place 0 1.0\nplace 0 2.1\nplace 0 3.0\nbuffer 0 3.0 63000000\n\
    version 1.0 00020000 4 home open 1 0 2.0 2.0 - 3.0 beside 1 - -\n\
    version 2.1 00020040 4 home open 0 0 - - - - - - - -\n\
    version 3.0 00020000 4 3.0 produced 0 0 - - 1.0 - - - - -\nenabled 2\n";

/// Checks what `state` answers over these files: the status, and that the text has these parts, and then an end.
fn expect_state(
    rt: &impl Abort,
    alloc: Global,
    files: &mut MemFiles,
    status: u8,
    parts: &[&[u8]],
    end: &[u8],
) -> Result<(), Fail> {
    let out = text(rt, alloc, files, STATE, status)?;
    for part in parts {
        assert!(rt; !from(out.bytes(), part).is_empty());
    }
    assert!(rt; out.bytes().ends_with(end));
    Ok(())
}

/// The first lines of a log.
fn first_lines(log: &str, lines: u32) -> &[u8] {
    let log = log.as_bytes();
    let mut left = lines;
    for (i, byte) in log.iter().enumerate() {
        if left == 0 {
            return log.get(..i).unwrap_or(log);
        }
        if *byte == b'\n' {
            left = left.saturating_sub(1);
        }
    }
    log
}

#[test]
fn a_run_is_shown_midway_and_at_its_end(rt: HostRuntime) -> Result<(), Fail> {
    let alloc = rt.alloc();
    let image = renamed_output(alloc)?;
    let midway = first_lines(RENAMED_OUTPUT_LOG, 30);
    let mut files = files_with(alloc, image.as_slice(), &[], midway)?;
    expect_state(&rt, alloc, &mut files, 0, &[], MIDWAY)?;
    files.put("schedule", RENAMED_OUTPUT_LOG.as_bytes())?;
    let rows = b"\nrow 00020000 63000000000000000000000000000000\n\
        row 00020040 61000000000000000000000000000000\n";
    expect_state(&rt, alloc, &mut files, 0, &[rows], b"\nenabled 0\n")
}

#[test]
fn a_state_has_no_short_schedule(rt: HostRuntime) -> Result<(), Fail> {
    let alloc = rt.alloc();
    let image = exit_seven(alloc)?;
    for (log, status, end) in [
        (b"".as_slice(), 0, b"\nenabled 1\n".as_slice()),
        (b"main\n", 0, b"\nenabled 1\n"),
        (b"main\nmain\n", 0, b"\nenabled 0\n"),
        (b"main\nmain\nmain\n", 5, b"schedule long 3\n"),
        (b"main\nMain\n", 5, b"schedule bad-line 2\n"),
        (b"tss-log 2\ntake\n", 5, b"schedule not-enabled 2\n"),
    ] {
        let mut files = files_with(alloc, image.as_slice(), &[], log)?;
        expect_state(&rt, alloc, &mut files, status, &[], end)?;
    }
    Ok(())
}

/// Files with a program, and with a log and further lines of it.
fn files_after(
    alloc: Global,
    image: &[u8],
    changes: &[(Key, &str)],
    log: &str,
    more: &str,
) -> Result<MemFiles, Fail> {
    let mut schedule = String::from_str(alloc, log)?;
    schedule.push_str(more)?;
    files_with(alloc, image, changes, schedule.as_str().as_bytes())
}

#[test]
fn a_wait_ends_where_its_place_is_free(rt: HostRuntime) -> Result<(), Fail> {
    let alloc = rt.alloc();
    let sevens = [
        (Key::Entries, "7"),
        (Key::Versions, "7"),
        (Key::Buffers, "7"),
    ];
    let image = full_tables(alloc)?;
    let more = "idle 1.0\nretire 1.0\ngone 1.0\ndecode 2.0\n";
    let mut files = files_after(alloc, image.as_slice(), &sevens, FULL_TABLES_LOG, more)?;
    expect_state(&rt, alloc, &mut files, 0, &[], b"\n")?;

    // Main awaits an object, which is then no longer named.
    let image = await_third(alloc)?;
    let more = "gone 1.0\nmain\nmain\n";
    let mut files = files_after(alloc, image.as_slice(), &[], AWAIT_THIRD_LOG, more)?;
    let shown = text(&rt, alloc, &mut files, STATE, 0)?;
    assert!(&rt; !from(shown.bytes(), b"\ninbox 2").is_empty());
    let epoch = from(shown.bytes(), b"\nepoch ");
    let rest = epoch.strip_prefix(b"\nepoch 00020040 4").unwrap_or(epoch);
    assert!(&rt; rest.starts_with(b"\n") && from(rest, b"\nepoch ").is_empty());
    Ok(())
}

#[test]
fn a_writer_is_ready_when_all_readers_have_released(rt: HostRuntime) -> Result<(), Fail> {
    let alloc = rt.alloc();
    let two = [(Key::Stations, "2")];
    let image = many_readers(alloc)?;
    for lines in 0..=107 {
        let mut schedule = Vec::from_slice(alloc, first_lines(MANY_READERS_LOG, lines))?;
        schedule.extend_from_slice(b"ready 9.0\n")?;
        let mut files = files_with(alloc, image.as_slice(), &two, schedule.as_slice())?;
        if lines == 107 {
            let queued = b"\ntask 9 queued\n".as_slice();
            expect_state(&rt, alloc, &mut files, 0, &[queued], b"\n")?;
        } else {
            let early = format!(in alloc; "schedule not-enabled {}\n", lines.saturating_add(1))?;
            expect_state(&rt, alloc, &mut files, 5, &[], early.as_str().as_bytes())?;
        }
    }
    Ok(())
}

#[test]
fn a_version_is_not_retired_while_a_use_is_under_way(rt: HostRuntime) -> Result<(), Fail> {
    let alloc = rt.alloc();
    let image = idle_race(alloc)?;
    let mut files = files_with(alloc, image.as_slice(), &[], first_lines(IDLE_RACE_LOG, 18))?;
    let parts = [b"\nmessage use 2.0 1.0\nmessage nack 1.0\n".as_slice()];
    expect_state(&rt, alloc, &mut files, 0, &parts, b"\nenabled 3\n")?;
    let shown = text(&rt, alloc, &mut files, STATE, 0)?;
    assert!(rt; from(shown.bytes(), b"\nmessage retire").is_empty());
    Ok(())
}

/// The log of `renamed_output` up to two tasks at the gateway, and then one line.
const TWO_AT_THE_GATEWAY: &str = "main\nmain\ntake\nmain\nmain\ntake\n";

#[test]
fn two_tasks_decode_at_once(rt: HostRuntime) -> Result<(), Fail> {
    let alloc = rt.alloc();
    let image = renamed_output(alloc)?;
    let one = "decode 2.0\n";
    let mut files = files_after(alloc, image.as_slice(), &[], TWO_AT_THE_GATEWAY, one)?;
    expect_state(&rt, alloc, &mut files, 5, &[], b"schedule not-enabled 6\n")?;
    let two = [(Key::Window, "2")];
    let mut files = files_after(alloc, image.as_slice(), &two, TWO_AT_THE_GATEWAY, one)?;
    expect_state(&rt, alloc, &mut files, 5, &[], b"schedule not-enabled 7\n")?;
    let both = [(Key::Window, "2"), (Key::Banks, "2")];
    let other = "decode 2.1\n";
    let mut files = files_after(alloc, image.as_slice(), &both, TWO_AT_THE_GATEWAY, other)?;
    let parts = [
        b"\ngateway 1 1\ngateway 2 2\n".as_slice(),
        b"\nentry 1 00020040 4 2.1 0 live\n",
        b"\nplace 1 2.1\n",
    ];
    expect_state(&rt, alloc, &mut files, 0, &parts, b"\nenabled 4\n")?;

    // The four events that are enabled.
    for more in [
        "decode 2.1\nmain\n",
        "decode 2.1\ndecode 1.0\n",
        "decode 2.1\nack 2.1\n",
        "decode 2.1\nopen 2.1\n",
    ] {
        let mut files = files_after(alloc, image.as_slice(), &both, TWO_AT_THE_GATEWAY, more)?;
        expect_state(&rt, alloc, &mut files, 0, &[], b"\n")?;
    }
    Ok(())
}

/// Checks that a state is written in so many pieces, and that a write that fails leaves those before it.
fn expect_pieces(
    rt: &impl Abort,
    alloc: Global,
    files: &mut MemFiles,
    pieces: u32,
) -> Result<(), Fail> {
    let whole = text(rt, alloc, files, STATE, 0)?;
    for (number, before) in [(1, 0), (2, 4096), (3, 8192), (4, 12_288)] {
        let mut out = MemSink::new(alloc, 65_536)?;
        out.fail_write(number)?;
        let status = answer(rt, alloc, files, STATE, &mut out)?;
        let written = if number <= pieces {
            check_eq(rt, status, 8);
            whole.bytes().get(..before)
        } else {
            check_eq(rt, status, 0);
            Some(whole.bytes())
        };
        assert!(rt; written == Some(out.bytes()));
    }
    Ok(())
}

#[test]
fn a_write_that_fails_leaves_the_pieces_before_it(rt: HostRuntime) -> Result<(), Fail> {
    let alloc = rt.alloc();
    let image = renamed_output(alloc)?;
    let log = RENAMED_OUTPUT_LOG.as_bytes();
    let mut files = files_with(alloc, image.as_slice(), &[], log)?;
    expect_pieces(&rt, alloc, &mut files, 1)?;
    let image = page(alloc)?;
    let roomy = [(Key::OutputBytes, "4096")];
    let mut files = files_with(alloc, image.as_slice(), &roomy, b"main\nmain\n")?;
    expect_pieces(&rt, alloc, &mut files, 3)
}

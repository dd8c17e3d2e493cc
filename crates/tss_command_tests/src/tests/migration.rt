// Logs of the older format, put into the present one.
use super::{answer, check_eq, expect as expect_over};
use std::alloc::Global;
use std::process::Abort;
use std::test::Fail;
use tss_outside::{MemFiles, MemSink};
use tss_programs::HI_LOG;

/// Files with a log, and room for another, which has these bytes.
fn files_with(alloc: Global, log: &[u8], other: &[u8]) -> Result<MemFiles, Fail> {
    let mut files = MemFiles::new(alloc);
    files.put("old", log)?;
    files.put("new", other)?;
    files.room("new", 4096)?;
    Ok(files)
}

/// Checks what `migrate OLD new` answers over these files, and what the new file then has.
fn expect(
    rt: &impl Abort,
    alloc: Global,
    files: &mut MemFiles,
    old: &str,
    status: u8,
    text: &[u8],
    new: &[u8],
) -> Result<(), Fail> {
    expect_over(rt, alloc, files, &["migrate", old, "new"], status, text)?;
    assert!(rt; files.bytes("new") == new);
    Ok(())
}

#[test]
fn logs_are_migrated_after_what_the_new_file_held(rt: HostRuntime) -> Result<(), Fail> {
    let alloc = rt.alloc();
    for (old, before, status, text, after) in [
        (
            b"".as_slice(),
            b"".as_slice(),
            0,
            b"migrated 0\n".as_slice(),
            b"tss-log 2\n".as_slice(),
        ),
        (
            b"main\ntake",
            b"main\n",
            0,
            b"migrated 2\n",
            b"main\ntss-log 2\nmain\ntake\n",
        ),
        (b"tss-log 2\nmain\n", b"", 5, b"schedule bad-line 1\n", b""),
        (
            b"main\ntake\nstart x\n",
            b"more",
            5,
            b"schedule bad-line 3\n",
            b"more",
        ),
    ] {
        let mut files = files_with(alloc, old, before)?;
        expect(&rt, alloc, &mut files, "old", status, text, after)?;
        assert!(rt; files.bytes("old") == old);
    }
    Ok(())
}

#[test]
fn a_whole_log_is_migrated(rt: HostRuntime) -> Result<(), Fail> {
    let alloc = rt.alloc();
    let mut files = files_with(alloc, HI_LOG.as_bytes(), b"main\n")?;
    let texts = ["migrate", "old", "new"];
    expect_over(&rt, alloc, &mut files, &texts, 0, b"migrated 21\n")?;
    let new = files.bytes("new");
    assert!(rt; new.strip_prefix(b"main\ntss-log 2\n") == Some(HI_LOG.as_bytes()));
    Ok(())
}

#[test]
fn a_log_goes_into_its_own_file_too(rt: HostRuntime) -> Result<(), Fail> {
    let alloc = rt.alloc();
    let mut files = files_with(alloc, b"", b"main\n")?;
    let both = b"main\ntss-log 2\nmain\n";
    expect(&rt, alloc, &mut files, "new", 0, b"migrated 1\n", both)
}

#[test]
fn faults_of_the_files_are_told(rt: HostRuntime) -> Result<(), Fail> {
    let alloc = rt.alloc();
    let mut unread = files_with(alloc, b"main\n", b"")?;
    unread.fail_read(1)?;
    expect(&rt, alloc, &mut unread, "old", 7, b"read schedule\n", b"")?;
    let mut missing = files_with(alloc, b"main\n", b"")?;
    expect(&rt, alloc, &mut missing, "gone", 7, b"read schedule\n", b"")?;
    let mut unwritten = files_with(alloc, b"main\n", b"")?;
    unwritten.fail_append(1)?;
    expect(&rt, alloc, &mut unwritten, "old", 8, b"write log\n", b"")
}

#[test]
fn a_log_of_one_byte_too_many_is_long(rt: HostRuntime) -> Result<(), Fail> {
    let alloc = rt.alloc();
    let log = vec![in alloc; b'\n'; 67_108_865]?;
    let mut files = files_with(alloc, log.as_slice(), b"")?;
    expect(&rt, alloc, &mut files, "old", 7, b"long schedule\n", b"")
}

#[test]
fn a_text_that_fails_leaves_the_log_appended(rt: HostRuntime) -> Result<(), Fail> {
    let alloc = rt.alloc();
    let mut files = files_with(alloc, b"main\n", b"")?;
    let mut out = MemSink::new(alloc, 4)?;
    let texts = ["migrate", "old", "new"];
    check_eq(&rt, answer(&rt, alloc, &mut files, &texts, &mut out)?, 8);
    assert!(rt; files.bytes("new") == b"tss-log 2\nmain\n".as_slice());
    Ok(())
}

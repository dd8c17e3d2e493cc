// Files and sinks that fail, those that never do, and real files.
use super::{GIVEN, IN_ORDER, LOGGED, answer, check_eq, expect, files_of, files_with, page, words};
use std::alloc::Global;
use std::process::Abort;
use std::rt::Files;
use std::test::Fail;
use tss_base::Key;
use tss_command::tss_main;
use tss_outside::{HonestFiles, HonestSink, MemSink, RealFiles};
use tss_programs::{RENAMED_OUTPUT_LOG, description, exit_seven, renamed_output};

#[test]
fn a_read_that_fails_is_told(rt: HostRuntime) -> Result<(), Fail> {
    let alloc = rt.alloc();
    let image = renamed_output(alloc)?;
    for (texts, number, text) in [
        (IN_ORDER, 1, b"read machine\n".as_slice()),
        (IN_ORDER, 2, b"read image\n"),
        (GIVEN, 1, b"read machine\n"),
        (GIVEN, 2, b"read image\n"),
        (GIVEN, 3, b"read schedule\n"),
    ] {
        let log = RENAMED_OUTPUT_LOG.as_bytes();
        let mut files = files_with(alloc, image.as_slice(), &[], log)?;
        files.fail_read(number)?;
        expect(&rt, alloc, &mut files, texts, 7, text)?;
    }
    Ok(())
}

#[test]
fn an_append_that_fails_is_told(rt: HostRuntime) -> Result<(), Fail> {
    let alloc = rt.alloc();
    let image = renamed_output(alloc)?;
    let mut files = files_with(alloc, image.as_slice(), &[], b"")?;
    files.fail_append(1)?;
    expect(&rt, alloc, &mut files, LOGGED, 8, b"write log\n")?;
    check_eq(&rt, files.bytes("out").len(), 0);
    Ok(())
}

#[test]
fn the_image_is_judged_before_the_schedule_is_read(rt: HostRuntime) -> Result<(), Fail> {
    let alloc = rt.alloc();
    let mut files = files_with(alloc, b"", &[], b"Main\n")?;
    files.fail_read(3)?;
    expect(&rt, alloc, &mut files, GIVEN, 3, b"image 1\n")
}

#[test]
fn files_of_one_byte_too_many_are_long(rt: HostRuntime) -> Result<(), Fail> {
    let alloc = rt.alloc();
    let long_machine = vec![in alloc; 0u8; 65_537]?;
    let mut files = files_of(alloc, b"", &long_machine, b"")?;
    expect(&rt, alloc, &mut files, IN_ORDER, 7, b"long machine\n")?;
    let long_image = vec![in alloc; 0u8; 33_554_433]?;
    let mut files = files_with(alloc, &long_image, &[], b"")?;
    expect(&rt, alloc, &mut files, IN_ORDER, 7, b"long image\n")
}

#[test]
fn a_write_that_fails_is_told(rt: HostRuntime) -> Result<(), Fail> {
    let alloc = rt.alloc();
    let image = page(alloc)?;
    let roomy = [(Key::OutputBytes, "4096")];
    let mut report = Vec::from_slice(alloc, b"end exit 0\ntasks 0\noutput 4096\n")?;
    report.extend_from_slice(&[0u8; 4096])?;
    for (number, written) in [(1, 0), (2, 4096)] {
        let mut files = files_with(alloc, image.as_slice(), &roomy, b"")?;
        let mut out = MemSink::new(alloc, 8192)?;
        out.fail_write(number)?;
        check_eq(&rt, answer(&rt, alloc, &mut files, IN_ORDER, &mut out)?, 8);
        assert!(&rt; report.as_slice().get(..written) == Some(out.bytes()));
    }
    Ok(())
}

#[test]
fn honest_files_and_an_honest_sink_have_no_faults(rt: HostRuntime) -> Result<(), Fail> {
    let alloc = rt.alloc();
    let mut files = HonestFiles::new(alloc);
    files.put("image", exit_seven(alloc)?.as_slice())?;
    files.put("machine", description(alloc, &[])?.as_str().as_bytes())?;
    files.put("schedule", b"main\nmain\n")?;
    for texts in [IN_ORDER, LOGGED, GIVEN] {
        let words = words(alloc, texts)?;
        let mut out = HonestSink::new();
        check_eq(
            &rt,
            tss_main(alloc, words.as_slice(), &mut files, &mut out),
            0,
        );
    }
    Ok(())
}

/// Checks the answer on the machine's own files.
fn expect_real(
    rt: &(impl Abort + Files),
    alloc: Global,
    image: &str,
    machine: &str,
    status: u8,
    text: &[u8],
) -> Result<(), Fail> {
    let words = words(alloc, &["inorder", image, machine])?;
    let mut files = RealFiles::new(rt, words.as_slice());
    let mut out = MemSink::new(alloc, 256)?;
    check_eq(
        rt,
        tss_main(alloc, words.as_slice(), &mut files, &mut out),
        status,
    );
    assert!(rt; out.bytes() == text);
    Ok(())
}

#[test]
fn real_files_are_read_and_missing_ones_and_folders_are_not(rt: HostRuntime) -> Result<(), Fail> {
    let alloc = rt.alloc();
    std::fs::create_dir(&rt, "folder")?;
    std::fs::write(&rt, "image", exit_seven(alloc)?.as_slice())?;
    std::fs::write(&rt, "machine", description(alloc, &[])?.as_str())?;
    let report = b"end exit 7\ntasks 0\noutput 0\n\n";
    expect_real(&rt, alloc, "image", "machine", 0, report)?;
    expect_real(&rt, alloc, "image", "missing", 7, b"read machine\n")?;
    expect_real(&rt, alloc, "missing", "machine", 7, b"read image\n")?;
    expect_real(&rt, alloc, "image", "folder", 7, b"read machine\n")?;
    expect_real(&rt, alloc, "folder", "machine", 7, b"read image\n")?;
    std::fs::remove_dir(&rt, "folder")?;
    std::fs::remove_file(&rt, "image")?;
    std::fs::remove_file(&rt, "machine")?;
    Ok(())
}

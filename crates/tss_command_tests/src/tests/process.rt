// From the arguments of a process to its status.
use super::{USAGE, check_eq, words as texts};
use std::alloc::Global;
use std::io;
use std::io::ErrorKind;
use std::process::{Abort, ExitCode};
use std::test::Fail;
use tss_command::{exit_code, words};
use tss_outside::{HonestFiles, MemSink};
use tss_programs::{description, exit_seven};

/// Checks the words of arguments, which are the program's name and these.
fn expect_words(rt: &impl Abort, alloc: Global, args: &[&str]) -> Result<(), Fail> {
    let found = words(alloc, Ok(texts(alloc, args)?.into_iter()))?;
    check_eq(rt, found.len(), args.len().saturating_sub(1));
    for (i, word) in found.iter().enumerate() {
        assert!(rt; args.get(i.saturating_add(1)) == Some(&word.as_str()));
    }
    Ok(())
}

#[test]
fn the_words_are_all_arguments_but_the_first(rt: HostRuntime) -> Result<(), Fail> {
    let alloc = rt.alloc();
    expect_words(&rt, alloc, &[])?;
    expect_words(&rt, alloc, &["tss"])?;
    expect_words(&rt, alloc, &["tss", "inorder", "image", "machine"])?;
    expect_words(
        &rt,
        alloc,
        &["tss", "1", "", " 3", "4", "5", "6", "7", "8", "9"],
    )?;
    let no_text = words(alloc, Err(io::Error::from(ErrorKind::InvalidData)))?;
    check_eq(&rt, no_text.len(), 0);
    let no_memory = words(alloc, Err(io::Error::from(ErrorKind::OutOfMemory)));
    assert!(rt; no_memory.is_err());
    Ok(())
}

#[test]
fn the_process_ends_with_the_answer(rt: HostRuntime) -> Result<(), Fail> {
    let alloc = rt.alloc();
    let mut files = HonestFiles::new(alloc);
    files.put("image", exit_seven(alloc)?.as_slice())?;
    files.put("machine", description(alloc, &[])?.as_str().as_bytes())?;
    let words = texts(alloc, &["inorder", "image", "machine"])?;
    let fewer = texts(alloc, &["inorder", "image"])?;
    for (words, room, status, text) in [
        (
            Some(words.as_slice()),
            64,
            0,
            b"end exit 7\ntasks 0\noutput 0\n\n".as_slice(),
        ),
        (Some(words.as_slice()), 4, 8, b""),
        (Some(fewer.as_slice()), 256, 6, USAGE),
        (None, 64, 9, b""),
    ] {
        let mut out = MemSink::new(alloc, room)?;
        let code = exit_code(alloc, words, &mut files, &mut out);
        assert!(rt; code == ExitCode::from(status));
        assert!(rt; out.bytes() == text);
    }
    Ok(())
}

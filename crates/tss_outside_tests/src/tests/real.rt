// The machine's own files. The tests of a run may share a folder: each has names of its own, and
// removes its files.
use super::check_eq;
use std::alloc::{AllocError, Global};
use std::fs;
use std::test::Fail;
use tss_outside::{FileFault, Files, RealFiles, RealSink, Sink};

/// These names.
fn names(alloc: Global, texts: &[&str]) -> Result<Vec<String>, AllocError> {
    let mut names = Vec::new(alloc);
    for text in texts {
        names.push(String::from_str(alloc, text)?)?;
    }
    Ok(names)
}

/// So many bytes, of which no block is like another.
fn counted(alloc: Global, len: u32) -> Result<Vec<u8>, AllocError> {
    let mut bytes = Vec::new(alloc);
    for i in 0..len {
        bytes.push((i / 251 % 256) as u8 ^ (i % 251) as u8)?;
    }
    Ok(bytes)
}

#[test]
fn files_are_appended_and_read(rt: HostRuntime) -> Result<(), Fail> {
    let alloc = rt.alloc();
    let names = names(alloc, &["log"])?;
    let mut files = RealFiles::new(&rt, names.as_slice());
    assert!(rt; matches!(files.read(alloc, "log", 9), Err(FileFault::Failed)));
    assert!(rt; files.append("log", b"one\n").is_ok());
    assert!(rt; files.append("log", b"two\n").is_ok());
    check_eq(
        &rt,
        files.read(alloc, "log", 8)?.as_slice(),
        b"one\ntwo\n".as_slice(),
    );
    assert!(rt; matches!(files.read(alloc, "log", 7), Err(FileFault::TooLong(8))));
    assert!(rt; matches!(files.read(alloc, ".", 7), Err(FileFault::Failed)));
    assert!(rt; files.append(".", b"x").is_err());
    assert!(rt; RealSink::new(&rt).write_piece(b"").is_ok());
    fs::remove_file(&rt, "log")?;
    Ok(())
}

#[test]
fn whole_files_are_read(rt: HostRuntime) -> Result<(), Fail> {
    let alloc = rt.alloc();
    let names = names(alloc, &["file"])?;
    let mut files = RealFiles::new(&rt, names.as_slice());
    for len in [0, 1, 16_384, 16_385, 70_000] {
        let bytes = counted(alloc, len)?;
        fs::write(&rt, "file", bytes.as_slice())?;
        let limit = u64::from(len);
        assert!(rt; files.read(alloc, "file", limit)?.as_slice() == bytes.as_slice());
        assert!(rt; files.read(alloc, "file", u64::MAX)?.as_slice() == bytes.as_slice());
        if len > 0 {
            let read = files.read(alloc, "file", limit.saturating_sub(1));
            assert!(rt; matches!(&read, Err(FileFault::TooLong(n)) if *n == limit));
        }
    }
    fs::remove_file(&rt, "file")?;
    Ok(())
}

#[test]
fn a_file_that_was_appended_in_pieces_is_whole(rt: HostRuntime) -> Result<(), Fail> {
    let alloc = rt.alloc();
    let names = names(alloc, &["pieces"])?;
    let mut files = RealFiles::new(&rt, names.as_slice());
    let bytes = counted(alloc, 40_000)?;
    for piece in bytes.as_slice().chunks(4096) {
        assert!(rt; files.append("pieces", piece).is_ok());
    }
    assert!(rt; files.append("pieces", b"").is_ok());
    assert!(rt; fs::read(&rt, "pieces")?.as_slice() == bytes.as_slice());
    assert!(rt; files.read(alloc, "pieces", 40_000)?.as_slice() == bytes.as_slice());
    fs::remove_file(&rt, "pieces")?;
    Ok(())
}

#[test]
fn a_name_is_taken_as_it_is(rt: HostRuntime) -> Result<(), Fail> {
    let alloc = rt.alloc();
    let names = names(alloc, &["name", " name", "name "])?;
    let mut files = RealFiles::new(&rt, names.as_slice());
    for name in names.iter() {
        assert!(rt;
            files
                .append(name.as_str(), name.as_str().as_bytes())
                .is_ok()
        );
    }
    for name in names.iter() {
        let bytes = files.read(alloc, name.as_str(), 9)?;
        assert!(rt; bytes.as_slice() == name.as_str().as_bytes());
        fs::remove_file(&rt, name.as_str())?;
    }
    Ok(())
}

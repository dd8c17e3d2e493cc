// Forms in memory.
use super::check_eq;
use std::test::Fail;
use tss_outside::{Failed, FileFault, Files, HonestFiles, HonestSink, MemFiles, MemSink, Sink};

#[test]
fn files_in_memory_hold_and_fail(rt: HostRuntime) -> Result<(), Fail> {
    let alloc = rt.alloc();
    let mut files = MemFiles::new(alloc);
    files.put("a", b"abc")?;
    files.room("b", 4)?;
    files.room("a", 1)?;
    files.fail_read(2)?;
    files.fail_append(3)?;
    check_eq(
        &rt,
        files.read(alloc, "a", 3)?.as_slice(),
        b"abc".as_slice(),
    );
    assert!(rt; matches!(files.read(alloc, "a", 3), Err(FileFault::Failed)));
    assert!(rt; matches!(files.read(alloc, "a", 2), Err(FileFault::TooLong(3))));
    assert!(rt; matches!(files.read(alloc, "b", 9), Err(FileFault::Failed)));
    assert!(rt; matches!(files.read(alloc, "c", 9), Err(FileFault::Failed)));
    assert!(rt; files.append("b", b"xy").is_ok());
    assert!(rt; files.append("a", b"de").is_err());
    assert!(rt; files.append("b", b"z").is_err());
    assert!(rt; files.append("b", b"z").is_ok());
    assert!(rt; files.append("c", b"").is_err());
    check_eq(&rt, files.bytes("b"), b"xyz".as_slice());
    check_eq(&rt, files.bytes("a"), b"abc".as_slice());
    check_eq(&rt, files.bytes("c").len(), 0);
    files.put("a", b"")?;
    assert!(rt; files.append("a", b"f").is_ok());
    check_eq(&rt, files.bytes("a"), b"f".as_slice());
    Ok(())
}

#[test]
fn a_sink_in_memory_fills(rt: HostRuntime) -> Result<(), Fail> {
    let mut sink = MemSink::new(rt.alloc(), 5)?;
    sink.fail_write(2)?;
    assert!(rt; sink.write_piece(b"abc").is_ok());
    check_eq(&rt, sink.write_piece(b"d"), Err(Failed));
    check_eq(&rt, sink.write_piece(b"def"), Err(Failed));
    assert!(rt; sink.write_piece(b"de").is_ok());
    check_eq(&rt, sink.bytes(), b"abcde".as_slice());
    Ok(())
}

#[test]
fn honest_forms_never_fail(rt: HostRuntime) -> Result<(), Fail> {
    let alloc = rt.alloc();
    let mut files = HonestFiles::new(alloc);
    files.put("a", b"abc")?;
    check_eq(
        &rt,
        files.read(alloc, "a", 3)?.as_slice(),
        b"abc".as_slice(),
    );
    check_eq(&rt, files.read(alloc, "b", 3)?.len(), 0);
    assert!(rt; files.append("b", b"x").is_ok());
    assert!(rt; HonestSink::new().write_piece(b"x").is_ok());
    Ok(())
}

// What no clause says: the sizes of the pieces.
use super::{check_eq, write_after};
use std::alloc::Global;
use std::process::Abort;
use std::test::Fail;
use tss_asm::AsmFault;
use tss_base::Key;
use tss_outside::MemSink;
use tss_programs::Source;

/// A program that prints a page of zeros.
fn page(alloc: Global) -> Result<Vec<u8>, AsmFault> {
    let mut main = Source::open(alloc)?;
    main.print(0x20000, 4096)?;
    main.exit(0)?;
    main.image()
}

/// Checks whether the state can be written where one write fails, and how many bytes were put.
fn puts(rt: &impl Abort, alloc: Global, failing: u32, whole: bool, len: usize) -> Result<(), Fail> {
    let bytes = page(alloc)?;
    let changes = [(Key::OutputBytes, "4096")];
    let log = "main\nmain\nmain\nmain\n";
    let mut out = MemSink::new(alloc, 16384)?;
    out.fail_write(failing)?;
    let written = write_after(rt, alloc, &bytes, &changes, log, 4, &mut out)?;
    check_eq(rt, written, whole);
    check_eq(rt, out.bytes().len(), len);
    Ok(())
}

#[test]
fn pieces_have_4096_bytes(rt: HostRuntime) -> Result<(), Fail> {
    // Beside the digits of the page the text has 386 bytes.
    for (failing, whole, len) in [
        (1, false, 0),
        (2, false, 4096),
        (3, false, 8192),
        (4, true, 8578),
    ] {
        puts(&rt, rt.alloc(), failing, whole, len)?;
    }
    Ok(())
}

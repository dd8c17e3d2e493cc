// All bytes of a reader, and all bytes into a writer.
ghost use Rattle.std.specs.Prelude.{◌≡◌, ℕ, List};
ghost use Rattle.tss_outside.specs.Moving.{ReadsAll, PutsAll};

use crate::files::{Failed, FileFault};
use std::alloc::Global;
use std::io::{ErrorKind, Read, Write};

/// Reads to the end, of which there may be `limit` bytes. Where there are more, one more is read.
pub(crate) fn read_all<R: Read + Drop>(
    alloc: Global,
    reader: R,
    limit: u64,
) -> Result<Vec<u8>, FileFault>
    ensures { ReadsAll (R.remaining reader) limit result }
{
    let mut bytes = Vec::new(alloc);
    match reader.take(limit.saturating_add(1)).read_to_end(&mut bytes) {
        Ok(n) if n as u64 > limit => Err(FileFault::TooLong(n as u64)),
        Ok(_) => Ok(bytes),
        Err(e) if e.kind() == ErrorKind::OutOfMemory => Err(FileFault::NoMemory),
        Err(_) => Err(FileFault::Failed),
    }
}

/// Writes all bytes, piece after piece as the writer takes them. One that takes nothing has failed.
pub(crate) fn write_all<W: Write>(writer: &mut W, bytes: &[u8]) -> Result<(), Failed>
    ensures { PutsAll (W.contents writer.old) (W.contents writer.new) bytes.now result }
{
    let mut rest = bytes;
    for _ in 0..u64::MAX {
        if rest.is_empty() {
            return Ok(());
        }
        match writer.write(rest) {
            Ok(0) => return Err(Failed),
            Ok(n) => rest = &rest[n..],
            Err(e) => {
                if e.kind() != ErrorKind::Interrupted {
                    return Err(Failed);
                }
            }
        }
    }
    Err(Failed)
}

// The real forms over a machine that moves a few bytes at a call, or fails.
use super::check_eq;
use std::alloc::{Allocator, Global};
use std::cell::Cell;
use std::fmt::Display;
use std::fs::{Metadata, OpenFile, OpenOptions};
use std::io::{ErrorKind, Print, Read, Seek, SeekFrom, Write};
use std::test::Fail;
use std::{io, rt};
use tss_outside::{Failed, FileFault, Files, RealFiles, RealSink, Sink};

/// A file that gives so many bytes, the first being 0 and each one more than the last, three at a call, and fails at the
/// call of a number, from 1.
#[derive(Drop)]
struct Trickle {
    len: usize,
    given: usize,
    calls: u32,
    failing: u32,
    kind: ErrorKind,
}

impl Read for Trickle {
    fn read(&mut self, buf: &mut [u8]) -> io::Result<usize> {
        self.calls = self.calls.saturating_add(1);
        if self.calls == self.failing {
            return Err(io::Error::from(self.kind));
        }
        let n = self.len.saturating_sub(self.given).min(3).min(buf.len());
        for i in 0..n {
            buf[i] = (self.given.saturating_add(i) % 256) as u8;
        }
        self.given = self.given.saturating_add(n);
        Ok(n)
    }
}

/// What the machine and its files can't do.
fn unsupported() -> io::Error {
    io::Error::from(ErrorKind::Unsupported)
}

impl Write for Trickle {
    fn write(&mut self, _buf: &[u8]) -> io::Result<usize> {
        Err(unsupported())
    }

    fn flush(&mut self) -> io::Result<()> {
        Err(unsupported())
    }
}

impl Seek for Trickle {
    fn seek(&mut self, _to: SeekFrom) -> io::Result<u64> {
        Err(unsupported())
    }
}

impl OpenFile for Trickle {
    fn metadata(&self) -> io::Result<Metadata> {
        Err(unsupported())
    }

    fn set_len(&self, _size: u64) -> io::Result<()> {
        Err(unsupported())
    }

    fn sync_all(&self) -> io::Result<()> {
        Err(unsupported())
    }

    fn sync_data(&self) -> io::Result<()> {
        Err(unsupported())
    }
}

/// A machine whose every file is such a one, and which does nothing else.
#[derive(Drop)]
struct Slow {
    len: usize,
    failing: u32,
    kind: ErrorKind,
}

impl Slow {
    fn file(&self) -> Trickle {
        Trickle {
            len: self.len,
            given: 0,
            calls: 0,
            failing: self.failing,
            kind: self.kind,
        }
    }
}

impl rt::Files for Slow {
    type File = Trickle;

    type Dir = Trickle;

    fn open_file(&self, _how: &OpenOptions, _path: &str) -> io::Result<Trickle> {
        Ok(self.file())
    }

    fn open_dir(&self, _path: &str) -> io::Result<Trickle> {
        Err(unsupported())
    }

    fn metadata(&self, _path: &str) -> io::Result<Metadata> {
        Err(unsupported())
    }

    fn symlink_metadata(&self, _path: &str) -> io::Result<Metadata> {
        Err(unsupported())
    }

    fn copy(&self, _from: &str, _to: &str) -> io::Result<u64> {
        Err(unsupported())
    }

    fn rename(&self, _from: &str, _to: &str) -> io::Result<()> {
        Err(unsupported())
    }

    fn remove_file(&self, _path: &str) -> io::Result<()> {
        Err(unsupported())
    }

    fn create_dir(&self, _path: &str) -> io::Result<()> {
        Err(unsupported())
    }

    fn remove_dir(&self, _path: &str) -> io::Result<()> {
        Err(unsupported())
    }

    fn remove_dir_all<B: Allocator>(&self, _alloc: B, _path: &str) -> io::Result<()> {
        Err(unsupported())
    }
}

/// What a file of such a machine comes to.
fn trickled(
    alloc: Global,
    len: usize,
    failing: u32,
    kind: ErrorKind,
    limit: u64,
) -> Result<Vec<u8>, FileFault> {
    let machine = Slow { len, failing, kind };
    RealFiles::new(&machine, &[]).read(alloc, "a", limit)
}

#[test]
fn a_file_of_few_bytes_at_a_call_is_read_to_its_end(rt: HostRuntime) -> Result<(), Fail> {
    let alloc = rt.alloc();
    for (len, failing, kind) in [
        (0, 0, ErrorKind::Other),
        (1, 0, ErrorKind::Other),
        (400, 0, ErrorKind::Other),
        (20000, 0, ErrorKind::Other),
        // An interrupted call is made again.
        (400, 2, ErrorKind::Interrupted),
    ] {
        let bytes = trickled(alloc, len, failing, kind, len as u64)?;
        check_eq(&rt, bytes.len(), len);
        for (i, byte) in bytes.iter().enumerate() {
            check_eq(&rt, usize::from(*byte), i % 256);
        }
    }
    Ok(())
}

#[test]
fn a_file_that_fails_or_has_more_is_told(rt: HostRuntime) -> Result<(), Fail> {
    let alloc = rt.alloc();
    for (failing, kind, limit) in [
        (1, ErrorKind::Other, 400),
        (3, ErrorKind::PermissionDenied, 400),
        // The end itself is a call.
        (135, ErrorKind::Other, 400),
    ] {
        let read = trickled(alloc, 400, failing, kind, limit);
        assert!(rt; matches!(read, Err(FileFault::Failed)));
    }
    for (limit, number) in [(399, 400), (7, 8), (0, 1)] {
        let read = trickled(alloc, 400, 0, ErrorKind::Other, limit);
        assert!(rt; matches!(&read, Err(FileFault::TooLong(n)) if *n == number));
    }
    Ok(())
}

/// A standard output that takes three bytes at a call, fails at the call of a number, from 1, and takes nothing once it
/// has so many bytes.
#[derive(Drop)]
struct Narrow {
    taken: Cell<usize>,
    room: usize,
    calls: Cell<u32>,
    failing: u32,
    kind: ErrorKind,
}

impl Print for Narrow {
    fn print<D: Display + Drop>(&self, _value: D) -> io::Result<()> {
        Ok(())
    }

    fn println<D: Display + Drop>(&self, _value: D) -> io::Result<()> {
        Ok(())
    }

    fn write_all(&self, _bytes: &[u8]) -> io::Result<()> {
        Ok(())
    }

    fn write_some(&self, bytes: &[u8]) -> io::Result<usize> {
        self.calls.set(self.calls.get().saturating_add(1));
        if self.calls.get() == self.failing {
            return Err(io::Error::from(self.kind));
        }
        let n = self
            .room
            .saturating_sub(self.taken.get())
            .min(3)
            .min(bytes.len());
        self.taken.set(self.taken.get().saturating_add(n));
        Ok(n)
    }
}

#[test]
fn the_real_sink_puts_a_whole_piece_or_fails(rt: HostRuntime) {
    for (room, failing, kind, put, taken) in [
        (99, 0, ErrorKind::Other, Ok(()), 10),
        (99, 2, ErrorKind::Interrupted, Ok(()), 10),
        (99, 3, ErrorKind::StorageFull, Err(Failed), 6),
        (99, 4, ErrorKind::BrokenPipe, Err(Failed), 9),
        (8, 0, ErrorKind::Other, Err(Failed), 8),
        (0, 0, ErrorKind::Other, Err(Failed), 0),
    ] {
        let out = Narrow {
            taken: Cell::new(0),
            room,
            calls: Cell::new(0),
            failing,
            kind,
        };
        assert_eq!(rt; RealSink::new(&out).write_piece(b"0123456789"), put);
        assert_eq!(rt; out.taken.get(), taken);
    }
}

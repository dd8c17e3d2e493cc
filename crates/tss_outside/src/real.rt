// The machine's files and standard output.
ghost use Rattle.std.specs.Prelude.{◌≡◌, ◌<◌, ◌≤◌, ℕ, List, map, true, false, None, Option, length, vec_len, take, IfOk, OnOk, OnErr, IsErrOf, replicate, slice_set, slice_index, string_bytes};
ghost use Rattle.std.specs.List.{position_or_len};
ghost use Rattle.std.specs.Str.{bytes_eq};
ghost use Rattle.tss_outside.specs.Outside.{risen, Rose, RaisesOnly};
ghost use Rattle.tss_outside.specs.Real.{count_of, count_place, is_counted, no_faults};

use crate::files::{Failed, FileFault, Files};
use crate::moving::{read_all, write_all};
use crate::sink::Sink;
use std::alloc::Global;
use std::fs::OpenOptions;
use std::marker::Model;
use std::{fs, io, rt};

/// How many names have counts of their own.
const COUNTED: usize = 8;

/// The machine's files. The first eight of the names that it is made over have counts of their own. No content is told.
#[derive(Drop)]
pub struct RealFiles<'a, R: rt::Files> {
    rt: &'a R,
    names: &'a [String],
    read_faults: [u64; 9],
    append_faults: [u64; 9],
}

impl<'a, R: rt::Files> Model for RealFiles<'a, R> {
    ghost use Rattle.std.specs.Prelude.{map, string_bytes};
    ghost use Rattle.tss_outside.specs.Real.{RealFilesState};

    ghost Value = { RealFilesState };

    ghost view = { λ s. record { names = map string_bytes s.names.now; read_faults = s.read_faults; append_faults = s.append_faults } };
}

// The place of the first of these names that is this one, or their number.
fn first_place(names: &[String], name: &str) -> usize
    ensures { result ≡ position_or_len (λ w. bytes_eq (string_bytes w) name.now) names.now }
{
    for (i, w) in names.iter().enumerate() {
        if w.as_str() == name {
            return i;
        }
    }
    names.len()
}

// Where the count of a name stands.
fn place_of(names: &[String], name: &str) -> usize
    ensures { result ≡ count_place (map string_bytes names.now) name.now }
{
    first_place(&names[..names.len().min(COUNTED)], name)
}

// Counts one more fault at a place.
fn raise(counts: &mut [u64], place: usize)
    requires { place < length counts.old }
    ensures risen { counts.new ≡ slice_set counts.old place (risen (slice_index counts.old place)) }
    ensures never_falls { (k : ℕ) → slice_index counts.old k ≤ slice_index counts.new k }
{
    counts[place] = counts[place].saturating_add(1);
}

// All bytes of a file.
fn read_whole<R: rt::Files>(
    rt: &R,
    alloc: Global,
    name: &str,
    limit: u64,
) -> Result<Vec<u8>, FileFault>
    ensures short { IfOk result (λ v. vec_len v ≤ limit) }
    ensures too_long { (n : ℕ) → IsErrOf result (FileFault.TooLong n) → limit < n }
{
    match fs::open(rt, name) {
        Ok(file) => read_all(alloc, file, limit),
        Err(_) => Err(FileFault::Failed),
    }
}

// Puts bytes at the end of a file, which is made where there is none.
fn append_whole<R: rt::Files>(rt: &R, name: &str, bytes: &[u8]) -> Result<(), Failed> {
    let mut options = OpenOptions::new();
    options.append(true).create(true);
    match options.open(rt, name) {
        Ok(mut file) => write_all(&mut file, bytes),
        Err(_) => Err(Failed),
    }
}

impl<'a, R: rt::Files> RealFiles<'a, R> {
    /// The machine's files, with counts for the first eight of these names.
    pub fn new(rt: &'a R, names: &'a [String]) -> RealFiles<'a, R>
        ensures { result ≡ no_faults (map string_bytes names.now) }
    {
        RealFiles {
            rt,
            names,
            read_faults: [0; 9],
            append_faults: [0; 9],
        }
    }
}

impl<'a, R: rt::Files> Files for RealFiles<'a, R> {
    ghost held = { λ s. None };

    ghost knows = { λ s n. is_counted s.names n };

    ghost read_faults = { λ s n. count_of s.names s.read_faults n };

    ghost append_faults = { λ s n. count_of s.names s.append_faults n };

    fn read(&mut self, alloc: Global, name: &str, limit: u64) -> Result<Vec<u8>, FileFault> {
        let place = place_of(self.names, name);
        match read_whole(self.rt, alloc, name, limit) {
            Err(FileFault::Failed) => {
                raise(&mut self.read_faults, place);
                Err(FileFault::Failed)
            }
            other => other,
        }
    }

    fn append(&mut self, name: &str, bytes: &[u8]) -> Result<(), Failed> {
        let place = place_of(self.names, name);
        match append_whole(self.rt, name, bytes) {
            Ok(()) => Ok(()),
            Err(Failed) => {
                raise(&mut self.append_faults, place);
                Err(Failed)
            }
        }
    }

    ghost use Rattle.tss_outside.specs.Real.{shared_count};

    ghost shared_read_faults = { λ s n m. shared_count s.names s.read_faults n m };

    ghost shared_append_faults = { λ s n m. shared_count s.names s.append_faults n m };
}

/// The machine's standard output. What was written is not told.
#[derive(Drop)]
pub struct RealSink<'a, R: Print> {
    rt: &'a R,
    faults: u64,
}

impl<'a, R: Print> Model for RealSink<'a, R> {
    ghost use Rattle.tss_outside.specs.Real.{RealSinkState};

    ghost Value = { RealSinkState };

    ghost view = { λ s. record { faults = s.faults } };
}

impl<'a, R: Print> RealSink<'a, R> {
    /// The machine's standard output, with no fault yet.
    pub fn new(rt: &'a R) -> RealSink<'a, R>
        ensures { result ≡ record { faults = 0 } }
    {
        RealSink { rt, faults: 0 }
    }
}

impl<'a, R: Print> Sink for RealSink<'a, R> {
    ghost written = { λ s. None };

    ghost faults = { λ s. s.faults };

    fn write_piece(&mut self, bytes: &[u8]) -> Result<(), Failed> {
        match write_all(&mut io::writer(self.rt), bytes) {
            Ok(()) => Ok(()),
            Err(Failed) => {
                self.faults = self.faults.saturating_add(1);
                Err(Failed)
            }
        }
    }
}

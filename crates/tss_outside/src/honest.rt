// Files and a sink that never fail and keep nothing of what is appended or written.
ghost use Rattle.std.specs.Prelude.{◌≡◌, ◌≢◌, ◌≤◌, ◌<◌, ℕ, List, [], true, false, Option, Some, None, length, vec_len, IfOk, IfSome, OnOk, OnErr, IsOk, IsErrOf};
ghost use Rattle.tss_outside.specs.Outside.{Rose, RaisesOnly, AppendsTo, PutsPrefixTo};
ghost use Rattle.tss_outside.specs.MemFiles.{no_files};
ghost use Rattle.tss_outside.specs.Honest.{honest_held, honest_bytes};

use crate::files::{Failed, FileFault, Files};
use crate::mem_files::MemFiles;
use crate::sink::Sink;
use std::alloc::Global;
use std::marker::Model;
use tss_base::NoMemory;

/// Files that never fail and know every name. They hold what was put under a name, and no bytes elsewhere, and tell it
/// until something is appended, which they don't keep.
#[derive(Drop, Debug)]
pub struct HonestFiles {
    files: MemFiles,
    is_told: bool,
}

impl Model for HonestFiles {
    ghost use Rattle.tss_outside.specs.Honest.{HonestFilesState};

    ghost Value = { HonestFilesState };

    ghost view = { λ s. record { files = s.files; is_told = s.is_told } };
}

impl HonestFiles {
    /// No bytes under any name, which is told.
    pub fn new(alloc: Global) -> HonestFiles
        ensures { result ≡ record { files = no_files; is_told = true } }
    {
        HonestFiles {
            files: MemFiles::new(alloc),
            is_told: true,
        }
    }

    /// Has a file hold these bytes.
    pub fn put(&mut self, name: &str, bytes: &[u8]) -> Result<(), NoMemory>
        ensures ok { OnOk result (honest_bytes self.new name.now ≡ bytes.now) }
        ensures others { (n : List ℕ) → n ≢ name.now → honest_bytes self.new n ≡ honest_bytes self.old n }
        ensures told { self.new.is_told ≡ self.old.is_told }
        ensures err { OnErr result (self.new ≡ self.old) }
    {
        self.files.put(name, bytes)
    }
}

impl Files for HonestFiles {
    ghost held = { honest_held };

    ghost knows = { λ s n. true };

    ghost read_faults = { λ s n. 0 };

    ghost append_faults = { λ s n. 0 };

    fn read(&mut self, alloc: Global, name: &str, limit: u64) -> Result<Vec<u8>, FileFault> {
        let bytes = self.files.bytes(name);
        let len = bytes.len() as u64;
        if len > limit {
            return Err(FileFault::TooLong(len));
        }
        match Vec::from_slice(alloc, bytes) {
            Ok(bytes) => Ok(bytes),
            Err(_) => Err(FileFault::NoMemory),
        }
    }

    fn append(&mut self, _name: &str, _bytes: &[u8]) -> Result<(), Failed> {
        self.is_told = false;
        Ok(())
    }

    ghost use Rattle.std.proofs.Common.{refl};

    ghost shared_read_faults = { λ s n m p q. refl };

    ghost shared_append_faults = { λ s n m p q. refl };
}

/// A sink that never fails and tells nothing.
#[derive(Drop, Debug)]
pub struct HonestSink {}

impl HonestSink {
    /// A sink.
    pub fn new() -> HonestSink {
        HonestSink {}
    }
}

impl Sink for HonestSink {
    ghost written = { λ s. None };

    ghost faults = { λ s. 0 };

    fn write_piece(&mut self, _bytes: &[u8]) -> Result<(), Failed> {
        Ok(())
    }
}

// Files in memory.
ghost use Rattle.std.specs.Prelude.{◌≡◌, ◌≢◌, ◌<◌, ◌+◌, ◌≤◌, ◌++◌, ◌∷◌, [], ℕ, List, Bool, false, Option, Some, None, length, vec_len, IfOk, OnOk, OnErr, IfSome, IsErr, IsErrOf, IsTrue, IsFalse, MatchResult, ◌↔◌, position, unwrap_or};
ghost use Rattle.tss_outside.specs.Outside.{Held, Rose, AppendsTo, PutsPrefixTo, RaisesOnly, risen};
ghost use Rattle.tss_outside.specs.MemFiles.{ChangesFile, bytes_of, is_known, read_faults_of, append_faults_of, file_or_new, fails_append, fails_read, has_name, no_files, AfterRead, AfterAppend};

use crate::files::{Failed, FileFault, Files};
use crate::mem_file::MemFile;
use std::alloc::Global;
use std::marker::Model;
use tss_base::NoMemory;

/// Files in memory, with lists of the reads and appends that are to fail, which are numbered apart. They tell their bytes.
/// An append needs room that was given before, and takes no memory.
#[derive(Drop, Debug)]
pub struct MemFiles {
    alloc: Global,
    files: Vec<MemFile>,
    failing_reads: Vec<u64>,
    failing_appends: Vec<u64>,
    reads: u64,
    appends: u64,
    other_read_faults: u64,
    other_append_faults: u64,
}

impl Model for MemFiles {
    ghost use Rattle.tss_outside.specs.MemFiles.{MemFilesState};

    ghost Value = { MemFilesState };

    ghost view = { λ s. record {
      files = s.files.items;
      failing_reads = s.failing_reads.items;
      failing_appends = s.failing_appends.items;
      reads = s.reads;
      appends = s.appends;
      other_read_faults = s.other_read_faults;
      other_append_faults = s.other_append_faults;
    } };
}

// Where a name stands among the files.
fn place_of(files: &[MemFile], name: &str) -> Option<usize>
    ensures { result ≡ position (has_name name.now) files.now }
{
    files.iter().position(|f| f.has_name(name))
}

impl MemFiles {
    /// No files, and no known name.
    pub fn new(alloc: Global) -> MemFiles
        ensures { result ≡ no_files }
    {
        MemFiles {
            alloc,
            files: Vec::new(alloc),
            failing_reads: Vec::new(alloc),
            failing_appends: Vec::new(alloc),
            reads: 0,
            appends: 0,
            other_read_faults: 0,
            other_append_faults: 0,
        }
    }

    /// Makes a name known and has the file hold these bytes. Its room stays as it was.
    pub fn put(&mut self, name: &str, bytes: &[u8]) -> Result<(), NoMemory>
        ensures ok { OnOk result (ChangesFile self.old self.new name.now
            (record (file_or_new self.old name.now) { bytes = Some bytes.now })) }
        ensures err { OnErr result (self.new ≡ self.old) }
    {
        let alloc = self.alloc;
        match place_of(self.files.as_slice(), name) {
            Some(i) => {
                let file = &mut self.files[i];
                file.put(alloc, bytes)?;
                Ok(())
            }
            None => {
                let mut file = MemFile::new(
                    alloc,
                    name,
                    self.other_read_faults,
                    self.other_append_faults,
                )?;
                file.put(alloc, bytes)?;
                self.files.push(file)?;
                Ok(())
            }
        }
    }

    /// Makes a name known and gives appends to it so many further bytes of room. No file is made by it.
    pub fn room(&mut self, name: &str, more: u32) -> Result<(), NoMemory>
        ensures ok { OnOk result (ChangesFile self.old self.new name.now
            (record (file_or_new self.old name.now) { room = (file_or_new self.old name.now).room + more })) }
        ensures err { OnErr result (self.new ≡ self.old) }
    {
        let alloc = self.alloc;
        match place_of(self.files.as_slice(), name) {
            Some(i) => {
                let file = &mut self.files[i];
                file.add_room(more)?;
                Ok(())
            }
            None => {
                let mut file = MemFile::new(
                    alloc,
                    name,
                    self.other_read_faults,
                    self.other_append_faults,
                )?;
                file.add_room(more)?;
                self.files.push(file)?;
                Ok(())
            }
        }
    }

    /// Has the read with this number, from 1, fail.
    pub fn fail_read(&mut self, n: u32) -> Result<(), NoMemory>
        ensures ok { OnOk result (self.new ≡ record self.old { failing_reads = self.old.failing_reads ++ n ∷ [] }) }
        ensures err { OnErr result (self.new ≡ self.old) }
    {
        self.failing_reads.push(u64::from(n))?;
        Ok(())
    }

    /// Has the append with this number, from 1, fail.
    pub fn fail_append(&mut self, n: u32) -> Result<(), NoMemory>
        ensures ok { OnOk result (self.new ≡ record self.old { failing_appends = self.old.failing_appends ++ n ∷ [] }) }
        ensures err { OnErr result (self.new ≡ self.old) }
    {
        self.failing_appends.push(u64::from(n))?;
        Ok(())
    }

    /// Whether a name has counts of its own, as one has that bytes or room were given to.
    pub fn knows(&self, name: &str) -> bool
        ensures { result ≡ is_known self.now name.now }
    {
        place_of(self.files.as_slice(), name).is_some()
    }

    /// What a file holds: no bytes where there is none.
    pub fn bytes(&self, name: &str) -> &[u8]
        ensures { result.now ≡ unwrap_or (bytes_of self.now name.now) [] }
    {
        match place_of(self.files.as_slice(), name) {
            Some(i) => {
                let file = &self.files[i];
                match file.bytes() {
                    Some(bytes) => bytes,
                    None => &[],
                }
            }
            None => &[],
        }
    }
}

impl Files for MemFiles {
    ghost held = { λ s. Some (bytes_of s) };

    ghost knows = { is_known };

    ghost read_faults = { read_faults_of };

    ghost append_faults = { append_faults_of };

    fn read(&mut self, alloc: Global, name: &str, limit: u64) -> Result<Vec<u8>, FileFault>
        ensures bytes { IfOk result (λ v. bytes_of self.old name.now ≡ Some v.items) }
        ensures short { IfOk result (λ v. vec_len v ≤ limit) }
        ensures too_long { (n : ℕ) → IsErrOf result (FileFault.TooLong n) → limit < n }
        ensures longer { (n : ℕ) → IsErrOf result (FileFault.TooLong n) →
            (b : List ℕ) × (bytes_of self.old name.now ≡ Some b) × (n ≤ length b) }
        ensures cause { IsErrOf result FileFault.Failed →
            Rose (read_faults_of self.old name.now) (read_faults_of self.new name.now) }
        ensures counts { RaisesOnly (is_known self.old) (read_faults_of self.old) (read_faults_of self.new) name.now }
        ensures held { ◌≡◌ {A = Option Held} (Some (bytes_of self.new)) (Some (bytes_of self.old)) }
        ensures knows { (n : List ℕ) → is_known self.new n ≡ is_known self.old n }
        ensures append_faults { (n : List ℕ) → append_faults_of self.new n ≡ append_faults_of self.old n }

        // It fails exactly where its number is listed or there is no such file.
        ensures exact { IsErrOf result FileFault.Failed ↔ IsTrue (fails_read self.old name.now) }
        ensures leaves { AfterRead self.old self.new name.now result }
    {
        self.reads = self.reads.saturating_add(1);
        let failing = self.failing_reads.contains(&self.reads);
        match place_of(self.files.as_slice(), name) {
            Some(i) => {
                let file = &mut self.files[i];
                file.read(alloc, limit, failing)
            }
            None => {
                self.other_read_faults = self.other_read_faults.saturating_add(1);
                Err(FileFault::Failed)
            }
        }
    }

    fn append(&mut self, name: &str, bytes: &[u8]) -> Result<(), Failed>
        ensures ok { OnOk result (AppendsTo (Some (bytes_of self.old)) (Some (bytes_of self.new)) name.now bytes.now) }
        ensures prefix { OnErr result (PutsPrefixTo (Some (bytes_of self.old)) (Some (bytes_of self.new)) name.now bytes.now) }
        ensures cause { OnErr result (Rose (append_faults_of self.old name.now) (append_faults_of self.new name.now)) }
        ensures counts { RaisesOnly (is_known self.old) (append_faults_of self.old) (append_faults_of self.new) name.now }
        ensures knows { (n : List ℕ) → is_known self.new n ≡ is_known self.old n }
        ensures read_faults { (n : List ℕ) → read_faults_of self.new n ≡ read_faults_of self.old n }

        // It fails exactly where its number is listed or room is missing, and then nothing is put.
        ensures exact { IsErr result ↔ IsTrue (fails_append self.old name.now (length bytes.now)) }
        ensures leaves { AfterAppend self.old self.new name.now bytes.now result }
    {
        self.appends = self.appends.saturating_add(1);
        let failing = self.failing_appends.contains(&self.appends);
        match place_of(self.files.as_slice(), name) {
            Some(i) => {
                let file = &mut self.files[i];
                file.append(bytes, failing)
            }
            None => {
                self.other_append_faults = self.other_append_faults.saturating_add(1);
                Err(Failed)
            }
        }
    }

    ghost use Rattle.tss_outside.specs.MemFiles.{shared_read_faults_of, shared_append_faults_of};

    ghost shared_read_faults = { shared_read_faults_of };

    ghost shared_append_faults = { shared_append_faults_of };
}

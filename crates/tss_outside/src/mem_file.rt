// One file in memory.
ghost use Rattle.std.specs.Prelude.{◌≡◌, ◌≤◌, ◌<◌, ◌+◌, ◌-◌, ◌++◌, ◌⊎◌, [], ℕ, List, true, false, Option, Some, None, length, vec_len, unwrap_or, IfOk, OnOk, OnErr, IsErr, IsErrOf, IsTrue, IsSome, is_none, nat_lt, ◌||◌, ◌↔◌, option_map, if◌then◌else◌};
ghost use Rattle.tss_outside.specs.Outside.{is_failed};
ghost use Rattle.tss_outside.specs.MemFiles.{has_name, with_read_fault, with_append_fault, with_bytes};

use crate::files::{Failed, FileFault};
use std::alloc::Global;
use std::marker::Model;
use tss_base::NoMemory;

/// What is known under a name: the bytes that are held, if any, how many may still be appended, and the counts of
/// faults. Room for what may be appended is there already.
#[derive(Drop, Debug)]
pub struct MemFile {
    name: String,
    exists: bool,
    bytes: Vec<u8>,
    room: usize,
    read_faults: u64,
    append_faults: u64,
}

impl Model for MemFile {
    ghost use Rattle.std.specs.Prelude.{◌≡◌, ◌+◌, ◌≤◌, [], false, Some, None, vec_len, vec_capacity, if◌then◌else◌, string_bytes};
    ghost use Rattle.tss_outside.specs.MemFiles.{FileState};

    ghost Value = { FileState };

    ghost view = { λ f. record {
      name = string_bytes f.name;
      bytes = (if f.exists then Some f.bytes.items else None);
      room = f.room;
      read_faults = f.read_faults;
      append_faults = f.append_faults;
    } };

    ghost invariant = { λ f. (vec_len f.bytes + f.room ≤ vec_capacity f.bytes) × (f.exists ≡ false → f.bytes.items ≡ []) };
}

impl MemFile {
    /// A known name under which nothing is held, with these counts of faults.
    pub fn new(
        alloc: Global,
        name: &str,
        read_faults: u64,
        append_faults: u64,
    ) -> Result<MemFile, NoMemory>
        ensures { IfOk result (λ f. f ≡ record {
          name = name.now;
          bytes = None;
          room = 0;
          read_faults = read_faults;
          append_faults = append_faults;
        }) }
    {
        Ok(MemFile {
            name: String::from_str(alloc, name)?,
            exists: false,
            bytes: Vec::new(alloc),
            room: 0,
            read_faults,
            append_faults,
        })
    }

    /// Whether this is its name.
    pub fn has_name(&self, name: &str) -> bool
        ensures { result ≡ has_name name.now self.now }
    {
        self.name.as_str() == name
    }

    /// What is held.
    pub fn bytes(&self) -> Option<&[u8]>
        ensures { option_map (λ b. b.now) result ≡ self.now.bytes }
    {
        if self.exists {
            Some(self.bytes.as_slice())
        } else {
            None
        }
    }

    /// Has it hold these bytes. Its room stays.
    pub fn put(&mut self, alloc: Global, bytes: &[u8]) -> Result<(), NoMemory>
        ensures ok { OnOk result (self.new ≡ record self.old { bytes = Some bytes.now }) }
        ensures err { OnErr result (self.new ≡ self.old) }
    {
        let mut all = Vec::from_slice(alloc, bytes)?;
        all.reserve(self.room)?;
        self.bytes = all;
        self.exists = true;
        Ok(())
    }

    /// Gives it so many further bytes of room.
    pub fn add_room(&mut self, more: u32) -> Result<(), NoMemory>
        ensures ok { OnOk result (self.new ≡ record self.old { room = self.old.room + more }) }
        ensures err { OnErr result (self.new ≡ self.old) }
    {
        let room = self.room + more as usize;
        self.bytes.reserve(room)?;
        self.room = room;
        Ok(())
    }

    /// Reads it, where it is held and the call isn't one that is to fail. A fault is counted.
    pub fn read(&mut self, alloc: Global, limit: u64, failing: bool) -> Result<Vec<u8>, FileFault>
        ensures ok { IfOk result (λ v. (failing ≡ false) × (self.old.bytes ≡ Some v.items) × (vec_len v ≤ limit)) }
        ensures too_long { (n : ℕ) → IsErrOf result (FileFault.TooLong n) → (failing ≡ false)
            × ((b : List ℕ) × (self.old.bytes ≡ Some b) × (n ≡ length b) × (limit < n)) }
        ensures failed { IsErrOf result FileFault.Failed → (failing ≡ true) ⊎ (self.old.bytes ≡ None) }
        ensures exact { IsErrOf result FileFault.Failed ↔ IsTrue (failing || is_none self.old.bytes) }
        ensures memory { IsErrOf result FileFault.NoMemory → (failing ≡ false) × IsSome self.old.bytes }
        ensures never_falls { self.old.read_faults ≤ self.new.read_faults }
        ensures counted { self.new ≡ (if is_failed result then with_read_fault self.old else self.old) }
    {
        if failing || !self.exists {
            self.read_faults = self.read_faults.saturating_add(1);
            return Err(FileFault::Failed);
        }
        let len = self.bytes.len() as u64;
        if len > limit {
            return Err(FileFault::TooLong(len));
        }
        match Vec::from_slice(alloc, self.bytes.as_slice()) {
            Ok(bytes) => Ok(bytes),
            Err(_) => Err(FileFault::NoMemory),
        }
    }

    /// Puts bytes after those that are held, where there is room and the call isn't one that is to fail. A fault is
    /// counted.
    pub fn append(&mut self, bytes: &[u8], failing: bool) -> Result<(), Failed>
        ensures ok { OnOk result ((failing ≡ false) × (length bytes.now ≤ self.old.room)
            × (self.new ≡ with_bytes bytes.now self.old)) }
        ensures exact { IsErr result ↔ IsTrue (failing || nat_lt self.old.room (length bytes.now)) }
        ensures never_falls { self.old.append_faults ≤ self.new.append_faults }
        ensures err { OnErr result (((failing ≡ true) ⊎ (self.old.room < length bytes.now))
            × (self.new ≡ with_append_fault self.old)) }
    {
        if failing || bytes.len() > self.room {
            self.append_faults = self.append_faults.saturating_add(1);
            return Err(Failed);
        }
        match self.bytes.extend_from_slice(bytes) {
            Ok(()) => {}
            Err(_) => unreachable!(),
        }
        self.room -= bytes.len();
        self.exists = true;
        Ok(())
    }
}

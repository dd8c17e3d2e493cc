// A sink in memory.
ghost use Rattle.std.specs.Prelude.{◌≡◌, ◌≤◌, ◌++◌, ◌∷◌, [], ℕ, List, Option, Some, length, IfOk, OnOk, OnErr};
ghost use Rattle.tss_outside.specs.Outside.{Rose, AppendsWhereTold, PutsPrefix};
ghost use Rattle.tss_outside.specs.MemSink.{AfterWrite};

use crate::files::Failed;
use crate::sink::Sink;
use std::alloc::Global;
use std::marker::Model;
use tss_base::NoMemory;

/// A sink in memory, with room for so many bytes and a list of the calls that are to fail. It tells its bytes.
#[derive(Drop, Debug)]
pub struct MemSink {
    bytes: Vec<u8>,
    room: u32,
    failing: Vec<u64>,
    calls: u64,
    faults: u64,
}

impl Model for MemSink {
    ghost use Rattle.std.specs.Prelude.{◌+◌, ◌≤◌, vec_len, vec_capacity};
    ghost use Rattle.tss_outside.specs.MemSink.{MemSinkState};

    ghost Value = { MemSinkState };

    ghost view = { λ s. record { bytes = s.bytes.items; room = s.room; failing = s.failing.items; calls = s.calls; faults = s.faults } };

    ghost invariant = { λ s. vec_len s.bytes + s.room ≤ vec_capacity s.bytes };
}

impl MemSink {
    /// A sink that has room for so many bytes.
    pub fn new(alloc: Global, room: u32) -> Result<MemSink, NoMemory>
        ensures { IfOk result (λ s. s ≡ record { bytes = []; room = room; failing = []; calls = 0; faults = 0 }) }
    {
        Ok(MemSink {
            bytes: Vec::with_capacity(alloc, room as usize)?,
            room,
            failing: Vec::new(alloc),
            calls: 0,
            faults: 0,
        })
    }

    /// Has the write with this number, from 1, fail.
    pub fn fail_write(&mut self, n: u32) -> Result<(), NoMemory>
        ensures ok { OnOk result (self.new ≡ record self.old { failing = self.old.failing ++ n ∷ [] }) }
        ensures unchanged { OnErr result (self.new ≡ self.old) }
    {
        self.failing.push(u64::from(n))?;
        Ok(())
    }

    /// All that was written.
    pub fn bytes(&self) -> &[u8]
        ensures { result.now ≡ self.now.bytes }
    {
        self.bytes.as_slice()
    }
}

impl Sink for MemSink {
    ghost written = { λ s. Some s.bytes };

    ghost faults = { λ s. s.faults };

    fn write_piece(&mut self, bytes: &[u8]) -> Result<(), Failed>
        ensures ok { OnOk result (AppendsWhereTold (Some self.old.bytes) (Some self.new.bytes) bytes.now) }
        ensures prefix { OnErr result (PutsPrefix (Some self.old.bytes) (Some self.new.bytes) bytes.now) }
        ensures cause { OnErr result (Rose self.old.faults self.new.faults) }
        ensures never_falls { self.old.faults ≤ self.new.faults }
        ensures exact { AfterWrite self.old self.new bytes.now result }
    {
        self.calls = self.calls.saturating_add(1);
        if self.failing.contains(&self.calls) || bytes.len() > self.room as usize {
            self.faults = self.faults.saturating_add(1);
            return Err(Failed);
        }
        match self.bytes.extend_from_slice(bytes) {
            Ok(()) => {}
            Err(_) => unreachable!(),
        }
        self.room -= bytes.len() as u32;
        Ok(())
    }
}

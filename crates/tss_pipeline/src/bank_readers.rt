// What the machine shows of its banks. Of a bank that isn't there it shows nothing.
ghost use Rattle.std.specs.Prelude.{◌≡◌, is_some, option_map, slice_get};
ghost use Rattle.std.specs.FinMap.{get, len};
ghost use Rattle.tss_base.specs.Names.{name_cmp};
ghost use Rattle.tss_maps.specs.Ordered.{key_at, least_above};
ghost use Rattle.tss_renaming.specs.Entries.{entry_of};
ghost use Rattle.tss_buffers.specs.Contents.{HasBuffer, seat};
ghost use Rattle.tss_pipeline.specs.BankParts.{contents_under, copy_shown, copy_told, entries_at, names_at, value_at, version_shown, versions_at};

use crate::bank::Bank;
use crate::pipeline::Pipeline;
use tss_base::{OpName, Range};
use tss_buffers::Buffers;
use tss_renaming::EntryView;
use tss_versions::VersionView;

/// The bank of a number, where there is one.
fn bank_at(banks: &[Bank], bank: u32) -> Option<&Bank>
    ensures { option_map (λ b. b.now) result ≡ slice_get banks.now bank }
{
    banks.get(bank as usize)
}

/// The bytes of a buffer, where it is set.
fn set_bytes(buffers: &Buffers, bank: u32, place: u32) -> Option<&[u8]>
    requires { HasBuffer buffers.now bank place }
    ensures { option_map (λ b. b.now) result ≡ get buffers.now.contents (seat bank place) }
{
    if buffers.is_set(bank, place) {
        Some(buffers.bytes(bank, place))
    } else {
        None
    }
}

impl Pipeline {
    /// The entry of the object with a base, in a bank.
    pub fn entry(&self, bank: u32, base: u32) -> Option<EntryView>
        ensures { option_map entry_of result
            ≡ get (entries_at self.now.machine.sizes bank self.now.state.entries) base }
    {
        match bank_at(&self.units.banks, bank) {
            Some(bank) => bank.renaming.entry(base),
            None => None,
        }
    }

    /// How many entries a bank has.
    pub fn entry_count(&self, bank: u32) -> u32
        ensures { result ≡ len (entries_at self.now.machine.sizes bank self.now.state.entries) }
    {
        match bank_at(&self.units.banks, bank) {
            Some(bank) => bank.renaming.entries(),
            None => 0,
        }
    }

    /// An entry of a bank by its place, from 0, in the order of the objects' bases.
    pub fn entry_at(&self, bank: u32, i: u32) -> Option<EntryView>
        ensures { option_map entry_of result
            ≡ value_at (entries_at self.now.machine.sizes bank self.now.state.entries) i }
    {
        match bank_at(&self.units.banks, bank) {
            Some(bank) => bank.renaming.entry_at(i),
            None => None,
        }
    }

    /// How many places of a bank are held.
    pub fn place_count(&self, bank: u32) -> u32
        ensures { result ≡ len (names_at bank self.now.state.places) }
    {
        match bank_at(&self.units.banks, bank) {
            Some(bank) => bank.renaming.places(),
            None => 0,
        }
    }

    /// The name for which a place of a bank is held, by its place, from 0, in the order of these names.
    pub fn place_at(&self, bank: u32, i: u32) -> Option<OpName>
        ensures { result ≡ key_at (names_at bank self.now.state.places) i }
    {
        match bank_at(&self.units.banks, bank) {
            Some(bank) => bank.renaming.place_at(i),
            None => None,
        }
    }

    /// How many buffers of a bank are held.
    pub fn buffer_count(&self, bank: u32) -> u32
        ensures { result ≡ len (names_at bank self.now.state.buffers) }
    {
        match bank_at(&self.units.banks, bank) {
            Some(bank) => bank.renaming.buffers(),
            None => 0,
        }
    }

    /// The name for which a buffer of a bank is held, by its place, from 0, in the order of these names, and where the
    /// buffer lies in the bank.
    pub fn buffer_at(&self, bank: u32, i: u32) -> Option<(OpName, u32)>
        ensures { option_map (λ b. b.0) result ≡ key_at (names_at bank self.now.state.buffers) i }
    {
        match bank_at(&self.units.banks, bank) {
            Some(bank) => bank.renaming.buffer_at(i),
            None => None,
        }
    }

    /// The bytes of a buffer of a bank by the name for which it is held, where it is set.
    pub fn contents(&self, bank: u32, name: OpName) -> Option<&[u8]>
        ensures { option_map (λ b. b.now) result
            ≡ contents_under (names_at bank self.now.state.buffers) self.now.state.contents name }
    {
        match bank_at(&self.units.banks, bank) {
            Some(own) => match own.renaming.buffer(name) {
                Some(place) => set_bytes(&self.units.buffers, bank, place),
                None => None,
            },
            None => None,
        }
    }

    /// Whether a version is registered in a bank.
    pub fn has(&self, bank: u32, v: OpName) -> bool
        ensures { result ≡ is_some (get (versions_at self.now.machine.sizes bank self.now.state.versions) v) }
    {
        match bank_at(&self.units.banks, bank) {
            Some(bank) => bank.versions.has(v),
            None => false,
        }
    }

    /// A version that is registered in a bank.
    pub fn version(&self, bank: u32, v: OpName) -> Option<VersionView>
        ensures version { option_map version_shown result
            ≡ get (versions_at self.now.machine.sizes bank self.now.state.versions) v }
        ensures name { option_map (λ x. x.name) result
            ≡ option_map (λ x. v) (get (versions_at self.now.machine.sizes bank self.now.state.versions) v) }
    {
        match bank_at(&self.units.banks, bank) {
            Some(bank) => bank.versions.version(v),
            None => None,
        }
    }

    /// How many versions are registered in a bank.
    pub fn version_count(&self, bank: u32) -> u32
        ensures { result ≡ len (versions_at self.now.machine.sizes bank self.now.state.versions) }
    {
        match bank_at(&self.units.banks, bank) {
            Some(bank) => bank.versions.count(),
            None => 0,
        }
    }

    /// The least name above a given one of the versions of a bank.
    pub fn version_after(&self, bank: u32, v: OpName) -> Option<OpName>
        ensures { result ≡ least_above name_cmp (versions_at self.now.machine.sizes bank self.now.state.versions) v }
    {
        match bank_at(&self.units.banks, bank) {
            Some(bank) => bank.versions.name_after(v),
            None => None,
        }
    }

    /// A version of a bank by its place, from 0, in the order of names.
    pub fn version_at(&self, bank: u32, i: u32) -> Option<VersionView>
        ensures version { option_map version_shown result
            ≡ value_at (versions_at self.now.machine.sizes bank self.now.state.versions) i }
        ensures name { option_map (λ x. x.name) result
            ≡ key_at (versions_at self.now.machine.sizes bank self.now.state.versions) i }
    {
        match bank_at(&self.units.banks, bank) {
            Some(bank) => bank.versions.version_at(i),
            None => None,
        }
    }

    /// How many bytes a bank has copied home of what it copies.
    pub fn moved(&self, bank: u32) -> Option<u32>
        ensures { result ≡ option_map (λ c. c.moved) (get self.now.state.copies bank) }
    {
        match bank_at(&self.units.banks, bank) {
            Some(bank) => bank.engine.moved(),
            None => None,
        }
    }

    /// What a bank copies home: the version, its object, and the place of its buffer.
    pub fn copy(&self, bank: u32) -> Option<(OpName, Range, u32)>
        ensures { option_map copy_shown result ≡ option_map copy_told (get self.now.state.copies bank) }
    {
        match bank_at(&self.units.banks, bank) {
            Some(bank) => bank.copy(),
            None => None,
        }
    }

    /// The name of the buffer that a bank copies home.
    pub fn copy_buffer(&self, bank: u32) -> Option<OpName>
        ensures { result ≡ option_map (λ c. c.buffer) (get self.now.state.copies bank) }
    {
        match bank_at(&self.units.banks, bank) {
            Some(bank) => bank.copied_buffer(),
            None => None,
        }
    }
}

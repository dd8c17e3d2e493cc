// The places of a bank of versions.
ghost use Rattle.std.specs.Prelude.{◌≡◌, ◌<◌, ◌^◌, IfOk, None, Some, is_some, option_map};
ghost use Rattle.std.specs.FinMap as map;
ghost use Rattle.tss_base.specs.declared.machine.Key.TheVariants as key;
ghost use Rattle.tss_base.specs.Machine.{IsInRange};
ghost use Rattle.tss_base.specs.Names.{name_cmp};
ghost use Rattle.tss_maps.specs.Ordered.{key_at, least_above};
ghost use Rattle.tss_versions.specs.Known.{IsAt, HaveSites, AreNumbered, site_of};
ghost use Rattle.tss_versions.specs.Conditions.{IsFree, IsUnnamed};

use crate::kept::{Kept, Seat, Store};
use crate::status::{Site, Status};
use std::alloc::Global;
use std::marker::Model;
use std::mem;
use tss_base::{NoMemory, OpName, Sizes};
use tss_tables::{NameTable, Seats};
use tss_tokens::Ended;

/// The versions of a bank, each at its place, and the places under the names. A contract sees how many places there
/// are, and the versions under their names.
pub struct Versions {
    seats: Seats<Seat>,
    index: NameTable<u32>,
}

impl Model for Versions {
    ghost use Rattle.tss_versions.specs.Known.{VersionsState, versions_code};
    ghost use Rattle.tss_versions.specs.Places.{versions_at, AreVersions};

    ghost Value = { VersionsState };

    ghost coded = { versions_code };

    ghost view = { λ s. record { size = s.seats.size; versions = versions_at s.seats.entries s.index.entries } };

    ghost invariant = { λ s. AreVersions s.seats s.index };
}

impl Versions {
    /// No version, and all places free.
    pub fn open(alloc: Global, sizes: &Sizes) -> Result<Versions, NoMemory>
        requires { IsInRange key.Versions sizes.now.versions }
        ensures { IfOk result (λ s. s ≡ record { size = sizes.now.versions; versions = map.empty }) }
    {
        let index = NameTable::open(alloc, sizes.versions)?;
        let seats = Seats::open(alloc, sizes.versions)?;
        Ok(Versions { seats, index })
    }

    /// Whether a version is registered.
    pub fn has(&self, v: OpName) -> bool
        ensures { result ≡ is_some (map.get self.now.versions v) }
    {
        self.index.has(v)
    }

    /// How many places there are.
    pub fn size(&self) -> u32
        ensures { result ≡ self.now.size }
    {
        self.seats.size()
    }

    /// How many versions are registered.
    pub fn count(&self) -> u32
        ensures { result ≡ map.len self.now.versions }
    {
        self.index.len()
    }

    /// The version with the `i`th name in order, from 0.
    pub(crate) fn name_at(&self, i: u32) -> Option<OpName>
        ensures { result ≡ key_at self.now.versions i }
    {
        self.index.key_at(i)
    }

    /// The least name of a version above a given name.
    pub fn name_after(&self, v: OpName) -> Option<OpName>
        ensures { result ≡ least_above name_cmp self.now.versions v }
    {
        self.index.next_after(v)
    }

    /// Where a version stands.
    pub(crate) fn find(&self, v: OpName) -> Option<Site>
        ensures { result ≡ option_map (site_of v) (map.get self.now.versions v) }
    {
        let place = self.index.get(v).copied()?;
        Some(Site { name: v, place })
    }

    /// A version.
    pub(crate) fn get(&self, at: Site) -> &Kept
        requires { IsAt self.now.versions at }
        ensures exact { map.get self.now.versions at.name ≡ Some result.now }
        ensures sites { HaveSites self.now.versions result.now.status }
    {
        match self.seats.get(at.place) {
            Some(seat) => &seat.kept,
            None => unreachable!(),
        }
    }

    /// Puts a new version at its place.
    pub(crate) fn add(&mut self, v: OpName, kept: Kept)
        requires within { kept.place.place < self.old.size }
        requires fresh { map.get self.old.versions v ≡ None }
        requires free { IsFree self.old.versions kept.place.place }
        requires unnamed { IsUnnamed self.old.versions v }
        requires sites { HaveSites (map.insert self.old.versions v kept) kept.status }
        ensures { self.new ≡ record self.old { versions = map.insert self.old.versions v kept } }
    {
        let place = kept.place.place();
        self.index.add(v, place);
        self.seats.add(place, Seat { name: v, kept });
    }

    /// Writes what is known of a version.
    pub(crate) fn write(&mut self, at: Site, status: Status)
        requires at { IsAt self.old.versions at }
        requires sites { HaveSites self.old.versions status }
        ensures { (x : _) → map.get self.old.versions at.name ≡ Some x →
            self.new ≡ record self.old { versions = map.insert self.old.versions at.name (record x { status = status }) } }
    {
        match self.seats.get_mut(at.place) {
            Some(seat) => seat.kept.status = status,
            None => unreachable!(),
        }
    }

    /// Gives a store to a version that has none.
    pub(crate) fn fill(&mut self, at: Site, store: Option<Store>)
        requires at { IsAt self.old.versions at }
        requires bare { (x : _) → map.get self.old.versions at.name ≡ Some x → x.store ≡ None }
        ensures { (x : _) → map.get self.old.versions at.name ≡ Some x →
            self.new ≡ record self.old { versions = map.insert self.old.versions at.name (record x { store = store }) } }
    {
        match self.seats.get_mut(at.place) {
            Some(seat) => match mem::replace(&mut seat.kept.store, store) {
                None => {}
                Some(_) => unreachable!(),
            },
            None => unreachable!(),
        }
    }

    /// Takes out a version. Its place is free.
    pub(crate) fn remove(&mut self, at: Site) -> Kept
        requires { IsAt self.old.versions at }
        ensures exact { map.get self.old.versions at.name ≡ Some result }
        ensures others { self.new ≡ record self.old { versions = map.remove self.old.versions at.name } }
    {
        let _ = self.index.remove(at.name);
        match self.seats.remove(at.place) {
            Some(seat) => {
                let Seat { name: _, kept } = seat;
                kept
            }
            None => unreachable!(),
        }
    }

    /// Ends the bank, with the versions that are registered. The pools of its places and buffers have ended.
    pub fn close(self, places: &Ended, buffers: &Ended)
        requires { AreNumbered places.now buffers.now self.versions }
    {
        let mut rest = self;
        while let Some(v) = rest.name_at(0) {
            match rest.find(v) {
                Some(at) => rest.remove(at).end(places, buffers),
                None => unreachable!(),
            }
        }
        let Versions { seats, index: _ } = rest;
        seats.close();
    }
}

// Places of a pool under the names that hold them.
ghost use Rattle.std.specs.Prelude.{◌≡◌, ◌<◌, ◌≤◌, IfOk, IfSome, None, Some, nat_le};
ghost use Rattle.std.specs.FinMap as map;
ghost use Rattle.tss_maps.specs.Ordered.{key_at};
ghost use Rattle.tss_renaming.specs.Holding.{IsFree, HoldsAlone};

use std::alloc::Global;
use std::marker::Model;
use tss_base::{NoMemory, OpName};
use tss_tables::NameTable;
use tss_tokens::{Ended, Pool, Token};

/// The places of a pool that are out, each under the one name that holds it. A contract sees the pool's number and
/// size, and the place of each name.
#[derive(Drop)]
pub struct Held {
    pool: Pool,
    names: NameTable<u32>,
}

impl Model for Held {
    ghost use Rattle.tss_renaming.specs.Holding.{HeldState, held_code, held_of, AreHeld};

    ghost Value = { HeldState };

    ghost coded = { held_code };

    ghost view = { λ h. held_of h.pool h.names };

    ghost invariant = { λ h. AreHeld h.pool h.names };
}

impl Held {
    /// No place is held. The tokens have the pool's number.
    pub fn open(alloc: Global, number: u32, size: u32) -> Result<Held, NoMemory>
        ensures { IfOk result (λ h. h ≡ record { number = number; size = size; places = map.empty }) }
    {
        Ok(Held {
            pool: Pool::open(alloc, number, size)?,
            names: NameTable::open(alloc, size)?,
        })
    }

    /// Whether each place is held.
    pub fn is_full(&self) -> bool
        ensures { result ≡ nat_le self.now.size (map.len self.now.places) }
    {
        !self.names.room()
    }

    /// How many places are held.
    pub fn len(&self) -> u32
        ensures exact { result ≡ map.len self.now.places }
        ensures within { map.len self.now.places ≤ self.now.size }
    {
        self.names.len()
    }

    /// The place that a name holds.
    pub fn get(&self, name: OpName) -> Option<u32>
        ensures exact { result ≡ map.get self.now.places name }
        ensures alone { IfSome result (HoldsAlone self.now.places self.now.size name) }
    {
        self.names.get(name).copied()
    }

    /// The name at a place of the names in order, from 0.
    pub fn name_at(&self, i: u32) -> Option<OpName>
        ensures { result ≡ key_at self.now.places i }
    {
        self.names.key_at(i)
    }

    /// Takes a free place for a name.
    pub fn take(&mut self, name: OpName) -> Token
        requires room { map.len self.old.places < self.old.size }
        requires fresh { map.get self.old.places name ≡ None }
        ensures number { result.number ≡ self.old.number }
        ensures exact { self.new ≡ record self.old { places = map.insert self.old.places name result.place } }
        ensures free { IsFree self.old.places self.old.size result.place }
    {
        let Some(token) = self.pool.take() else {
            unreachable!();
        };
        self.names.add(name, token.place());
        token
    }

    /// Gives back the place that a name holds.
    pub fn give(&mut self, name: OpName, token: Token)
        requires number { token.number ≡ self.old.number }
        requires held { map.get self.old.places name ≡ Some token.place }
        ensures { self.new ≡ record self.old { places = map.remove self.old.places name } }
    {
        let _ = self.names.remove(name);
        self.pool.give(token);
    }

    /// Ends the pool, with the names that hold places.
    pub fn end(self) -> Ended
        ensures { result ≡ self.number }
    {
        let Held { pool, names: _ } = self;
        pool.end()
    }
}

// Rows whose values stand at fixed places: only their keys and places move, on which the tables stand.
ghost use Rattle.std.specs.Prelude.{◌≡◌, ◌<◌, ◌≤◌, [], None, Some, IfOk, IsSome, length, map, option_map, slice_get, T};
ghost use Rattle.std.specs.List.{find as find_if};
ghost use Rattle.std.specs.Ordering.{is_lt};
ghost use Rattle.std.specs.FinMap.Entries.{find, put, is_sorted};
ghost use Rattle.std.specs.Borrow.{sem};
ghost use Rattle.std.specs.Option.{option_copied_mut};
ghost use Rattle.tss_tables.specs.Lends.{lends_value};
ghost use Rattle.tss_tables.specs.Rows.{without};

use crate::rows::Rows;
use crate::seats::Seats;
use std::alloc::Global;
use std::marker::Model;
use tss_base::NoMemory;

/// Keys in their order, each once and with the place of its value, the values at their places, and the places that are
/// free.
#[derive(Drop)]
pub struct Store<K, V> {
    index: Rows<K, u32>,
    seats: Seats<V>,
    free: Vec<u32>,
}

impl<K, V> Model for Store<K, V> {
    ghost use Rattle.tss_tables.specs.Rows.{RowsState, rows_code};
    ghost use Rattle.tss_tables.specs.Store.{stored_of, AreStored};

    ghost Value = { RowsState K V };

    ghost coded = { rows_code K.code V.code };

    ghost view = { λ s. stored_of s.index s.seats };

    ghost invariant = { λ s. AreStored s.index s.seats s.free };
}

impl<K: Ord + Copy, V> Store<K, V> {
    /// No rows, and room for `size` of them.
    pub fn open(alloc: Global, size: u32) -> Result<Store<K, V>, NoMemory>
        ensures { IfOk result (λ s. s ≡ record { size = size; entries = [] }) }
    {
        let index = Rows::open(alloc, size)?;
        let Ok(mut free) = Vec::with_capacity(alloc, size as usize) else {
            return Err(NoMemory);
        };
        // The lowest place stands last, so that it is taken first.
        for place in (0..size).rev() {
            match free.push(place) {
                Ok(()) => {}
                Err(_) => unreachable!(),
            }
        }
        Ok(Store {
            index,
            seats: Seats::open(alloc, size)?,
            free,
        })
    }

    /// How many rows there is room for.
    pub fn size(&self) -> u32
        ensures { result ≡ self.now.size }
    {
        self.index.size()
    }

    /// How many rows there are.
    pub fn len(&self) -> u32
        ensures exact { result ≡ length self.now.entries }
        ensures within { length self.now.entries ≤ self.now.size }
    {
        self.index.len()
    }

    /// The value of a key.
    pub fn get(&self, key: &K) -> Option<&V>
        requires { T (is_sorted K.cmp self.now.entries) }
        ensures { option_map (λ x. x.now) result ≡ find K.cmp key.now self.now.entries }
    {
        match self.index.get(key) {
            Some(place) => self.seats.get(place),
            None => None,
        }
    }

    /// The value of a key for writing.
    pub fn get_mut(&mut self, key: &K) -> Option<&mut V>
        requires { T (is_sorted K.cmp self.old.entries) }
        ensures* writes_back { sem 𝓛 (lends_value K.row V.row K.cmp self.entry key.now result) }
        ensures value { option_copied_mut result ≡ find K.cmp key.now self.old.entries }
    {
        match self.index.get(key) {
            Some(place) => self.seats.get_mut(place),
            None => None,
        }
    }

    /// Adds a row under a new key.
    pub fn add(&mut self, key: K, value: V)
        requires sorted { T (is_sorted K.cmp self.old.entries) }
        requires room { length self.old.entries < self.old.size }
        requires fresh { find K.cmp key self.old.entries ≡ None }
        ensures { self.new ≡ record { size = self.old.size; entries = put K.cmp key value self.old.entries } }
    {
        let Some(place) = self.free.pop() else {
            unreachable!();
        };
        self.index.add(key, place);
        self.seats.add(place, value);
    }

    /// Puts a value in the place of a key's value, which it hands back.
    pub fn replace(&mut self, key: &K, value: V) -> V
        requires sorted { T (is_sorted K.cmp self.old.entries) }
        requires there { IsSome (find K.cmp key.now self.old.entries) }
        ensures old { find K.cmp key.now self.old.entries ≡ Some result }
        ensures new { self.new ≡ record { size = self.old.size; entries = put K.cmp key.now value self.old.entries } }
    {
        match self.index.get(key) {
            Some(place) => self.seats.replace(place, value),
            None => unreachable!(),
        }
    }

    /// Takes out the row of a key, and hands back its value.
    pub fn remove(&mut self, key: &K) -> Option<V>
        requires { T (is_sorted K.cmp self.old.entries) }
        ensures value { result ≡ find K.cmp key.now self.old.entries }
        ensures rest { self.new ≡ record { size = self.old.size; entries = without K.cmp key.now self.old.entries } }
    {
        match self.index.remove(key) {
            Some(place) => {
                match self.free.push(place) {
                    Ok(()) => {}
                    Err(_) => unreachable!(),
                }
                self.seats.remove(place)
            }
            None => None,
        }
    }

    /// The key of the row at a place, from 0.
    pub fn key_at(&self, place: u32) -> Option<K>
        ensures { result ≡ slice_get (map (λ e. e.0) self.now.entries) place }
    {
        self.index.key_at(place)
    }

    /// The least key above a given one.
    pub fn next_after(&self, key: &K) -> Option<K>
        requires { T (is_sorted K.cmp self.now.entries) }
        ensures { result ≡ find_if (λ q. is_lt (K.cmp key.now q)) (map (λ e. e.0) self.now.entries) }
    {
        self.index.next_after(key)
    }

    /// Gives back the memory, once no row is left.
    pub fn close(self)
        requires { length self.entries ≡ 0 }
    {
        let Store {
            index,
            seats,
            free: _,
        } = self;
        index.close();
        seats.close();
    }
}

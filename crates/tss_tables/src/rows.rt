// Rows in the order of their keys, each with its value beside its key.
ghost use Rattle.std.specs.Prelude.{◌≡◌, ◌<◌, ◌≤◌, [], None, Some, IfOk, length, map, slice_get, T};
ghost use Rattle.std.specs.List.{find as find_if};
ghost use Rattle.std.specs.Ordering.{is_lt};
ghost use Rattle.std.specs.FinMap.Entries.{find, put, is_sorted};
ghost use Rattle.tss_tables.specs.Rows.{without, Rises, MatchSearch};

use std::alloc::Global;
use std::marker::Model;
use tss_base::NoMemory;

/// Keys in their order, each once, and beside each its value.
#[derive(Drop)]
pub struct Rows<K, V> {
    size: u32,
    keys: Vec<K>,
    values: Vec<V>,
}

impl<K, V> Model for Rows<K, V> {
    ghost use Rattle.tss_tables.specs.Rows.{RowsState, rows_code, rows_of, AreRows};

    ghost Value = { RowsState K V };

    ghost coded = { rows_code K.code V.code };

    ghost view = { λ r. rows_of r.size r.keys.items r.values.items };

    ghost invariant = { λ r. AreRows r.size r.keys r.values };
}

/// The place of a key, or the place where it would stand.
fn place_of<K: Ord>(keys: &[K], key: &K) -> Result<usize, usize>
    requires { Rises K.cmp keys.now }
    ensures { MatchSearch K.cmp keys.now key.now result }
{
    keys.binary_search(key)
}

/// The key at a place, if there is one.
fn key_in<K: Copy>(keys: &[K], place: usize) -> Option<K>
    ensures { result ≡ slice_get keys.now place }
{
    keys.get(place).copied()
}

impl<K: Ord + Copy, V: Copy> Rows<K, V> {
    /// No rows, and room for `size` of them.
    pub fn open(alloc: Global, size: u32) -> Result<Rows<K, V>, NoMemory>
        ensures { IfOk result (λ r. r ≡ record { size = size; entries = [] }) }
    {
        let Ok(keys) = Vec::with_capacity(alloc, size as usize) else {
            return Err(NoMemory);
        };
        let Ok(values) = Vec::with_capacity(alloc, size as usize) else {
            return Err(NoMemory);
        };
        Ok(Rows { size, keys, values })
    }

    /// How many rows there is room for.
    pub fn size(&self) -> u32
        ensures { result ≡ self.now.size }
    {
        self.size
    }

    /// How many rows there are.
    pub fn len(&self) -> u32
        ensures exact { result ≡ length self.now.entries }
        ensures within { length self.now.entries ≤ self.now.size }
    {
        self.keys.len() as u32
    }

    /// The value of a key.
    pub fn get(&self, key: &K) -> Option<V>
        requires { T (is_sorted K.cmp self.now.entries) }
        ensures { result ≡ find K.cmp key.now self.now.entries }
    {
        match place_of(self.keys.as_slice(), key) {
            Ok(place) => Some(self.values[place]),
            Err(_) => None,
        }
    }

    /// Adds a row under a new key.
    pub fn add(&mut self, key: K, value: V)
        requires sorted { T (is_sorted K.cmp self.old.entries) }
        requires room { length self.old.entries < self.old.size }
        requires fresh { find K.cmp key self.old.entries ≡ None }
        ensures { self.new ≡ record { size = self.old.size; entries = put K.cmp key value self.old.entries } }
    {
        let Err(place) = place_of(self.keys.as_slice(), &key) else {
            unreachable!();
        };
        match self.keys.insert(place, key) {
            Ok(()) => {}
            Err(_) => unreachable!(),
        }
        match self.values.insert(place, value) {
            Ok(()) => {}
            Err(_) => unreachable!(),
        }
    }

    /// Takes out the row of a key, and hands back its value.
    pub fn remove(&mut self, key: &K) -> Option<V>
        requires { T (is_sorted K.cmp self.old.entries) }
        ensures value { result ≡ find K.cmp key.now self.old.entries }
        ensures rest { self.new ≡ record { size = self.old.size; entries = without K.cmp key.now self.old.entries } }
    {
        match place_of(self.keys.as_slice(), key) {
            Ok(place) => {
                self.keys.remove(place);
                Some(self.values.remove(place))
            }
            Err(_) => None,
        }
    }

    /// The key of the row at a place, from 0.
    pub fn key_at(&self, place: u32) -> Option<K>
        ensures { result ≡ slice_get (map (λ e. e.0) self.now.entries) place }
    {
        key_in(self.keys.as_slice(), place as usize)
    }

    /// The least key above a given one.
    pub fn next_after(&self, key: &K) -> Option<K>
        requires { T (is_sorted K.cmp self.now.entries) }
        ensures { result ≡ find_if (λ q. is_lt (K.cmp key.now q)) (map (λ e. e.0) self.now.entries) }
    {
        let place = match place_of(self.keys.as_slice(), key) {
            Ok(place) => place + 1,
            Err(place) => place,
        };
        key_in(self.keys.as_slice(), place)
    }

    /// Gives back the memory, once no row is left.
    pub fn close(self)
        requires { length self.entries ≡ 0 }
    {
        let Rows {
            size: _,
            keys,
            values,
        } = self;
        keys.destroy_empty();
        values.destroy_empty();
    }
}

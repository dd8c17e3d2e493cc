// Tables under operands' names.
ghost use Rattle.std.specs.Prelude.{◌≡◌, ◌<◌, ◌≤◌, ◌↔◌, None, Some, IfOk, IsSome, IsTrue, is_some, option_map};
ghost use Rattle.std.specs.FinMap as map;
ghost use Rattle.std.specs.Borrow.{sem};
ghost use Rattle.std.specs.Option.{option_copied_mut};
ghost use Rattle.tss_tables.specs.NameTableLends.{lends_entry};
ghost use Rattle.tss_base.specs.Names.{name_cmp};
ghost use Rattle.tss_maps.specs.Ordered.{key_at, least, least_above};

use crate::store::Store;
use std::alloc::Global;
use std::marker::Model;
use tss_base::{NoMemory, OpName};

/// What stands under operands' names, for a fixed count of entries. A contract sees its size and the map of its entries.
#[derive(Drop)]
pub struct NameTable<V> {
    rows: Store<OpName, V>,
}

impl<V> Model for NameTable<V> {
    ghost use Rattle.std.specs.Prelude.{T};
    ghost use Rattle.tss_base.specs.Names.{name_cmp};
    ghost use Rattle.tss_base.specs.contracts.operand.OpName as name;
    ghost use Rattle.std.specs.FinMap.Entries.{is_sorted};
    ghost use Rattle.tss_tables.specs.Table.{TableState, table_code, table_of};

    ghost Value = { TableState name_cmp V };

    ghost coded = { table_code (name.the_row).coded V.code };

    ghost view = { λ t. table_of name_cmp t.rows };

    ghost invariant = { λ t. T (is_sorted name_cmp t.rows.entries) };
}

impl<V> NameTable<V> {
    /// An empty table with room for `size` entries, for which it takes all memory that it will need.
    pub fn open(alloc: Global, size: u32) -> Result<NameTable<V>, NoMemory>
        ensures { IfOk result (λ t. t ≡ record { size = size; entries = map.empty }) }
    {
        Ok(NameTable {
            rows: Store::open(alloc, size)?,
        })
    }

    /// How many entries there is room for in all.
    pub fn size(&self) -> u32
        ensures { result ≡ self.now.size }
    {
        self.rows.size()
    }

    /// How many entries there are.
    pub fn len(&self) -> u32
        ensures exact { result ≡ map.len self.now.entries }
        ensures within { map.len self.now.entries ≤ self.now.size }
    {
        self.rows.len()
    }

    /// Whether there are no entries.
    pub fn is_empty(&self) -> bool
        ensures { IsTrue result ↔ (map.len self.now.entries ≡ 0) }
    {
        self.rows.len() == 0
    }

    /// Whether there is room for one more entry.
    pub fn room(&self) -> bool
        ensures { IsTrue result ↔ (map.len self.now.entries < self.now.size) }
    {
        self.rows.len() < self.rows.size()
    }

    /// What stands under a key.
    pub fn get(&self, key: OpName) -> Option<&V>
        ensures { option_map (λ x. x.now) result ≡ map.get self.now.entries key }
    {
        self.rows.get(&key)
    }

    /// What stands under a key, for writing: the table ends with the value that is left there.
    pub fn get_mut(&mut self, key: OpName) -> Option<&mut V>
        ensures* writes_back { sem 𝓛 (lends_entry V.row self.entry key result) }
        ensures value { option_copied_mut result ≡ map.get self.old.entries key }
    {
        self.rows.get_mut(&key)
    }

    /// Whether something stands under a key.
    pub fn has(&self, key: OpName) -> bool
        ensures { result ≡ is_some (map.get self.now.entries key) }
    {
        self.rows.get(&key).is_some()
    }

    /// Puts a value under a new key.
    pub fn add(&mut self, key: OpName, value: V)
        requires room { map.len self.old.entries < self.old.size }
        requires fresh { map.get self.old.entries key ≡ None }
        ensures { self.new ≡ record self.old { entries = map.insert self.old.entries key value } }
    {
        self.rows.add(key, value);
    }

    /// Puts a value in the place of the one under a key, which it hands back.
    pub fn replace(&mut self, key: OpName, value: V) -> V
        requires { IsSome (map.get self.old.entries key) }
        ensures handed_back { map.get self.old.entries key ≡ Some result }
        ensures written { self.new ≡ record self.old { entries = map.insert self.old.entries key value } }
    {
        self.rows.replace(&key, value)
    }

    /// Takes out what stands under a key.
    pub fn remove(&mut self, key: OpName) -> Option<V>
        ensures exact { result ≡ map.get self.old.entries key }
        ensures others { self.new ≡ record self.old { entries = map.remove self.old.entries key } }
    {
        self.rows.remove(&key)
    }

    /// The key at a place, from 0, of the keys in order.
    pub fn key_at(&self, place: u32) -> Option<OpName>
        ensures { result ≡ key_at self.now.entries place }
    {
        self.rows.key_at(place)
    }

    /// The least key.
    pub fn first(&self) -> Option<OpName>
        ensures { result ≡ least self.now.entries }
    {
        self.rows.key_at(0)
    }

    /// The least key above a given one.
    pub fn next_after(&self, key: OpName) -> Option<OpName>
        ensures { result ≡ least_above name_cmp self.now.entries key }
    {
        self.rows.next_after(&key)
    }

    /// Ends an empty table.
    pub fn close(self)
        requires { map.len self.entries ≡ 0 }
    {
        let NameTable { rows } = self;
        rows.close();
    }
}

// Entries under the bases of their objects.
ghost use Rattle.std.specs.Prelude.{◌≡◌, ◌<◌, ◌≤◌, IfOk, None, nat_le, option_map};
ghost use Rattle.std.specs.FinMap as map;
ghost use Rattle.tss_maps.specs.Ordered.{key_at};
ghost use Rattle.tss_renaming.specs.Entries.{entry_of};

use crate::entry_view::EntryView;
use std::alloc::Global;
use std::marker::Model;
use tss_base::NoMemory;
use tss_tables::Table;

/// The entries of a bank. A contract sees for how many there is room, and the definitions' entries under the bases of
/// their objects.
#[derive(Drop)]
pub struct Entries {
    table: Table<EntryView>,
}

impl Model for Entries {
    ghost use Rattle.std.specs.Ordering.{nat_cmp};
    ghost use Rattle.std.specs.Coded.{coded_ℕ};
    ghost use Rattle.tss_protocol.specs.State.{Entry};
    ghost use Rattle.tss_protocol.specs.StateCodes.{entry_code};
    ghost use Rattle.tss_tables.specs.Table.{TableState, table_code};
    ghost use Rattle.tss_renaming.specs.Entries.{entries_of};

    ghost Value = { TableState nat_cmp Entry };

    ghost coded = { table_code coded_ℕ entry_code };

    ghost view = { λ e. entries_of e.table };
}

impl Entries {
    /// No entry, and room for `size`.
    pub fn open(alloc: Global, size: u32) -> Result<Entries, NoMemory>
        ensures { IfOk result (λ e. e ≡ record { size = size; entries = map.empty }) }
    {
        Ok(Entries {
            table: Table::open(alloc, size)?,
        })
    }

    /// How many entries there are.
    pub fn len(&self) -> u32
        ensures exact { result ≡ map.len self.now.entries }
        ensures within { map.len self.now.entries ≤ self.now.size }
    {
        self.table.len()
    }

    /// Whether there are as many as there is room for.
    pub fn is_full(&self) -> bool
        ensures { result ≡ nat_le self.now.size (map.len self.now.entries) }
    {
        self.table.size() <= self.table.len()
    }

    /// The entry of the object with a base.
    pub fn get(&self, base: u32) -> Option<EntryView>
        ensures { option_map entry_of result ≡ map.get self.now.entries base }
    {
        self.table.get(base).copied()
    }

    /// The base of the object at a place, from 0, of the objects by their bases.
    pub fn base_at(&self, i: u32) -> Option<u32>
        ensures { result ≡ key_at self.now.entries i }
    {
        self.table.key_at(i)
    }

    /// Writes the entry of the object with a base.
    pub fn put(&mut self, base: u32, entry: EntryView)
        requires { map.get self.old.entries base ≡ None → map.len self.old.entries < self.old.size }
        ensures { self.new ≡ record self.old { entries = map.insert self.old.entries base (entry_of entry) } }
    {
        if self.table.has(base) {
            let _ = self.table.replace(base, entry);
        } else {
            self.table.add(base, entry);
        }
    }

    /// Takes out the entry of the object with a base, if there is one.
    pub fn remove(&mut self, base: u32)
        ensures { self.new ≡ record self.old { entries = map.remove self.old.entries base } }
    {
        let _ = self.table.remove(base);
    }
}

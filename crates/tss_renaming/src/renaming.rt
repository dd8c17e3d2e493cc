// One bank of the renaming table.
ghost use Rattle.std.specs.Prelude.{◌≡◌, ◌*◌, ◌+◌, ◌-◌, ◌^◌, ◌<◌, ◌≤◌, ◌↔◌, IfOk, IfSome, IsTrue, None, Some, is_some, nat_le, option_map, option_and_then};
ghost use Rattle.std.specs.Option.{ForSome};
ghost use Rattle.std.specs.FinMap as map;
ghost use Rattle.tss_base.specs.declared.bounds.TheConstants.{MAX_BANKS, MAX_OPERANDS};
ghost use Rattle.tss_base.specs.declared.machine.Key.TheVariants as key;
ghost use Rattle.tss_base.specs.Machine.{IsInRange};
ghost use Rattle.tss_maps.specs.Ordered.{key_at};
ghost use Rattle.tss_protocol.specs.Renaming.{has_earlier, bank_wait, wait_number, may_retire, after_idle, after_gone, buffers_after_gone};
ghost use Rattle.tss_events.specs.Events.{messages_of, gone_of};
ghost use Rattle.tss_renaming.specs.Entries.{entry_of};
ghost use Rattle.tss_renaming.specs.Bank.{no_tables, tables_of, fill_in, state_after_gone, answered, buffer_under};
ghost use Rattle.tss_renaming.specs.Holding.{HoldsAlone};
ghost use Rattle.tss_renaming.specs.Decoding.{waited, wait_here, IfDone, OnWait, IsDecoded, decoded_in};

use crate::entries::Entries;
use crate::entry_view::{EntryView, next_entry};
use crate::held::Held;
use crate::opening::opened;
use crate::waits::{BUFFERS_FULL, ENTRIES_FULL, RETIRING, TURN, VERSIONS_FULL};
use std::alloc::Global;
use std::marker::Model;
use tss_base::bounds::MAX_OPERANDS;
use tss_base::{Mode, NoMemory, OpName, Operand, Sizes};
use tss_events::{Gone, HeldBuffer, Message, Sent};
use tss_tables::NameTable;
use tss_tokens::Ended;

/// What a decode does: it is done, with the messages that it sends, or it waits, with the number of the first wait that
/// holds.
pub enum Decoded {
    Done(Sent),
    Wait(u32),
}

/// One bank of the renaming table. A contract sees its number and the sizes of the machine, the entries under the bases
/// of their objects, the places and the buffers under the names that hold them, and the line of operands that are to be
/// decoded here.
#[derive(Drop)]
pub struct Renaming {
    bank: u32,
    sizes: Sizes,
    entries: Entries,
    places: Held,
    buffers: Held,
    line: NameTable<()>,
}

impl Model for Renaming {
    ghost use Rattle.tss_renaming.specs.Bank.{RenamingState, renaming_code, renaming_of, IsBank};

    ghost Value = { RenamingState };

    ghost coded = { renaming_code };

    ghost view = { λ r. renaming_of r.bank r.sizes r.entries r.places r.buffers r.line };

    ghost invariant = { λ r. IsBank r.bank r.sizes r.entries r.places r.buffers r.line };
}

/// Gives back the buffer of a version that is gone, if it has one.
fn give_back(buffers: &mut Held, buffer: Option<HeldBuffer>)
    requires number { ForSome buffer (λ b. b.token.number ≡ buffers.old.number) }
    requires held { ForSome buffer (λ b. map.get buffers.old.places b.name ≡ Some b.token.place) }
    ensures { buffers.new ≡ record buffers.old {
      places = buffers_after_gone buffers.old.places (option_map (λ b. b.name) buffer);
    } }
{
    if let Some(HeldBuffer { name, token }) = buffer {
        buffers.give(name, token);
    }
}

impl Renaming {
    /// An empty bank. The pool of its places has twice its number, and that of its buffers one more.
    pub fn open(alloc: Global, bank: u32, sizes: &Sizes) -> Result<Renaming, NoMemory>
        requires bank { bank < MAX_BANKS }
        requires window { IsInRange key.Window sizes.now.window }
        ensures { IfOk result (λ r. r ≡ no_tables bank sizes.now) }
    {
        Ok(Renaming {
            bank,
            sizes: *sizes,
            entries: Entries::open(alloc, sizes.entries)?,
            places: Held::open(alloc, 2 * bank, sizes.versions)?,
            buffers: Held::open(alloc, 2 * bank + 1, sizes.buffers)?,
            line: NameTable::open(alloc, sizes.window * MAX_OPERANDS)?,
        })
    }

    /// Whether the line has room for one more operand.
    pub fn line_room(&self) -> bool
        ensures { IsTrue result ↔ (map.len self.now.line < self.now.sizes.window * MAX_OPERANDS) }
    {
        self.line.room()
    }

    /// Whether an operand is in the line.
    pub fn expects(&self, o: OpName) -> bool
        ensures { result ≡ is_some (map.get self.now.line o) }
    {
        self.line.has(o)
    }

    /// Puts an operand that is to be decoded into the line.
    pub fn expect(&mut self, o: OpName)
        requires room { map.len self.old.line < self.old.sizes.window * MAX_OPERANDS }
        requires fresh { map.get self.old.line o ≡ None }
        ensures { self.new ≡ record self.old { line = map.insert self.old.line o tt } }
    {
        self.line.add(o, ());
    }

    /// Decodes an operand of the line, or waits for the first of: its turn, its object's entry to leave, an entry, a
    /// place and a buffer. An operand of an earlier task goes first. Done takes the operand out of the line.
    pub fn decode(&mut self, o: OpName, operand: &Operand) -> Decoded
        requires place { map.get self.old.places o ≡ None }
        requires buffer { map.get self.old.buffers o ≡ None }
        requires uses { ForSome (map.get self.old.entries operand.now.object.base) (λ e. e.sent < 2 ^ 32 - 1) }
        ensures waits { waited result ≡ option_map wait_number (wait_here self.old o operand.now) }
        ensures unchanged { OnWait result (self.new ≡ self.old) }
        ensures exact { IfDone result (IsDecoded self.old self.new o operand.now) }
        ensures tables { IfDone result (λ sent. tables_of self.new ≡ (decoded_in self.old o operand.now).part) }
        ensures sent { IfDone result (λ sent. messages_of sent ≡ (decoded_in self.old o operand.now).sent) }
    {
        let entry = self.entry(operand.object.base);
        if let Some(wait) = self.wait_by(o, operand.mode, entry) {
            return Decoded::Wait(wait);
        }
        let message = opened(&mut self.places, &mut self.buffers, o, operand, entry);
        self.entries
            .put(operand.object.base, next_entry(o, operand, entry));
        let _ = self.line.remove(o);
        let mut sent = Sent::new();
        sent.push(message);
        sent.push(Message::Ack(o));
        Decoded::Done(sent)
    }

    /// The number of what a decode of an operand would wait for: none where it would be done.
    pub fn wait_of(&self, o: OpName, operand: &Operand) -> Option<u32>
        ensures { result ≡ option_map wait_number (wait_here self.now o operand.now) }
    {
        self.wait_by(o, operand.mode, self.entry(operand.object.base))
    }

    /// The same, by the entry of the operand's object.
    fn wait_by(&self, o: OpName, mode: Mode, entry: Option<EntryView>) -> Option<u32>
        ensures { result ≡ option_map wait_number (bank_wait self.now.sizes (fill_in self.now) self.now.line
            o (option_map entry_of entry) mode) }
    {
        if self.has_earlier(o) {
            return Some(TURN);
        }
        let Some(entry) = entry else {
            if self.has_no_entry() {
                return Some(ENTRIES_FULL);
            }
            if self.has_no_place() {
                return Some(VERSIONS_FULL);
            }
            return None;
        };
        if entry.retiring {
            return Some(RETIRING);
        }
        match mode {
            Mode::Input => None,
            Mode::Inout => {
                if self.has_no_place() {
                    return Some(VERSIONS_FULL);
                }
                None
            }
            Mode::Output => {
                if self.has_no_place() {
                    return Some(VERSIONS_FULL);
                }
                if self.has_no_buffer() {
                    return Some(BUFFERS_FULL);
                }
                None
            }
        }
    }

    /// Whether an operand of an earlier task is in the line. Names are ordered by their tasks first, so the least name
    /// of the line tells.
    fn has_earlier(&self, o: OpName) -> bool
        ensures { result ≡ has_earlier o self.now.line }
    {
        match self.line.first() {
            Some(first) => first.task < o.task,
            None => false,
        }
    }

    /// Whether all entries are in use.
    fn has_no_entry(&self) -> bool
        ensures { result ≡ nat_le self.now.sizes.entries (map.len self.now.entries) }
    {
        self.entries.is_full()
    }

    /// Whether all places are held.
    fn has_no_place(&self) -> bool
        ensures { result ≡ nat_le self.now.sizes.versions (map.len self.now.places) }
    {
        self.places.is_full()
    }

    /// Whether all buffers are held.
    fn has_no_buffer(&self) -> bool
        ensures { result ≡ nat_le self.now.sizes.buffers (map.len self.now.buffers) }
    {
        self.buffers.is_full()
    }

    /// Answers a version that asks whether it may retire, with the number of readers that it counted. It may where it
    /// is the latest of its object and no further reader was directed to it: then its entry is about to leave.
    pub fn idle(&mut self, v: OpName, base: u32, count: u32) -> Sent
        ensures exact { self.new ≡ record self.old { entries = (after_idle self.old.entries v base count).part } }
        ensures messages { result ≡ answered v (may_retire v count (map.get self.old.entries base)) }
        ensures sent { messages_of result ≡ (after_idle self.old.entries v base count).sent }
    {
        let mut sent = Sent::new();
        if let Some(entry) = self.entry(base) {
            if entry.may_retire(v, count) {
                let leaving = EntryView {
                    retiring: true,
                    ..entry
                };
                self.entries.put(base, leaving);
                sent.push(Message::Retire(v));
                return sent;
            }
        }
        sent.push(Message::Nack(v));
        sent
    }

    /// A version is gone: its place is free, its buffer where that ends with it, and its object's entry where it was
    /// the last of the object.
    pub fn gone(&mut self, m: Gone)
        requires place_number { m.place.number ≡ 2 * self.old.bank }
        requires place { map.get self.old.places m.version ≡ Some m.place.place }
        requires buffer_number { ForSome m.buffer (λ b. b.token.number ≡ 2 * self.old.bank + 1) }
        requires buffer { ForSome m.buffer (λ b. map.get self.old.buffers b.name ≡ Some b.token.place) }
        ensures exact { self.new ≡ state_after_gone self.old m.version (gone_of m) }
        ensures tables { tables_of self.new ≡ after_gone (tables_of self.old) m.version (gone_of m) }
    {
        let Gone {
            version,
            object,
            place,
            buffer,
            retired,
        } = m;
        self.places.give(version, place);
        give_back(&mut self.buffers, buffer);
        if retired {
            self.entries.remove(object.base);
        }
    }

    /// How many entries there are.
    pub fn entries(&self) -> u32
        ensures exact { result ≡ map.len self.now.entries }
        ensures within { map.len self.now.entries ≤ self.now.sizes.entries }
    {
        self.entries.len()
    }

    /// How many places are held.
    pub fn places(&self) -> u32
        ensures exact { result ≡ map.len self.now.places }
        ensures within { map.len self.now.places ≤ self.now.sizes.versions }
    {
        self.places.len()
    }

    /// How many buffers are held.
    pub fn buffers(&self) -> u32
        ensures exact { result ≡ map.len self.now.buffers }
        ensures within { map.len self.now.buffers ≤ self.now.sizes.buffers }
    {
        self.buffers.len()
    }

    /// The entry of the object with a base.
    pub fn entry(&self, base: u32) -> Option<EntryView>
        ensures { option_map entry_of result ≡ map.get self.now.entries base }
    {
        self.entries.get(base)
    }

    /// The entry at a place, from 0, of the entries in the order of their objects' bases.
    pub fn entry_at(&self, i: u32) -> Option<EntryView>
        ensures { option_map entry_of result ≡ option_and_then (map.get self.now.entries) (key_at self.now.entries i) }
    {
        self.entry(self.entries.base_at(i)?)
    }

    /// The place that is held under a name. No other name holds it.
    pub fn place(&self, name: OpName) -> Option<u32>
        ensures exact { result ≡ map.get self.now.places name }
        ensures alone { IfSome result (HoldsAlone self.now.places self.now.sizes.versions name) }
    {
        self.places.get(name)
    }

    /// The name at a place, from 0, of the names in order that hold places.
    pub fn place_at(&self, i: u32) -> Option<OpName>
        ensures { result ≡ key_at self.now.places i }
    {
        self.places.name_at(i)
    }

    /// The buffer that is held under a name, by its place. No other name holds it.
    pub fn buffer(&self, name: OpName) -> Option<u32>
        ensures exact { result ≡ map.get self.now.buffers name }
        ensures alone { IfSome result (HoldsAlone self.now.buffers self.now.sizes.buffers name) }
    {
        self.buffers.get(name)
    }

    /// The name at a place, from 0, of the names in order that hold buffers, with its buffer's place.
    pub fn buffer_at(&self, i: u32) -> Option<(OpName, u32)>
        ensures { result ≡ option_and_then (buffer_under self.now.buffers) (key_at self.now.buffers i) }
    {
        let name = self.buffers.name_at(i)?;
        Some((name, self.buffers.get(name)?))
    }

    /// Ends the bank, with its pools of places and of buffers.
    pub fn close(self) -> (Ended, Ended)
        ensures places { result.0 ≡ 2 * self.bank }
        ensures buffers { result.1 ≡ 2 * self.bank + 1 }
    {
        let Renaming {
            bank: _,
            sizes: _,
            entries: _,
            places,
            buffers,
            line: _,
        } = self;
        (places.end(), buffers.end())
    }
}

// The messages under way.
ghost use Rattle.std.specs.Prelude.{◌≡◌, ◌<◌, ◌≤◌, ◌↔◌, None, Some, IfOk, IsTrue, All, length, is_some, option_map, slice_get};
ghost use Rattle.std.specs.FinMap as map;
ghost use Rattle.tss_protocol.specs.Mail.{posted, taken, message_at, message_count, message_names, name_of};
ghost use Rattle.tss_events.specs.Events.{message_of};
ghost use Rattle.tss_mail.specs.Letters.{mail_of, no_letters, letter_at, with_letter, without_letter};
ghost use Rattle.tss_mail.specs.KindNames.{names_of_kind};

use crate::kind::{KINDS, Kind, address_of, kind_at};
use std::alloc::Global;
use std::marker::Model;
use tss_base::{Event, NoMemory};
use tss_events::Message;
use tss_tables::NameTable;

/// The messages under way, at most one of a name. A contract sees how many there is room for and, for each kind, what
/// stands under each name.
pub struct Mail {
    size: u32,
    count: u32,
    tables: Vec<NameTable<Message>>,
}

impl Model for Mail {
    ghost use Rattle.tss_mail.specs.Letters.{MailState};
    ghost use Rattle.tss_mail.specs.Codes.{mail_code};
    ghost use Rattle.tss_mail.specs.Kept.{letters_of, AreLetters};

    ghost Value = { MailState };

    ghost coded = { mail_code };

    ghost view = { λ m. letters_of m.size m.tables.items };

    ghost invariant = { λ m. AreLetters m.size m.count m.tables.items };
}

/// Ends tables that are empty.
fn close_all(tables: Vec<NameTable<Message>>)
    requires { All (λ t. map.len t.entries ≡ 0) tables.items }
{
    let mut tables = tables;
    while let Some(table) = tables.pop() {
        table.close();
    }
    tables.destroy_empty();
}

impl Mail {
    /// No message, and room for `size`.
    pub fn open(alloc: Global, size: u32) -> Result<Mail, NoMemory>
        ensures { IfOk result (λ m. m ≡ no_letters size) }
    {
        let Ok(mut tables) = Vec::with_capacity(alloc, KINDS) else {
            return Err(NoMemory);
        };
        for _ in 0..KINDS {
            match NameTable::open(alloc, size) {
                Ok(table) => match tables.push(table) {
                    Ok(()) => {}
                    Err(_) => unreachable!(),
                },
                Err(fault) => {
                    close_all(tables);
                    return Err(fault);
                }
            }
        }
        Ok(Mail {
            size,
            count: 0,
            tables,
        })
    }

    /// Sends a message under its name, where it waits until it is taken.
    pub fn post(&mut self, m: Message)
        requires room { message_count (mail_of self.old) < self.old.size }
        requires fresh { message_at (mail_of self.old) (name_of (message_of m)) ≡ None }
        ensures exact { self.new ≡ with_letter self.old m }
        ensures posted { mail_of self.new ≡ posted (mail_of self.old) (message_of m) }
    {
        let Some((kind, o)) = address_of(&m.name()) else {
            unreachable!();
        };
        self.tables[kind.number()].add(o, m);
        self.count += 1;
    }

    /// Takes out the message of a name.
    pub fn take(&mut self, name: &Event) -> Option<Message>
        ensures exact { result ≡ letter_at self.old name.now }
        ensures others { self.new ≡ without_letter self.old name.now }
        ensures message { option_map message_of result ≡ message_at (mail_of self.old) name.now }
        ensures taken { mail_of self.new ≡ taken (mail_of self.old) name.now }
    {
        let (kind, o) = address_of(name)?;
        let message = self.tables[kind.number()].remove(o)?;
        self.count -= 1;
        Some(message)
    }

    /// Whether there is a message of a name.
    pub fn has(&self, name: &Event) -> bool
        ensures { result ≡ is_some (message_at (mail_of self.now) name.now) }
    {
        self.see(name).is_some()
    }

    /// The message of a name.
    pub fn see(&self, name: &Event) -> Option<&Message>
        ensures exact { option_map (λ m. m.now) result ≡ letter_at self.now name.now }
        ensures message { option_map (λ m. message_of m.now) result ≡ message_at (mail_of self.now) name.now }
    {
        let (kind, o) = address_of(name)?;
        self.tables[kind.number()].get(o)
    }

    /// Whether there is room for one more message.
    pub fn room(&self) -> bool
        ensures { IsTrue result ↔ (message_count (mail_of self.now) < self.now.size) }
    {
        self.count() < self.size
    }

    /// How many messages there are.
    pub fn count(&self) -> u32
        ensures exact { result ≡ message_count (mail_of self.now) }
        ensures within { result ≤ self.now.size }
    {
        self.count
    }

    /// The name of the message at a place, from 0, in the order of events.
    pub fn at(&self, i: u32) -> Option<Event>
        ensures { result ≡ slice_get (message_names (mail_of self.now)) i }
    {
        let mut place = i;
        for number in 0..KINDS {
            let table = &self.tables[number];
            match table.key_at(place) {
                Some(o) => return Some(kind_at(number).event(o)),
                None => place -= table.len(),
            }
        }
        None
    }

    /// How many messages of a kind there are.
    pub fn count_of(&self, kind: Kind) -> u32
        ensures { result ≡ length (names_of_kind (mail_of self.now) kind) }
    {
        self.tables[kind.number()].len()
    }

    /// The name of the message of a kind at a place, from 0, in order.
    pub fn at_kind(&self, kind: Kind, i: u32) -> Option<Event>
        ensures { result ≡ slice_get (names_of_kind (mail_of self.now) kind) i }
    {
        match self.tables[kind.number()].key_at(i) {
            Some(o) => Some(kind.event(o)),
            None => None,
        }
    }

    /// Ends the mail, once there is no message.
    pub fn close(self)
        requires { message_count (mail_of self) ≡ 0 }
    {
        let Mail {
            size: _,
            count: _,
            tables,
        } = self;
        close_all(tables);
    }
}

// Lists of the names whose events of a kind may happen, kept from event to event. An event may change the list for few
// names alone, and only these are tested anew.
ghost use Rattle.std.specs.Prelude.{◌≡◌, ◌<◌, IfOk, None, option_map, slice_get, true};
ghost use Rattle.std.specs.FinMap as map;
ghost use Rattle.tss_mail.specs.Kinds.{event_of};
ghost use Rattle.tss_mail.specs.KindNames.{names_of_kind};
ghost use Rattle.tss_pipeline.specs.Fit.{IsFit};
ghost use Rattle.tss_pipeline.specs.Listing.{is_listed, marked, may_happen, FitsBeside, FitsIn, AreListed, WereListed, name_taken, suspects_of, suspects_of_open, suspects_of_use};
ghost use Rattle.tss_pipeline.specs.State.{state_of};

use crate::opening::message_limit;
use crate::units::Units;
use std::alloc::Global;
use tss_base::{Event, NoMemory, OpName};
use tss_mail::Kind;
use tss_tables::NameTable;

/// The names whose events of a kind may happen.
pub(crate) type Names = NameTable<()>;

/// The names that an event may put into a list or take out of it: none, one, or any.
#[derive(Clone, Copy, Debug, PartialEq, Eq)]
pub(crate) enum Suspects {
    Nobody,
    One(OpName),
    All,
}

/// For which names an event may change whether their version may be opened.
fn suspects_of_open(e: &Event) -> Suspects
    ensures { result ≡ suspects_of_open e.now }
{
    match e {
        Event::Decode(o) => Suspects::One(*o),
        Event::Open(_) => Suspects::All,
        _ => Suspects::Nobody,
    }
}

/// For which names an event may change whether they may be enlisted.
fn suspects_of_use(e: &Event) -> Suspects
    ensures { result ≡ suspects_of_use e.now }
{
    match e {
        Event::Decode(o) | Event::Use(o) => Suspects::One(*o),
        Event::Open(_) => Suspects::All,
        _ => Suspects::Nobody,
    }
}

/// For which names an event may change whether their event of a kind may happen.
fn suspects_of(kind: Kind, e: &Event) -> Suspects
    ensures { result ≡ suspects_of kind e.now }
{
    match kind {
        Kind::Open => suspects_of_open(e),
        Kind::Use => suspects_of_use(e),
        Kind::Decode
        | Kind::Ack
        | Kind::Ready
        | Kind::Link
        | Kind::Release
        | Kind::Bye
        | Kind::Idle
        | Kind::Nack
        | Kind::Retire
        | Kind::Gone => Suspects::All,
    }
}

/// The name of the message that an event takes.
fn name_taken(e: &Event) -> Option<OpName>
    ensures { result ≡ name_taken e.now }
{
    match e {
        Event::Decode(o)
        | Event::Ack(o)
        | Event::Open(o)
        | Event::Use(o)
        | Event::Ready(o)
        | Event::Link(o)
        | Event::Release(o)
        | Event::Bye(o)
        | Event::Idle(o)
        | Event::Nack(o)
        | Event::Retire(o)
        | Event::Gone(o) => Some(*o),
        Event::Main
        | Event::Take
        | Event::Start(_)
        | Event::Exec(_)
        | Event::Finish(_)
        | Event::Copy(_) => None,
    }
}

/// Puts a name into a list, or takes it out.
fn mark(list: &mut Names, o: OpName, may: bool)
    requires { may ≡ true → map.get list.old.entries o ≡ None → map.len list.old.entries < list.old.size }
    ensures { list.new ≡ record list.old { entries = marked list.old.entries o may } }
{
    if !may {
        let _ = list.remove(o);
    } else if !list.has(o) {
        list.add(o, ());
    }
}

impl Units {
    /// Tests a name anew: it is in the list of a kind exactly where its event may happen.
    fn mark_name(&self, kind: Kind, o: OpName, list: &mut Names)
        requires fit { IsFit self.now }
        requires kind { is_listed kind ≡ true }
        requires fits { FitsBeside self.now kind o list.old }
        ensures { list.new ≡ record list.old { entries = marked list.old.entries o (may_happen self.now kind o) } }
    {
        mark(list, o, self.is_enabled(kind.event(o)));
    }

    /// The name at a place, from 0, of those that have a message of a kind.
    fn name_at(&self, kind: Kind, i: u32) -> Option<OpName>
        ensures { option_map (event_of kind) result ≡ slice_get (names_of_kind (state_of self.now).mail kind) i }
    {
        match self.mail.at_kind(kind, i) {
            Some(name) => name_taken(&name),
            None => None,
        }
    }

    /// Tests all names of a kind anew.
    fn list_anew(&self, kind: Kind, list: &mut Names)
        requires fit { IsFit self.now }
        requires kind { is_listed kind ≡ true }
        requires fits { FitsIn self.now kind list.old }
        ensures { AreListed self.now kind list.new }
    {
        for i in 0..self.mail.count_of(kind) {
            if let Some(o) = self.name_at(kind, i) {
                self.mark_name(kind, o, list);
            }
        }
    }

    /// The list of a kind.
    pub(crate) fn listed(&self, alloc: Global, kind: Kind) -> Result<Names, NoMemory>
        requires fit { IsFit self.now }
        requires kind { is_listed kind ≡ true }
        ensures { IfOk result (AreListed self.now kind) }
    {
        match NameTable::open(alloc, message_limit(&self.machine)) {
            Ok(opened) => {
                let mut list = opened;
                self.list_anew(kind, &mut list);
                Ok(list)
            }
            Err(fault) => Err(fault),
        }
    }

    /// The list of a kind after an event, by what it was before it. Only names for which the event may change something
    /// are tested.
    pub(crate) fn list_after(&self, e: &Event, kind: Kind, list: &mut Names)
        requires fit { IsFit self.now }
        requires kind { is_listed kind ≡ true }
        requires before { WereListed e.now self.now kind list.old }
        ensures { AreListed self.now kind list.new }
    {
        match suspects_of(kind, e) {
            Suspects::Nobody => {}
            Suspects::One(o) => self.mark_name(kind, o, list),
            Suspects::All => {
                if let Some(o) = name_taken(e) {
                    let _ = list.remove(o);
                }
                self.list_anew(kind, list);
            }
        }
    }
}

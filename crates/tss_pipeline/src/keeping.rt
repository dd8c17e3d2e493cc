// What may happen, kept from event to event: how many events of each kind, and of the kinds whose events may have to wait
// what is needed for that number.
ghost use Rattle.std.specs.Prelude.{◌≡◌, IfOk, if◌then◌else◌, slice_get, true};
ghost use Rattle.tss_pipeline.specs.declared.enabling.Source.TheVariants as source;
ghost use Rattle.tss_pipeline.specs.Enabling.{enabled_of_kind, is_always};
ghost use Rattle.tss_pipeline.specs.Fit.{IsFit};
ghost use Rattle.tss_pipeline.specs.Keeping.{AreTested, AreWaiting, WereEnabled, WereTested, WereWaiting, count_enabled, numbers_of};
ghost use Rattle.tss_pipeline.specs.State.{state_of};

use crate::changing::touches;
use crate::enabling::{KINDS, Source};
use crate::listing::Names;
use crate::units::Units;
use std::alloc::Global;
use tss_base::{Event, NoMemory};
use tss_mail::Kind;

/// What may happen of the kinds whose events may have to wait. Of opens and uses, which wait for the version that they
/// name, the names that may be taken; how many decodes, which wait for their turn and for room in their bank, and retires,
/// which wait for their bank's copy engine; and how many events of workers and of banks that copy.
#[derive(Drop)]
pub(crate) struct Waiting {
    opens: Names,
    uses: Names,
    decodes: u32,
    retires: u32,
    starts: u32,
    execs: u32,
    finishes: u32,
    copies: u32,
}

/// What may happen: how many events of each kind, in the order of the kinds, with what is kept of those that may have to
/// wait.
#[derive(Drop)]
pub(crate) struct Tested {
    waiting: Waiting,
    pub(crate) numbers: [u32; KINDS],
}

/// One, where an event may happen, or none.
fn one_if(may: bool) -> u32
    ensures { result ≡ (if may then 1 else 0) }
{
    if may { 1 } else { 0 }
}

impl Units {
    /// The message of a kind at a place, from 0, of those that may be taken.
    fn letter_in(&self, kept: &Tested, kind: Kind, place: u32) -> Option<Event>
        requires fit { IsFit self.now }
        requires kept { AreTested self.now kept.now }
        ensures { result ≡ slice_get (enabled_of_kind self.now.machine (state_of self.now) (source.Letters kind)) place }
    {
        match kind {
            Kind::Open => match kept.waiting.opens.key_at(place) {
                Some(o) => Some(Event::Open(o)),
                None => None,
            },
            Kind::Use => match kept.waiting.uses.key_at(place) {
                Some(o) => Some(Event::Use(o)),
                None => None,
            },
            Kind::Decode
            | Kind::Ack
            | Kind::Ready
            | Kind::Link
            | Kind::Release
            | Kind::Bye
            | Kind::Idle
            | Kind::Nack
            | Kind::Retire
            | Kind::Gone => self.enabled_in(Source::Letters(kind), place),
        }
    }

    /// The event at a place, from 0, of those of a kind that may happen.
    pub(crate) fn event_in(&self, kept: &Tested, source: Source, place: u32) -> Option<Event>
        requires fit { IsFit self.now }
        requires kept { AreTested self.now kept.now }
        ensures { result ≡ slice_get (enabled_of_kind self.now.machine (state_of self.now) source) place }
    {
        match source {
            Source::Letters(kind) => self.letter_in(kept, kind, place),
            Source::Main
            | Source::Take
            | Source::Start
            | Source::Exec
            | Source::Finish
            | Source::Copy => self.enabled_in(source, place),
        }
    }

    /// What may happen of the kinds whose events may have to wait.
    fn waiting(&self, alloc: Global) -> Result<Waiting, NoMemory>
        requires { IsFit self.now }
        ensures { IfOk result (AreWaiting self.now) }
    {
        Ok(Waiting {
            opens: self.listed(alloc, Kind::Open)?,
            uses: self.listed(alloc, Kind::Use)?,
            decodes: self.enabled_of(Source::Letters(Kind::Decode)),
            retires: self.enabled_of(Source::Letters(Kind::Retire)),
            starts: self.enabled_of(Source::Start),
            execs: self.enabled_of(Source::Exec),
            finishes: self.enabled_of(Source::Finish),
            copies: self.enabled_of(Source::Copy),
        })
    }

    /// How many messages there are of a kind that needn't wait.
    #[inline(always)]
    fn letters(&self, kind: Kind) -> u32
        requires { is_always kind ≡ true }
        ensures { result ≡ count_enabled self.now (source.Letters kind) }
    {
        self.mail.count_of(kind)
    }

    /// How many events of each kind may happen, by what is kept of those that may have to wait.
    fn numbers(&self, waiting: &Waiting) -> [u32; KINDS]
        requires fit { IsFit self.now }
        requires waiting { AreWaiting self.now waiting.now }
        ensures { result ≡ numbers_of self.now }
    {
        [
            one_if(self.can_main()),
            one_if(self.can_take()),
            waiting.decodes,
            self.letters(Kind::Ack),
            waiting.opens.len(),
            waiting.uses.len(),
            self.letters(Kind::Ready),
            self.letters(Kind::Link),
            waiting.starts,
            waiting.execs,
            waiting.finishes,
            self.letters(Kind::Release),
            self.letters(Kind::Bye),
            self.letters(Kind::Idle),
            self.letters(Kind::Nack),
            waiting.retires,
            waiting.copies,
            self.letters(Kind::Gone),
        ]
    }

    /// What may happen.
    pub(crate) fn tested(&self, alloc: Global) -> Result<Tested, NoMemory>
        requires { IsFit self.now }
        ensures { IfOk result (AreTested self.now) }
    {
        let waiting = self.waiting(alloc)?;
        let numbers = self.numbers(&waiting);
        Ok(Tested { waiting, numbers })
    }

    /// How many events of a kind may happen after an event, by how many might before it. Where the event leaves them alone,
    /// they are as many.
    #[inline(always)]
    fn enabled_after(&self, e: &Event, source: Source, before: u32) -> u32
        requires fit { IsFit self.now }
        requires before { WereEnabled e.now self.now source before }
        ensures { result ≡ count_enabled self.now source }
    {
        if touches(source, e) {
            self.enabled_of(source)
        } else {
            before
        }
    }

    /// Brings what is kept of the kinds whose events may have to wait up to date after an event.
    fn keep_waiting(&self, e: &Event, kept: &mut Waiting)
        requires fit { IsFit self.now }
        requires before { WereWaiting e.now self.now kept.old }
        ensures { AreWaiting self.now kept.new }
    {
        self.list_after(e, Kind::Open, &mut kept.opens);
        self.list_after(e, Kind::Use, &mut kept.uses);
        kept.decodes = self.enabled_after(e, Source::Letters(Kind::Decode), kept.decodes);
        kept.retires = self.enabled_after(e, Source::Letters(Kind::Retire), kept.retires);
        kept.starts = self.enabled_after(e, Source::Start, kept.starts);
        kept.execs = self.enabled_after(e, Source::Exec, kept.execs);
        kept.finishes = self.enabled_after(e, Source::Finish, kept.finishes);
        kept.copies = self.enabled_after(e, Source::Copy, kept.copies);
    }

    /// Brings what may happen after an event up to date.
    pub(crate) fn keep(&self, e: &Event, kept: &mut Tested)
        requires fit { IsFit self.now }
        requires before { WereTested e.now self.now kept.old }
        ensures { AreTested self.now kept.new }
    {
        self.keep_waiting(e, &mut kept.waiting);
        kept.numbers = self.numbers(&kept.waiting);
    }
}

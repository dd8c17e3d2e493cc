// The events that may happen, in order.
ghost use Rattle.std.specs.Prelude.{◌≡◌, ◌<◌, Some, length, slice_get};
ghost use Rattle.tss_protocol.specs.UnitMachine.{is_enabled, enabled_events};
ghost use Rattle.tss_pipeline.specs.Enabling.{candidates_of, enabled_of_kind, enabled_of_kinds, is_always, is_free};
ghost use Rattle.tss_pipeline.specs.Fit.{IsFit};
ghost use Rattle.tss_pipeline.specs.Keeping.{AreTested};
ghost use Rattle.tss_pipeline.specs.State.{state_of};

use crate::keeping::Tested;
use crate::units::Units;
use tss_base::Event;
use tss_mail::Kind;

/// A kind of events, in their order: with one event, with one for each message of a kind, for each worker or for each bank.
#[derive(Clone, Copy, Debug, PartialEq, Eq)]
pub(crate) enum Source {
    Main,
    Take,
    Letters(Kind),
    Start,
    Exec,
    Finish,
    Copy,
}

/// How many kinds there are.
pub(crate) const KINDS: usize = 18;

/// All kinds in order.
const SOURCES: [Source; KINDS] = [
    Source::Main,
    Source::Take,
    Source::Letters(Kind::Decode),
    Source::Letters(Kind::Ack),
    Source::Letters(Kind::Open),
    Source::Letters(Kind::Use),
    Source::Letters(Kind::Ready),
    Source::Letters(Kind::Link),
    Source::Start,
    Source::Exec,
    Source::Finish,
    Source::Letters(Kind::Release),
    Source::Letters(Kind::Bye),
    Source::Letters(Kind::Idle),
    Source::Letters(Kind::Nack),
    Source::Letters(Kind::Retire),
    Source::Copy,
    Source::Letters(Kind::Gone),
];

/// Whether a message of a kind may be taken wherever it is.
fn is_always(kind: Kind) -> bool
    ensures { result ≡ is_always kind }
{
    match kind {
        Kind::Decode | Kind::Open | Kind::Use | Kind::Retire => false,
        Kind::Ack
        | Kind::Ready
        | Kind::Link
        | Kind::Release
        | Kind::Bye
        | Kind::Idle
        | Kind::Nack
        | Kind::Gone => true,
    }
}

impl Source {
    /// Whether each candidate of the kind may happen: its message is there, and nothing more is asked.
    fn is_free(self) -> bool
        ensures { result ≡ is_free self }
    {
        match self {
            Source::Letters(kind) => is_always(kind),
            Source::Main
            | Source::Take
            | Source::Start
            | Source::Exec
            | Source::Finish
            | Source::Copy => false,
        }
    }
}

impl Units {
    /// How many candidates of a kind there are.
    fn candidates(&self, source: Source) -> u32
        requires { IsFit self.now }
        ensures { result ≡ length (candidates_of self.now.machine (state_of self.now) source) }
    {
        match source {
            Source::Main | Source::Take => 1,
            Source::Letters(kind) => self.mail.count_of(kind),
            Source::Start | Source::Exec | Source::Finish => self.machine.sizes.workers,
            Source::Copy => self.machine.sizes.banks,
        }
    }

    /// The candidate at a place of a kind, from 0.
    fn candidate(&self, source: Source, i: u32) -> Event
        requires fit { IsFit self.now }
        requires within { i < length (candidates_of self.now.machine (state_of self.now) source) }
        ensures { slice_get (candidates_of self.now.machine (state_of self.now) source) i ≡ Some result }
    {
        match source {
            Source::Main => Event::Main,
            Source::Take => Event::Take,
            Source::Letters(kind) => match self.mail.at_kind(kind, i) {
                Some(event) => event,
                None => unreachable!(),
            },
            Source::Start => Event::Start(i),
            Source::Exec => Event::Exec(i),
            Source::Finish => Event::Finish(i),
            Source::Copy => Event::Copy(i),
        }
    }

    /// How many events of a kind may happen.
    pub(crate) fn enabled_of(&self, source: Source) -> u32
        requires { IsFit self.now }
        ensures { result ≡ length (enabled_of_kind self.now.machine (state_of self.now) source) }
    {
        if source.is_free() {
            return self.candidates(source);
        }
        let mut count = 0;
        for i in 0..self.candidates(source) {
            if self.is_enabled(self.candidate(source, i)) {
                count += 1;
            }
        }
        count
    }

    /// The event at a place, from 0, of those of a kind that may happen, by a test of each.
    pub(crate) fn enabled_in(&self, source: Source, place: u32) -> Option<Event>
        requires { IsFit self.now }
        ensures { result ≡ slice_get (enabled_of_kind self.now.machine (state_of self.now) source) place }
    {
        if source.is_free() {
            if place < self.candidates(source) {
                return Some(self.candidate(source, place));
            }
            return None;
        }
        let mut left = place;
        for i in 0..self.candidates(source) {
            let event = self.candidate(source, i);
            if self.is_enabled(event) {
                if left == 0 {
                    return Some(event);
                }
                left -= 1;
            }
        }
        None
    }

    /// How many events may happen.
    pub(crate) fn enabled_count(&self, kept: &Tested) -> u32
        requires fit { IsFit self.now }
        requires kept { AreTested self.now kept.now }
        ensures { result ≡ length (enabled_events self.now.machine (state_of self.now)) }
    {
        let mut count = 0;
        for kind in 0..KINDS {
            count += kept.numbers[kind];
        }
        count
    }

    /// The event at a place, from 0, of those that may happen, in order.
    pub(crate) fn enabled_at(&self, kept: &Tested, i: u32) -> Option<Event>
        requires fit { IsFit self.now }
        requires kept { AreTested self.now kept.now }
        ensures { result ≡ slice_get (enabled_events self.now.machine (state_of self.now)) i }
    {
        let mut left = i;
        for kind in 0..KINDS {
            let count = kept.numbers[kind];
            if left < count {
                return self.event_in(kept, SOURCES[kind], left);
            }
            left -= count;
        }
        None
    }
}

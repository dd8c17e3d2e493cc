// The kinds of messages.
ghost use Rattle.std.specs.Prelude.{◌≡◌, ◌<◌};
ghost use Rattle.tss_mail.specs.Kinds.{number_of, kind_at, event_of, address_of};

use tss_base::{Event, OpName};

/// How many kinds of messages there are.
pub const KINDS: usize = 12;

/// The kinds of messages, in the order of events.
#[derive(Clone, Copy, Debug, PartialEq, Eq)]
pub enum Kind {
    Decode,
    Ack,
    Open,
    Use,
    Ready,
    Link,
    Release,
    Bye,
    Idle,
    Nack,
    Retire,
    Gone,
}

impl Kind {
    /// Its place among the kinds, from 0.
    pub fn number(self) -> usize
        ensures exact { result ≡ number_of self }
        ensures within { result < 12 }
    {
        match self {
            Kind::Decode => 0,
            Kind::Ack => 1,
            Kind::Open => 2,
            Kind::Use => 3,
            Kind::Ready => 4,
            Kind::Link => 5,
            Kind::Release => 6,
            Kind::Bye => 7,
            Kind::Idle => 8,
            Kind::Nack => 9,
            Kind::Retire => 10,
            Kind::Gone => 11,
        }
    }

    /// The name of its message for an operand or a version.
    pub fn event(self, o: OpName) -> Event
        ensures { result ≡ event_of self o }
    {
        match self {
            Kind::Decode => Event::Decode(o),
            Kind::Ack => Event::Ack(o),
            Kind::Open => Event::Open(o),
            Kind::Use => Event::Use(o),
            Kind::Ready => Event::Ready(o),
            Kind::Link => Event::Link(o),
            Kind::Release => Event::Release(o),
            Kind::Bye => Event::Bye(o),
            Kind::Idle => Event::Idle(o),
            Kind::Nack => Event::Nack(o),
            Kind::Retire => Event::Retire(o),
            Kind::Gone => Event::Gone(o),
        }
    }
}

/// The kind at a place, from 0. Past the others it is the last.
pub fn kind_at(number: usize) -> Kind
    ensures { result ≡ kind_at number }
{
    match number {
        0 => Kind::Decode,
        1 => Kind::Ack,
        2 => Kind::Open,
        3 => Kind::Use,
        4 => Kind::Ready,
        5 => Kind::Link,
        6 => Kind::Release,
        7 => Kind::Bye,
        8 => Kind::Idle,
        9 => Kind::Nack,
        10 => Kind::Retire,
        _ => Kind::Gone,
    }
}

/// The kind of the message that an event takes, and whom it is for: none where it takes none.
pub fn address_of(name: &Event) -> Option<(Kind, OpName)>
    ensures { result ≡ address_of name.now }
{
    match name {
        Event::Decode(o) => Some((Kind::Decode, *o)),
        Event::Ack(o) => Some((Kind::Ack, *o)),
        Event::Open(o) => Some((Kind::Open, *o)),
        Event::Use(o) => Some((Kind::Use, *o)),
        Event::Ready(o) => Some((Kind::Ready, *o)),
        Event::Link(o) => Some((Kind::Link, *o)),
        Event::Release(o) => Some((Kind::Release, *o)),
        Event::Bye(o) => Some((Kind::Bye, *o)),
        Event::Idle(v) => Some((Kind::Idle, *v)),
        Event::Nack(v) => Some((Kind::Nack, *v)),
        Event::Retire(v) => Some((Kind::Retire, *v)),
        Event::Gone(v) => Some((Kind::Gone, *v)),
        Event::Main
        | Event::Take
        | Event::Start(_)
        | Event::Exec(_)
        | Event::Finish(_)
        | Event::Copy(_) => None,
    }
}

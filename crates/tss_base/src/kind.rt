// The kinds of events.
ghost use Rattle.std.specs.Prelude.{◌≡◌, ◌<◌};
ghost use Rattle.tss_base.specs.Kinds.{event_of, number_of};

use crate::event::Event;
use crate::operand::OpName;

/// How many kinds of events there are.
pub const KIND_COUNT: usize = 18;

/// The kinds of events, in the order of the list of enabled events. A kind whose events take messages is also the kind
/// of those messages.
#[derive(Clone, Copy, Debug, PartialEq, Eq)]
pub enum Kind {
    Main,
    Take,
    Decode,
    Ack,
    Open,
    Use,
    Ready,
    Link,
    Start,
    Exec,
    Finish,
    Release,
    Bye,
    Idle,
    Nack,
    Retire,
    Copy,
    Gone,
}

/// All kinds in order.
pub const KINDS: [Kind; KIND_COUNT] = [
    Kind::Main,
    Kind::Take,
    Kind::Decode,
    Kind::Ack,
    Kind::Open,
    Kind::Use,
    Kind::Ready,
    Kind::Link,
    Kind::Start,
    Kind::Exec,
    Kind::Finish,
    Kind::Release,
    Kind::Bye,
    Kind::Idle,
    Kind::Nack,
    Kind::Retire,
    Kind::Copy,
    Kind::Gone,
];

impl Kind {
    /// Its place among the kinds, from 0 to 17.
    #[inline(always)]
    pub fn number(self) -> usize
        ensures exact { result ≡ number_of self }
        ensures within { result < 18 }
    {
        match self {
            Kind::Main => 0,
            Kind::Take => 1,
            Kind::Decode => 2,
            Kind::Ack => 3,
            Kind::Open => 4,
            Kind::Use => 5,
            Kind::Ready => 6,
            Kind::Link => 7,
            Kind::Start => 8,
            Kind::Exec => 9,
            Kind::Finish => 10,
            Kind::Release => 11,
            Kind::Bye => 12,
            Kind::Idle => 13,
            Kind::Nack => 14,
            Kind::Retire => 15,
            Kind::Copy => 16,
            Kind::Gone => 17,
        }
    }

    /// The event of the kind with a name: that of the operand or the version whose message it takes. Of a worker or a
    /// bank the number stands as the name's task.
    #[inline(always)]
    pub fn event(self, o: OpName) -> Event
        ensures { result ≡ event_of self o }
    {
        match self {
            Kind::Main => Event::Main,
            Kind::Take => Event::Take,
            Kind::Decode => Event::Decode(o),
            Kind::Ack => Event::Ack(o),
            Kind::Open => Event::Open(o),
            Kind::Use => Event::Use(o),
            Kind::Ready => Event::Ready(o),
            Kind::Link => Event::Link(o),
            Kind::Start => Event::Start(o.task),
            Kind::Exec => Event::Exec(o.task),
            Kind::Finish => Event::Finish(o.task),
            Kind::Release => Event::Release(o),
            Kind::Bye => Event::Bye(o),
            Kind::Idle => Event::Idle(o),
            Kind::Nack => Event::Nack(o),
            Kind::Retire => Event::Retire(o),
            Kind::Copy => Event::Copy(o.task),
            Kind::Gone => Event::Gone(o),
        }
    }
}

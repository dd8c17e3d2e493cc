// Events of the unit machine.
ghost use Rattle.std.specs.Prelude.{◌≡◌};
ghost use Rattle.tss_base.specs.Event.{fits, name_fits};
ghost use Rattle.tss_base.specs.Kinds.{kind_of, message_taken};

use crate::bounds::{MAX_BANKS, MAX_OPERANDS, MAX_TASKS, MAX_WORKERS};
use crate::kind::Kind;
use crate::operand::OpName;

/// One event of the unit machine: one unit takes one message, or main, a worker (its number is given) or a copy engine
/// (its bank is given) goes one stretch further.
#[derive(Clone, Copy, Debug, PartialEq, Eq)]
pub enum Event {
    Main,
    Take,
    Decode(OpName),
    Ack(OpName),
    Open(OpName),
    Use(OpName),
    Ready(OpName),
    Link(OpName),
    Start(u32),
    Exec(u32),
    Finish(u32),
    Release(OpName),
    Bye(OpName),
    Idle(OpName),
    Nack(OpName),
    Retire(OpName),
    Copy(u32),
    Gone(OpName),
}

impl OpName {
    /// Whether a log can name it: the task is 1 to 65,536 and the place 0 to 6.
    pub fn fits(&self) -> bool
        ensures { result ≡ name_fits self.now }
    {
        1 <= self.task && self.task <= MAX_TASKS && self.place < MAX_OPERANDS
    }
}

impl Event {
    /// Its kind.
    #[inline(always)]
    pub fn kind(&self) -> Kind
        ensures { result ≡ kind_of self.now }
    {
        match self {
            Event::Main => Kind::Main,
            Event::Take => Kind::Take,
            Event::Decode(_) => Kind::Decode,
            Event::Ack(_) => Kind::Ack,
            Event::Open(_) => Kind::Open,
            Event::Use(_) => Kind::Use,
            Event::Ready(_) => Kind::Ready,
            Event::Link(_) => Kind::Link,
            Event::Start(_) => Kind::Start,
            Event::Exec(_) => Kind::Exec,
            Event::Finish(_) => Kind::Finish,
            Event::Release(_) => Kind::Release,
            Event::Bye(_) => Kind::Bye,
            Event::Idle(_) => Kind::Idle,
            Event::Nack(_) => Kind::Nack,
            Event::Retire(_) => Kind::Retire,
            Event::Copy(_) => Kind::Copy,
            Event::Gone(_) => Kind::Gone,
        }
    }

    /// The message that it takes, by its kind and the operand or version that it is for: none where it takes none.
    #[inline(always)]
    pub fn message(&self) -> Option<(Kind, OpName)>
        ensures { result ≡ message_taken self.now }
    {
        match self {
            Event::Decode(o) => Some((Kind::Decode, *o)),
            Event::Ack(o) => Some((Kind::Ack, *o)),
            Event::Open(o) => Some((Kind::Open, *o)),
            Event::Use(o) => Some((Kind::Use, *o)),
            Event::Ready(o) => Some((Kind::Ready, *o)),
            Event::Link(o) => Some((Kind::Link, *o)),
            Event::Release(o) => Some((Kind::Release, *o)),
            Event::Bye(o) => Some((Kind::Bye, *o)),
            Event::Idle(v) => Some((Kind::Idle, *v)),
            Event::Nack(v) => Some((Kind::Nack, *v)),
            Event::Retire(v) => Some((Kind::Retire, *v)),
            Event::Gone(v) => Some((Kind::Gone, *v)),
            Event::Main
            | Event::Take
            | Event::Start(_)
            | Event::Exec(_)
            | Event::Finish(_)
            | Event::Copy(_) => None,
        }
    }

    /// Whether a log can name it: a worker or bank is 0 to 63, a task 1 to 65,536, and a place 0 to 6.
    pub fn fits(&self) -> bool
        ensures { result ≡ fits self.now }
    {
        match self {
            Event::Main | Event::Take => true,
            Event::Start(worker) | Event::Exec(worker) | Event::Finish(worker) => {
                *worker < MAX_WORKERS
            }
            Event::Copy(bank) => *bank < MAX_BANKS,
            Event::Decode(o)
            | Event::Ack(o)
            | Event::Open(o)
            | Event::Use(o)
            | Event::Ready(o)
            | Event::Link(o)
            | Event::Release(o)
            | Event::Bye(o)
            | Event::Idle(o)
            | Event::Nack(o)
            | Event::Retire(o)
            | Event::Gone(o) => o.fits(),
        }
    }
}

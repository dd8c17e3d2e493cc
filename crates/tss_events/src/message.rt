// Messages.
ghost use Rattle.std.specs.Prelude.{◌≡◌};
ghost use Rattle.tss_protocol.specs.Mail.{name_of};
ghost use Rattle.tss_events.specs.Events.{message_of};

use tss_base::{Event, Follow, OpName, Operand, Range, Storage};
use tss_tokens::Token;

/// A version to be opened: its name, which is that of the operand that opens it, the operand's object and mode, the
/// storage where it has one already, the version that it follows, the token of its place, and that of its buffer where
/// its storage is a buffer.
pub struct Opening {
    pub o: OpName,
    pub operand: Operand,
    pub storage: Option<Storage>,
    pub follows: Option<Follow>,
    pub place: Token,
    pub buffer: Option<Token>,
}

/// A buffer that is out: the name for which it was taken, and its token.
pub struct HeldBuffer {
    pub name: OpName,
    pub token: Token,
}

/// A version that is gone: its name and object, the token of its place, its buffer where that ends with it, and whether
/// it was the last of its object, which leaves the tables.
pub struct Gone {
    pub version: OpName,
    pub object: Range,
    pub place: Token,
    pub buffer: Option<HeldBuffer>,
    pub retired: bool,
}

/// A message under way. The first name is the message's own, that of an operand or a version. Then come the contents:
/// a decode's object and mode, the version of a use, a ready's version and the storage of its value, a link's next
/// operand, a release's version and whether the operand produced it, whether a bye is promised, and an idle's base of
/// the object and number of readers.
pub enum Message {
    Decode(OpName, Operand),
    Ack(OpName),
    Open(Opening),
    Use(OpName, OpName),
    Ready(OpName, OpName, Storage),
    Link(OpName, OpName),
    Release(OpName, OpName, bool),
    Bye(OpName, bool),
    Idle(OpName, u32, u32),
    Nack(OpName),
    Retire(OpName),
    Gone(Gone),
}

impl Message {
    /// Its name, which is the event that takes it.
    pub fn name(&self) -> Event
        ensures { result ≡ name_of (message_of self.now) }
    {
        match self {
            Message::Decode(o, _) => Event::Decode(*o),
            Message::Ack(o) => Event::Ack(*o),
            Message::Open(opening) => Event::Open(opening.o),
            Message::Use(o, _) => Event::Use(*o),
            Message::Ready(o, _, _) => Event::Ready(*o),
            Message::Link(o, _) => Event::Link(*o),
            Message::Release(o, _, _) => Event::Release(*o),
            Message::Bye(o, _) => Event::Bye(*o),
            Message::Idle(v, _, _) => Event::Idle(*v),
            Message::Nack(v) => Event::Nack(*v),
            Message::Retire(v) => Event::Retire(*v),
            Message::Gone(gone) => Event::Gone(gone.version),
        }
    }
}

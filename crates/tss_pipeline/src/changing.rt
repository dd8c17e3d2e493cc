// What an event may change, and what may happen after it that might not before.
ghost use Rattle.std.specs.Prelude.{◌≡◌};
ghost use Rattle.tss_pipeline.specs.Changing.{parts_changed};
ghost use Rattle.tss_pipeline.specs.Enabling.{touches, touches_decodes, touches_letters, touches_retires};

use crate::enabling::Source;
use tss_base::Event;
use tss_mail::Kind;

/// Some parts of the units: the tasks in flight, the ready queue, what workers do, the entries, which places and which
/// buffers are held, the versions, the messages under way, and what banks copy.
#[derive(Clone, Copy, Debug, PartialEq, Eq)]
pub(crate) struct Parts {
    pub(crate) flight: bool,
    pub(crate) queue: bool,
    pub(crate) workers: bool,
    pub(crate) entries: bool,
    pub(crate) places: bool,
    pub(crate) buffers: bool,
    pub(crate) versions: bool,
    pub(crate) mail: bool,
    pub(crate) copies: bool,
}

/// None of them.
const NOTHING: Parts = Parts {
    flight: false,
    queue: false,
    workers: false,
    entries: false,
    places: false,
    buffers: false,
    versions: false,
    mail: false,
    copies: false,
};

/// The messages alone.
const MAIL: Parts = Parts {
    mail: true,
    ..NOTHING
};

/// The parts that an event may change.
#[inline(always)]
pub(crate) fn changes(e: &Event) -> Parts
    ensures { result ≡ parts_changed e.now }
{
    match e {
        Event::Main => NOTHING,
        Event::Ack(_) => MAIL,
        Event::Take | Event::Ready(_) => Parts {
            flight: true,
            queue: true,
            ..MAIL
        },
        Event::Link(_) | Event::Bye(_) => Parts {
            flight: true,
            ..MAIL
        },
        Event::Start(_) => Parts {
            flight: true,
            queue: true,
            workers: true,
            ..NOTHING
        },
        Event::Exec(_) => Parts {
            workers: true,
            ..NOTHING
        },
        Event::Finish(_) => Parts {
            flight: true,
            workers: true,
            ..MAIL
        },
        Event::Decode(_) | Event::Gone(_) => Parts {
            entries: true,
            places: true,
            buffers: true,
            ..MAIL
        },
        Event::Idle(_) => Parts {
            entries: true,
            ..MAIL
        },
        Event::Open(_) | Event::Use(_) | Event::Release(_) | Event::Nack(_) => Parts {
            versions: true,
            ..MAIL
        },
        Event::Retire(_) => Parts {
            versions: true,
            copies: true,
            ..MAIL
        },
        Event::Copy(_) => Parts {
            copies: true,
            ..MAIL
        },
    }
}

/// Whether an event may change which decodes may be taken: a take sends decodes, and any other such event changes entries.
#[inline(always)]
fn touches_decodes(e: &Event) -> bool
    ensures { result ≡ touches_decodes e.now }
{
    match e {
        Event::Take => true,
        _ => changes(e).entries,
    }
}

/// Whether an event may change which retires may be taken: an idle sends one, and any other such event changes versions or
/// copies.
#[inline(always)]
fn touches_retires(e: &Event) -> bool
    ensures { result ≡ touches_retires e.now }
{
    match e {
        Event::Idle(_) => true,
        _ => changes(e).versions || changes(e).copies,
    }
}

/// Whether an event may change which messages of a kind may be taken.
#[inline(always)]
fn touches_letters(kind: Kind, e: &Event) -> bool
    ensures { result ≡ touches_letters kind e.now }
{
    match kind {
        Kind::Decode => touches_decodes(e),
        Kind::Retire => touches_retires(e),
        Kind::Ack
        | Kind::Open
        | Kind::Use
        | Kind::Ready
        | Kind::Link
        | Kind::Release
        | Kind::Bye
        | Kind::Idle
        | Kind::Nack
        | Kind::Gone => changes(e).mail,
    }
}

/// Whether an event may change which events of a kind may happen.
#[inline(always)]
pub(crate) fn touches(source: Source, e: &Event) -> bool
    ensures { result ≡ touches source e.now }
{
    match source {
        Source::Main | Source::Take => true,
        Source::Letters(kind) => touches_letters(kind, e),
        Source::Start => changes(e).workers || changes(e).queue,
        Source::Exec | Source::Finish => changes(e).workers,
        Source::Copy => changes(e).copies,
    }
}

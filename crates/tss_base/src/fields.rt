// The fields of the state that an event may change.
ghost use Rattle.std.specs.Prelude.{◌≡◌};
ghost use Rattle.tss_base.specs.Changes.{fields_after};

use crate::kind::Kind;

/// Some of the fields of the state: main, the bytes at home, the task between main and the gateway, the gateway, the
/// tasks in flight, the ready queue, what workers do, the entries of renaming, the places and the buffers that are
/// held, the buffers' bytes, the versions, the messages under way, what banks copy, and the trap that is held.
#[derive(Clone, Copy, Debug, PartialEq, Eq)]
pub struct Fields {
    pub main: bool,
    pub home: bool,
    pub inbox: bool,
    pub gateway: bool,
    pub flight: bool,
    pub queue: bool,
    pub workers: bool,
    pub entries: bool,
    pub places: bool,
    pub buffers: bool,
    pub contents: bool,
    pub versions: bool,
    pub mail: bool,
    pub copies: bool,
    pub trap: bool,
}

/// None of them.
pub const NO_FIELD: Fields = Fields {
    main: false,
    home: false,
    inbox: false,
    gateway: false,
    flight: false,
    queue: false,
    workers: false,
    entries: false,
    places: false,
    buffers: false,
    contents: false,
    versions: false,
    mail: false,
    copies: false,
    trap: false,
};

impl Fields {
    /// Those that an event of a kind may change: it leaves every other as it was.
    #[inline(always)]
    pub fn after(kind: Kind) -> Fields
        ensures { result ≡ fields_after kind }
    {
        match kind {
            Kind::Main => Fields {
                main: true,
                home: true,
                inbox: true,
                ..NO_FIELD
            },
            Kind::Take => Fields {
                inbox: true,
                gateway: true,
                flight: true,
                queue: true,
                mail: true,
                ..NO_FIELD
            },
            Kind::Decode => Fields {
                entries: true,
                places: true,
                buffers: true,
                mail: true,
                ..NO_FIELD
            },
            Kind::Ack => Fields {
                gateway: true,
                mail: true,
                ..NO_FIELD
            },
            Kind::Open | Kind::Use | Kind::Release | Kind::Nack => Fields {
                versions: true,
                mail: true,
                ..NO_FIELD
            },
            Kind::Ready => Fields {
                flight: true,
                queue: true,
                mail: true,
                ..NO_FIELD
            },
            Kind::Link | Kind::Bye => Fields {
                flight: true,
                mail: true,
                ..NO_FIELD
            },
            Kind::Start => Fields {
                home: true,
                flight: true,
                queue: true,
                workers: true,
                contents: true,
                ..NO_FIELD
            },
            Kind::Exec => Fields {
                home: true,
                workers: true,
                contents: true,
                ..NO_FIELD
            },
            Kind::Finish => Fields {
                flight: true,
                workers: true,
                mail: true,
                trap: true,
                ..NO_FIELD
            },
            Kind::Idle => Fields {
                entries: true,
                mail: true,
                ..NO_FIELD
            },
            Kind::Retire => Fields {
                versions: true,
                mail: true,
                copies: true,
                ..NO_FIELD
            },
            Kind::Copy => Fields {
                home: true,
                mail: true,
                copies: true,
                ..NO_FIELD
            },
            Kind::Gone => Fields {
                entries: true,
                places: true,
                buffers: true,
                contents: true,
                mail: true,
                ..NO_FIELD
            },
        }
    }
}

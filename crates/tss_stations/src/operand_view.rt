// What a slot knows of an operand.
ghost use Rattle.std.specs.Prelude.{◌≡◌};
ghost use Rattle.tss_protocol.specs.Stations.{is_ready, has_left};
ghost use Rattle.tss_stations.specs.Views.{state_of, new_view, told_view, linked_view, parted_view};
ghost use Rattle.tss_stations.specs.Passing.{passed_by, told_by};

use tss_base::{Farewell, LinkState, OpName, Operand, Storage};
use tss_events::{Message, Sent};

/// What is known of an operand of a task in flight: its object and mode, the version and the storage that it was told,
/// its link to the next operand of the version's chain, and its farewell.
#[derive(Clone, Copy, Debug, PartialEq, Eq)]
pub struct OperandView {
    pub operand: Operand,
    pub version: Option<OpName>,
    pub storage: Option<Storage>,
    pub link: LinkState,
    pub farewell: Farewell,
}

impl OperandView {
    /// An operand that was told nothing yet.
    pub(crate) fn new(operand: Operand) -> OperandView
        ensures { result ≡ new_view operand }
    {
        OperandView {
            operand,
            version: None,
            storage: None,
            link: LinkState::Nothing,
            farewell: Farewell::Nothing,
        }
    }

    /// Whether it was told its version and storage.
    pub(crate) fn is_ready(&self) -> bool
        ensures { result ≡ is_ready (state_of self.now) }
    {
        self.version.is_some() && self.storage.is_some()
    }

    /// Whether its farewell is done.
    pub(crate) fn has_left(&self) -> bool
        ensures { result ≡ has_left self.now.farewell }
    {
        match self.farewell {
            Farewell::Left => true,
            Farewell::Nothing | Farewell::Promised => false,
        }
    }

    /// The ready for the next operand of a held link.
    pub(crate) fn passed_on(&self, version: OpName, storage: Storage) -> Sent
        ensures { result ≡ passed_by version storage self.now.link }
    {
        let mut sent = Sent::new();
        if let LinkState::Held(next) = self.link {
            sent.push(Message::Ready(next, version, storage));
        }
        sent
    }

    /// The ready for the operand that comes next, where this one is ready.
    pub(crate) fn told_next(&self, next: OpName) -> Sent
        ensures { result ≡ told_by next self.now.version self.now.storage }
    {
        let mut sent = Sent::new();
        if let (Some(version), Some(storage)) = (self.version, self.storage) {
            sent.push(Message::Ready(next, version, storage));
        }
        sent
    }

    /// With the version and the storage that it is told. A held link is passed.
    pub(crate) fn told(self, version: OpName, storage: Storage) -> OperandView
        ensures { result ≡ told_view version storage self }
    {
        OperandView {
            version: Some(version),
            storage: Some(storage),
            link: match self.link {
                LinkState::Nothing => LinkState::Nothing,
                LinkState::Held(_) | LinkState::Passed => LinkState::Passed,
            },
            ..self
        }
    }

    /// With a link to the next operand, which is held until it is ready. A promised farewell is done.
    pub(crate) fn linked(self, next: OpName) -> OperandView
        ensures { result ≡ linked_view next self }
    {
        OperandView {
            link: match (self.version, self.storage) {
                (Some(_), Some(_)) => LinkState::Passed,
                _ => LinkState::Held(next),
            },
            farewell: match self.farewell {
                Farewell::Nothing => Farewell::Nothing,
                Farewell::Promised | Farewell::Left => Farewell::Left,
            },
            ..self
        }
    }

    /// With its farewell, which waits for a link that is promised and hasn't passed.
    pub(crate) fn parted(self, promised: bool) -> OperandView
        ensures { result ≡ parted_view promised self }
    {
        let waits = match self.link {
            LinkState::Nothing | LinkState::Held(_) => promised,
            LinkState::Passed => false,
        };
        let farewell = if waits {
            Farewell::Promised
        } else {
            Farewell::Left
        };
        OperandView { farewell, ..self }
    }
}

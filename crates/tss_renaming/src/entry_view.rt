// Entries of objects.
ghost use Rattle.std.specs.Prelude.{◌≡◌, ◌<◌, ◌-◌, ◌^◌, Some, option_map};
ghost use Rattle.std.specs.Option.{ForSome};
ghost use Rattle.tss_protocol.specs.Renaming.{entry_after_decode, follows_latest, may_retire};
ghost use Rattle.tss_renaming.specs.Entries.{entry_of};

use tss_base::{Follow, How, Mode, OpName, Operand, Range};

/// What a bank knows of an object: its latest version, the readers that were directed to that version, and whether the
/// object is about to leave the tables.
#[derive(Clone, Copy, Debug, PartialEq, Eq)]
pub struct EntryView {
    pub object: Range,
    pub latest: OpName,
    pub sent: u32,
    pub retiring: bool,
}

impl EntryView {
    /// The link from the latest version to the next one, with the readers of the latest as its final number.
    pub(crate) fn follow(&self, how: How) -> Follow
        ensures { result ≡ follows_latest (entry_of self.now) how }
    {
        Follow {
            version: self.latest,
            how,
            last: self.sent,
        }
    }

    /// Whether a version that counted so many readers may retire: it is the latest, and no further reader was directed
    /// to it.
    pub(crate) fn may_retire(&self, v: OpName, count: u32) -> bool
        ensures { result ≡ may_retire v count (Some (entry_of self.now)) }
    {
        self.latest == v && self.sent == count
    }
}

/// The object's entry after an operand was decoded. An input is one more reader of the latest version, and any other
/// operand opens the next version.
pub(crate) fn next_entry(o: OpName, operand: &Operand, entry: Option<EntryView>) -> EntryView
    requires { ForSome entry (λ e. e.sent < 2 ^ 32 - 1) }
    ensures { entry_of result ≡ entry_after_decode o operand.now (option_map entry_of entry) }
{
    let Some(entry) = entry else {
        return EntryView {
            object: operand.object,
            latest: o,
            sent: match operand.mode {
                Mode::Input => 1,
                Mode::Output | Mode::Inout => 0,
            },
            retiring: false,
        };
    };
    match operand.mode {
        Mode::Input => EntryView {
            sent: entry.sent + 1,
            ..entry
        },
        Mode::Output | Mode::Inout => EntryView {
            latest: o,
            sent: 0,
            ..entry
        },
    }
}

// The parts of the state text.
/// A part of the state text: the lines of a kind, or of kinds that stand together.
#[derive(Clone, Copy, Debug, PartialEq, Eq)]
pub enum Part {
    Main,
    Registers,
    Ending,
    Epoch,
    Inbox,
    Gateway,
    Tasks,
    Queue,
    Workers,
    Entries,
    Places,
    Buffers,
    Versions,
    Messages,
    Copies,
    Trap,
    Pieces,
    Rows,
    Enabled,
}

/// The parts in the order of the text.
pub const ALL_PARTS: [Part; 19] = [
    Part::Main,
    Part::Registers,
    Part::Ending,
    Part::Epoch,
    Part::Inbox,
    Part::Gateway,
    Part::Tasks,
    Part::Queue,
    Part::Workers,
    Part::Entries,
    Part::Places,
    Part::Buffers,
    Part::Versions,
    Part::Messages,
    Part::Copies,
    Part::Trap,
    Part::Pieces,
    Part::Rows,
    Part::Enabled,
];

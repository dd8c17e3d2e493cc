// What a decode waits for, by number.
/// The object's entry is about to leave.
pub const RETIRING: u32 = 1;

/// The bank has all its entries in use.
pub const ENTRIES_FULL: u32 = 2;

/// The bank has all its places held.
pub const VERSIONS_FULL: u32 = 3;

/// The bank has all its buffers held.
pub const BUFFERS_FULL: u32 = 4;

/// An operand of an earlier task is to be decoded in the bank. This is tested before the others.
pub const TURN: u32 = 5;

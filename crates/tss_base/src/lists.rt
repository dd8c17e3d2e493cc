// The entries of an operand list: three words each, an object's base and length and a mode by its number.
/// How many bytes an entry has.
pub const ENTRY_BYTES: u32 = 12;

/// The mode of an object that a task only reads.
pub const INPUT: u32 = 1;

/// The mode of an object that a task only writes.
pub const OUTPUT: u32 = 2;

/// The mode of an object that a task reads and writes.
pub const INOUT: u32 = 3;

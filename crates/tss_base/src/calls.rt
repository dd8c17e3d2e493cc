// The numbers of main's calls, in x17 at an ECALL.
/// Main ends, with a status.
pub const EXIT: u32 = 1;

/// A task is spawned.
pub const SPAWN: u32 = 2;

/// Main waits for all tasks, and the objects that it has named are its own again.
pub const BARRIER: u32 = 3;

/// Bytes are printed.
pub const PRINT: u32 = 4;

/// Main waits for one object that it has named.
pub const AWAIT: u32 = 5;

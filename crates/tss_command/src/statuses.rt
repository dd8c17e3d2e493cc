// The program's statuses.

/// The program exited.
pub const EXITED: u8 = 0;

/// Main or a task trapped.
pub const TRAPPED: u8 = 1;

/// Main was refused.
pub const REFUSED: u8 = 2;

/// The image fails a check.
pub const BAD_IMAGE: u8 = 3;

/// The machine description fails a check.
pub const BAD_MACHINE: u8 = 4;

/// The schedule is refused.
pub const BAD_SCHEDULE: u8 = 5;

/// The words are no command.
pub const BAD_WORDS: u8 = 6;

/// A file couldn't be read, or is too long.
pub const READ_FAILED: u8 = 7;

/// The log or the text couldn't be written.
pub const WRITE_FAILED: u8 = 8;

/// Memory ran out.
pub const NO_MEMORY: u8 = 9;

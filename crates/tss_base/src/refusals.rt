// The numbers of main's refusals: why a step of main isn't made.
/// More operands than a task may have.
pub const TOO_MANY_OPERANDS: u32 = 1;

/// The operand list isn't at a multiple of 4, or doesn't lie wholly inside one range of memory.
pub const LIST_PLACE: u32 = 2;

/// Main meets an object that it has named: with an operand list, a load, a store or a print.
pub const MAIN_TOUCH: u32 = 3;

/// An operand's mode isn't 1, 2 or 3.
pub const BAD_MODE: u32 = 4;

/// Its length is 0, or more than an object may have.
pub const BAD_LENGTH: u32 = 5;

/// Its base isn't a multiple of 4.
pub const BAD_BASE: u32 = 6;

/// It doesn't lie wholly inside one range of memory, or is written in one that can't be.
pub const OBJECT_OUTSIDE: u32 = 7;

/// It meets a named object or an earlier one of its list in part.
pub const OVERLAP: u32 = 8;

/// More objects named at one time than main may have: a barrier takes back all of them, an await one.
pub const EPOCH_FULL: u32 = 9;

/// As many tasks as a run may have.
pub const TOO_MANY_TASKS: u32 = 10;

/// Main has completed as many instructions as its budget.
pub const MAIN_BUDGET_SPENT: u32 = 11;

/// A print passes the bytes that a run may print.
pub const OUTPUT_FULL: u32 = 12;

/// What main awaits is no object that it has named.
pub const NOT_NAMED: u32 = 13;

// The numbers of the causes of traps, each with its value.
/// A taken branch or a jump has a target that isn't a multiple of 4: the value is the target.
pub const JUMP_MISALIGNED: u32 = 0;

/// There is no word at the pc: the value is the pc.
pub const FETCH_OUTSIDE: u32 = 1;

/// The word is no instruction: the value is the word.
pub const ILLEGAL: u32 = 2;

/// EBREAK: the value is the pc.
pub const BREAKPOINT: u32 = 3;

/// A load's address isn't a multiple of its width: the value is the address.
pub const LOAD_MISALIGNED: u32 = 4;

/// The actor may not load there: the value is the address.
pub const LOAD_DENIED: u32 = 5;

/// A store's address isn't a multiple of its width: the value is the address.
pub const STORE_MISALIGNED: u32 = 6;

/// The actor may not store there: the value is the address.
pub const STORE_DENIED: u32 = 7;

/// ECALL in a task: the value is x17.
pub const CALL_IN_TASK: u32 = 8;

/// A task has completed as many instructions as its budget: the value is 0.
pub const BUDGET_SPENT: u32 = 9;

/// ECALL of main with no call's number in x17: the value is x17.
pub const UNKNOWN_CALL: u32 = 10;

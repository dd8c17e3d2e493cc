// Traps, endings, and the two refusals that carry nothing.
/// Why an instruction could not be executed: its address, the cause's number, and the cause's value.
#[derive(Clone, Copy, Debug, PartialEq, Eq)]
pub struct Trap {
    pub pc: u32,
    pub cause: u32,
    pub value: u32,
}

/// How a run ends: main exits with a status, main traps, a task traps (its number comes first), or a step of main is
/// refused (the refusal's number, then the step's address).
#[derive(Clone, Copy, Debug, PartialEq, Eq)]
pub enum Ending {
    Exit(u32),
    MainTrap(Trap),
    TaskTrap(u32, Trap),
    Refused(u32, u32),
}

/// Memory ran out.
#[derive(Clone, Copy, Debug, PartialEq, Eq)]
pub struct NoMemory;

/// A unit can't do this now. Nothing has changed.
#[derive(Clone, Copy, Debug, PartialEq, Eq)]
pub struct Blocked;

impl From<std::alloc::AllocError> for NoMemory {
    fn from(_: std::alloc::AllocError) -> Self {
        NoMemory
    }
}

impl<T: Drop> From<std::alloc::AllocFailed<T>> for NoMemory {
    fn from(_: std::alloc::AllocFailed<T>) -> Self {
        NoMemory
    }
}

// The marks of the unit machine's records: how far a task, a link and a farewell are, and how versions follow.
use crate::operand::OpName;

/// How far a task in flight is: it waits for operands, it is in the ready queue, it runs on a worker, or it has finished.
#[derive(Clone, Copy, Debug, PartialEq, Eq)]
pub enum Stage {
    Waiting,
    Queued,
    Running,
    Finished,
}

/// The link of an operand to the next operand of its version's chain: none yet, held until the operand is ready (with
/// the next operand), or passed on.
#[derive(Clone, Copy, Debug, PartialEq, Eq)]
pub enum LinkState {
    Nothing,
    Held(OpName),
    Passed,
}

/// The farewell of an operand after its task: none yet, promised for when its link has passed, or done.
#[derive(Clone, Copy, Debug, PartialEq, Eq)]
pub enum Farewell {
    Nothing,
    Promised,
    Left,
}

/// How a version follows the one before: beside it, in a storage of its own, or over it, in the same storage.
#[derive(Clone, Copy, Debug, PartialEq, Eq)]
pub enum How {
    Beside,
    Over,
}

/// A link between two versions: the other version, how the later follows the earlier, and the earlier one's final
/// number of uses.
#[derive(Clone, Copy, Debug, PartialEq, Eq)]
pub struct Follow {
    pub version: OpName,
    pub how: How,
    pub last: u32,
}

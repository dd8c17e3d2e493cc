// The fixed addresses: above the segments of an image lie a task's scratch, main's stack, and where a task ends.
use crate::range::Range;

/// The address after the last that a segment may have.
pub const SEGMENTS_END: u32 = 0xFFFD_0000;

/// The scratch of a task: each running task has its own bytes there.
pub const SCRATCH: Range = Range {
    base: SEGMENTS_END,
    len: 0x1_0000,
};

/// The address after the scratch, where a task's stack pointer begins.
pub const SCRATCH_END: u32 = 0xFFFE_0000;

/// Main's stack.
pub const STACK: Range = Range {
    base: SCRATCH_END,
    len: 0x1_0000,
};

/// The address after main's stack, where main's stack pointer begins. No memory lies above.
pub const STACK_END: u32 = 0xFFFF_0000;

/// The address at which a task has ended.
pub const END_PC: u32 = 0xFFFF_FFF0;

//! The plain data that every layer speaks of: ranges of memory, operands and their names, images, traps and endings,
//! the machine with its limits and sizes, and the events of the unit machine: their kinds, the messages that they take,
//! the fields of the state that they may change, and why a line that names one fails. A contract sees these types as they
//! stand, but a segment and an image, whose fields are private: a segment as its base, bytes and flags, an image as
//! its entry and its segments in address order. What an accepted image and an admissible machine are stands here too.
//! Each fixed number stands here once: causes of traps, main's refusals and calls, operand lists, addresses, and bounds. Code takes
//! it from its module, and a definition cites the same constant.
#![tactic(auto)]

pub mod addresses;
pub mod bounds;
pub mod calls;
pub mod causes;
mod counts;
mod ending;
mod event;
mod fields;
mod image;
mod kind;
mod line_fault;
pub mod lists;
mod machine;
mod marks;
mod numbers;
mod operand;
mod range;
pub mod refusals;

pub use counts::{Counts, Peaks};
pub use ending::{Blocked, Ending, NoMemory, Trap};
pub use event::Event;
pub use fields::{Fields, NO_FIELD};
pub use image::{Image, Segment};
pub use kind::{KIND_COUNT, KINDS, Kind};
pub use line_fault::LineFault;
pub use machine::{Key, Limits, Machine, Sizes};
pub use marks::{Farewell, Follow, How, LinkState, Stage};
pub use numbers::fixed_numbers;
pub use operand::{Mode, OpName, Operand, Storage, Task};
pub use range::Range;

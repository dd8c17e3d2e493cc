//! An assembler for RV32IM and the writer of its images. A `Program` is built item by item: instructions, words, and
//! branches, jumps and addresses that name labels, which may be placed before or after. A contract sees it as its two
//! addresses, the items of its text, each of them one word, the words of its data with the zeros after them, and the
//! place of each label. `finish` answers the bytes of the image that these are, which the reader of images accepts, or
//! the first of four faults.
#![tactic(auto)]

mod checking;
mod fault;
mod item;
mod label;
mod program;
mod writing;

pub use fault::AsmFault;
pub use item::Item;
pub use label::Label;
pub use program::Program;

//! One bank of the object renaming table: an object's entry knows its latest version, and places and buffers are held
//! under the names for which they were taken. All memory is taken when the bank is opened. A contract sees its number
//! and sizes, the entries, which place each name holds, and the line of operands that are to be decoded here;
//! `tables_of` is the definitions' tables, which know the bank of a place alone. Which messages come when, and what the
//! versions do with them, is left to the pipeline.
#![tactic(auto)]

mod entries;
mod entry_view;
mod held;
mod opening;
mod renaming;
mod waits;

pub use entry_view::EntryView;
pub use renaming::{Decoded, Renaming};
pub use waits::{BUFFERS_FULL, ENTRIES_FULL, RETIRING, TURN, VERSIONS_FULL};

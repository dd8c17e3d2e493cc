//! The rename buffers of all banks, and the engine with which a bank brings a buffer's bytes home. The buffers are one
//! block of bytes, taken when they are opened. A contract sees how many banks and buffers there are, how many bytes each
//! has, and the bytes of those that are set, under bank and place; an engine is the copy that it is busy with, if any.
//! Which version has which buffer is left to the banks, and home to the pipeline.
#![tactic(auto)]

mod buffers;
mod copying;
mod parts;
#[cfg(test)]
mod tests;

pub use buffers::Buffers;
pub use copying::{CopyEngine, Moved};

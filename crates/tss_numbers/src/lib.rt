//! Numbers of at most four bytes in lists of bytes, the lowest byte first: read and put by one pair of functions for
//! memory, a task's scratch and each view of an actor. A contract says which number the bytes are, and which bytes
//! stand after a put. Where the bytes lie, and whether an actor may have them, is left to others.
#![tactic(auto)]

mod numbers;
#[cfg(test)]
mod tests;

pub use numbers::{number, put};

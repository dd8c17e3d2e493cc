//! The instructions of RV32I and of its extension M. `decode` is the table of instructions for every word: the fields are read as numbers, the
//! immediates are extended by sign, and a word of no row is none. `encode` is its inverse for each instruction that
//! `fits`. A contract sees an instruction as it stands. What an instruction does is left to the crates above.
#![tactic(auto)]

mod decoding;
mod encoding;
mod fields;
mod instr;

pub use decoding::decode;
pub use encoding::{encode, fits};
pub use instr::{ImmOp, Instr, LoadKind, RegOp, StoreKind, Test};

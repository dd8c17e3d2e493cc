//! Texts that go out through a sink in pieces of a fixed size, and digits. A contract sees a writer as what its sink has
//! and what is kept for the next piece, and says that these are together what they were before, with the text after
//! them; after a fault of the sink a prefix of the text was put.
#![tactic(auto)]

mod digits;
mod piece;
mod writer;

pub use digits::{hex_word, write_hex};
pub use writer::PieceWriter;

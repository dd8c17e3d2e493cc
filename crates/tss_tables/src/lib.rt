//! Tables of a fixed size: under numbers (`Table`), under operands' names (`NameTable`), and over the places 0 to n - 1
//! (`Seats`). Each takes all its memory when it is opened. A contract sees a table as its size and the finite map of what
//! stands under its keys. A value stays at its place in memory as long as it stands there: a change moves keys and numbers
//! of places alone. Values may be such that they can't be let go, as messages with tokens: such a table is emptied and
//! then closed.
#![tactic(auto)]

mod name_table;
mod rows;
mod seats;
mod store;
mod table;

pub use name_table::NameTable;
pub use seats::Seats;
pub use table::Table;

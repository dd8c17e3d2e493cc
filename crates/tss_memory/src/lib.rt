//! Memory: a flat space of bytes, and the code that never changes. A contract sees `Space` as its ranges in address
//! order, each with whether it can be written, and a finite map from each of their addresses to a byte, and `Code` as
//! the segments that can be executed, as they were loaded. Loading alone takes memory. A write changes the named bytes
//! and no other, and no range. Who may read or write where is left to the crates above: each call says what it needs.
#![tactic(auto)]

mod block;
mod code;
mod found;
mod loading;
mod placing;
mod space;

pub use code::Code;
pub use found::Found;
pub use loading::copy_as_loaded;
pub use space::Space;

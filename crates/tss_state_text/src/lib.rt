//! The text of the unit machine's state: everything that is in it, line by line, from what a pipeline shows of itself.
//! A contract says that what is written is the state text of the pipeline's machine and state, or a prefix of it where the
//! sink fails. The lines stand in the crate below.
#![tactic(auto)]

mod banks;
mod holders;
mod items;
mod messages;
mod part;
mod tasks;
mod text;
mod versions;
mod workers;

pub use text::write_state;

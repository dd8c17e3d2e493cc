//! What the program does: the commands that words are, the files that they name, and what is printed. The top call,
//! `tss_main`, carries what the whole is proved to do; `words` and `exit_code` stand between it and a process.
#![tactic(auto)]

mod answering;
mod command;
mod inputs;
mod migration;
mod outcome;
mod process;
mod runs;
mod statuses;
mod texts;

pub use answering::tss_main;
pub use process::{exit_code, words};

//! The lines of the state text: each is put into a writer of pieces, from what the units of the unit machine show. A
//! contract says that what is put is the line as its definition has it, or a prefix of it where the sink fails. Which
//! lines a state has, and their order, stand in the definitions of the whole text, which the crate above meets.
#![tactic(auto)]

mod bank_lines;
mod bytes;
mod line;
mod main_lines;
mod marks;
mod message_lines;
mod task_lines;
#[cfg(test)]
mod tests;
mod word;
mod worker_lines;

pub use bank_lines::{put_buffer, put_copy, put_entry, put_place, put_version};
pub use main_lines::{put_enabled, put_main, put_main_registers, put_named, put_piece, put_trap};
pub use message_lines::put_message;
pub use task_lines::{put_held, put_inbox, put_operand, put_queued, put_task};
pub use worker_lines::{put_busy, put_idle, put_scratch_row, put_worker_registers};

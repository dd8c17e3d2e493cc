//! The execution in program order: main instruction by instruction on one memory, and each task that it spawns at once.
//! `Flat` goes an event of main at a time, and says that it stands where the definitions' program order does;
//! `run_in_order` is the whole, the definitions' `in_order`, for every accepted image. Main's steps and a task's are those
//! of `tss_steps`. A contract sees a `Flat` as its limits, code, main and memory, and a `Reference` as its ending, the
//! number of its tasks, its output and its memory.
#![tactic(auto)]

mod copying;
mod flat;
mod reference;
mod running;
mod views;

pub use flat::{Did, Flat};
pub use reference::{Reference, run_in_order};

//! The workload that comes with the program, run on the unit machine by the schedule of its own seed, and its report. A
//! contract sees a run by the number of blocks a side and the form of the workload, which determine the image, its result
//! in program order, the peaks, and so the whole text. Words and statuses are left to the crate above.
#![tactic(auto)]

mod image;
mod run;
#[cfg(test)]
mod tests;

pub use run::SelfRun;
pub use tss_gen::Form;

//! Runs of an image on the unit machine from its first event to its end: by a seed, with a log of it or without, and by
//! a log that is given. A contract sees a run that is over as the machine, the image and the run's peaks, and says which
//! events it did. Its ending, number of tasks, output and memory are read from the unit machine, and are those of program
//! order. Reading the image and the machine, and telling of the run, are left to the crates above.
#![tactic(auto)]

mod faults;
mod finished;
mod running;
#[cfg(test)]
mod tests;

pub use faults::{GivenFault, LineFault, LoggedFault};
pub use finished::FinishedRun;
pub use running::{run_given, run_logged, run_seeded, state_given};

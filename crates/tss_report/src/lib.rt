//! The reports that the program prints, as texts that go out in pieces: that of a run, with its ending, its tasks, its
//! output, the rows of memory that have changed since it was loaded, and its peaks; and that of the workload that comes
//! with the program, with a digest of memory in place of rows. A contract says of each call which text it puts, or that
//! after a fault of the sink a prefix of it was put.
#![tactic(auto)]

mod hashing;
mod peaks;
mod report;
mod rows;
mod self_report;
#[cfg(test)]
mod tests;

pub use hashing::digest;
pub use report::{put_ending, put_summary, write_report};
pub use rows::put_changed;
pub use self_report::write_self;

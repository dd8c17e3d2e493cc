//! What main names and spawns. A contract sees an `Epoch` as its limit and the list of the objects that main has named
//! since the last barrier and hasn't awaited since, in order of naming; a second list in address order makes each test a
//! binary search.
//! `read_spawn` reads an operand list in memory and answers the task, or the first check that fails. It names nothing:
//! its caller does so, and runs the task.
#![tactic(auto)]

mod checking;
mod epoch;
mod listing;
mod merging;
mod reading;
mod search;
mod spawn;

pub use epoch::Epoch;
pub use spawn::{SpawnFault, SpawnWords, read_spawn};

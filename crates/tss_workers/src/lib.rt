//! The worker cores, and the queue of the tasks that wait for one. A contract sees a queue as its size and its tasks in
//! order, and the workers as how many there are and, under the number of each busy one, its task with the storages of
//! the operands, the registers, the scratch and the trap. A worker reads and writes home, the buffers of its operands
//! and its own scratch, and no other byte. Which task runs where, and when, is left to the pipeline.
#![tactic(auto)]

mod accesses;
mod queue;
mod running;
mod spots;
mod starting;
#[cfg(test)]
mod tests;
mod views;
mod workers;

pub use queue::ReadyQueue;
pub use running::Worker;
pub use workers::{Finished, Workers};

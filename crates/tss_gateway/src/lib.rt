//! The inbox and the gateway. A spawned task waits in the inbox until the gateway takes it; the gateway holds the names
//! of the operands of the tasks that decode, as far as these are still to be acknowledged. A contract sees the window,
//! which is how many tasks it may hold, the task in the inbox, and the set of those names. The messages that a task's
//! taking sends are left to the pipeline.
#![tactic(auto)]

mod gateway;
mod names;
#[cfg(test)]
mod tests;

pub use gateway::Gateway;

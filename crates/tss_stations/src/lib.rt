//! The reservation stations: tasks in flight, each in a slot of its station, with what is known of its operands. All
//! memory is taken when they are opened. A contract sees the sizes of the machine and, under each task's number, its
//! slot; `flight_of` is the definitions' tasks in flight, which know storages by their names alone. Who runs a queued
//! task, and who takes the messages, is left to the pipeline.
#![tactic(auto)]

mod operand_view;
mod slot;
mod slots;
mod stations;
#[cfg(test)]
mod tests;

pub use operand_view::OperandView;
pub use stations::Stations;
pub use tss_base::{Farewell, LinkState, Stage};

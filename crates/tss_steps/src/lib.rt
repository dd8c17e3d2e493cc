//! Main's steps and a task's steps, for every machine that runs them. `Main` is main as the definitions have it: its
//! registers, the objects that it has named, the tasks that it has spawned, what it has printed and its ending; a call
//! of it answers with the task that it spawns, and a stretch runs over any memory. `stretch_task` runs a task over any
//! view of one, which shows what lies beyond its `Scratch`. What becomes of a spawned task is left to the crates above.
#![tactic(auto)]

mod calls;
mod main_state;
mod mains;
mod placing;
mod printed;
mod scratch;
mod tasks;

pub use main_state::Main;
pub use placing::task_place;
pub use printed::Printed;
pub use scratch::Scratch;
pub use tasks::{TaskView, stretch_task};

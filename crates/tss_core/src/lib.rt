//! One instruction of an actor. `step` is the definitions' step for every `View`, which shows the actor's bytes, its
//! code and who it is, and says what a write leaves. `main_access` and `task_access` are the rule of access, for each
//! view to call. A contract sees `Regs` as the definitions' registers.
#![tactic(auto)]

mod access;
mod arithmetic;
mod regs;
mod stepping;
mod view;

pub use access::{Deny, Purpose, main_access, owns, task_access};
pub use regs::Regs;
pub use stepping::{Outcome, Stop, advance, step};
pub use view::View;

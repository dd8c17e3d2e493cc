//! Schedules, which say what the unit machine does next. A contract sees a schedule by one meaning: from what it holds
//! and the machine's description and state, its pick and what it holds afterwards; so the picks of a whole run follow
//! from what it holds at first. `Seeded` draws among the events that may happen by the words of a generator, and its
//! run is that of the seed. `Given` reads the lines of a log where they lie, and does what the log's judgement says.
//! `drive` runs the unit machine by any schedule, with any log. Who opens the machine, and what becomes of a run, is left
//! to the crates above.
#![tactic(auto)]

mod driving;
mod given;
mod laws;
mod schedule;
mod seeded;

pub use driving::{ScheduleFault, drive};
pub use given::Given;
pub use laws::{by_log, by_seed, going};
pub use schedule::{Pick, Schedule};
pub use seeded::Seeded;

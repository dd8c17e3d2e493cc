//! Logs of events: where a run's events are put, a line each, and the lines of a log that is given. A contract sees a
//! log as what its file holds, that followed by what the log still keeps, the other files, and a count of faults that
//! never falls; and the lines of a given log as the list of those that are left. A log of the older format, without a
//! header, is put into the present one, and gives the same run. Which events are logged is left to who drives a run.
#![tactic(auto)]

mod file_log;
mod lines;
mod log;
mod migrating;
mod piece;

pub use file_log::FileLog;
pub use lines::{Lines, line_count};
pub use log::{Log, NoLog};
pub use migrating::{LogFault, migrate_log};

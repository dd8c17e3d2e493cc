//! The unit machine as code: main with its memory, the inbox and the gateway, the stations, the banks of the tables for
//! renaming and versioning, the buffers, the ready queue, the workers, and the messages under way between them. Whoever
//! has it does one event at a time, in any order, and reads any part of it. A contract sees the machine's description and
//! the state of the definitions. Which event comes next is left to the crates above.
#![tactic(auto)]

mod bank;
mod bank_readers;
mod changing;
mod closing;
mod counting;
mod enabling;
mod front;
mod keeping;
mod letters;
mod listing;
mod opening;
mod pipeline;
mod posting;
mod readers;
mod renaming_events;
mod results;
mod station_events;
mod step;
mod units;
mod version_events;
mod worker_events;

pub use pipeline::Pipeline;
pub use step::NotEnabled;

//! The messages of the unit machine with their tokens, the list of messages that one call of a unit sends, and the
//! texts of events, as a log has them. A contract sees a message as it stands, each token as its pool's number and its
//! place. `message_of` takes it to the message of the definitions, which has no tokens. A list of messages can't be
//! dropped: it is emptied and ended.
#![tactic(auto)]

mod message;
mod sent;
#[cfg(test)]
mod tests;
mod text;

pub use message::{Gone, HeldBuffer, Message, Opening};
pub use sent::Sent;
pub use text::{event_text, read_event};
pub use tss_base::{Event, Follow, How};

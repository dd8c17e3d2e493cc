//! The messages under way, each under its name, in a table for each kind. All memory is taken when they are opened. A
//! contract sees how many messages there is room for and, for each kind, what stands under each name, with the tokens;
//! `mail_of` is the mail of the definitions, which has none. Who takes which message is left to the pipeline.
#![tactic(auto)]

mod kind;
mod mail;
#[cfg(test)]
mod tests;

pub use kind::Kind;
pub use mail::Mail;

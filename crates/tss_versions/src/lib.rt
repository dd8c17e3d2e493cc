//! The versioning table of one bank: the versions of objects, each at the place of its token, with the chain of its
//! readers and the versions before and after it. All memory is taken when it is opened. A contract sees how many places
//! there are and, under each name, the version with its tokens; `versions_of` is the definitions' versions, which know
//! storages by their names alone. Which places and buffers are out, and who takes the messages, is left to others.
#![tactic(auto)]

mod calls;
mod kept;
mod settling;
mod status;
#[cfg(test)]
mod tests;
mod version_view;
mod versions;

pub use version_view::VersionView;
pub use versions::Versions;

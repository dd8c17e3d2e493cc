//! The workload of `self`, in its two forms, as images: blocks of numbers that tasks factor in the order of a Cholesky
//! factorization. `workload` and `workload_mul` are the bytes that the definition writes out as headers, words and
//! tables, for every number of blocks a side from 1 to 40, and the reader of images accepts them.
#![tactic(auto)]

mod building;
mod form;
mod tasks;

pub use building::{workload, workload_mul};
pub use form::Form;

//! Tests of the calls of `tss_memory`.
#![tactic(auto)]

#[cfg(test)]
mod tests;

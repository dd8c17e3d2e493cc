//! Tests of the calls of `tss_core`.
#![tactic(auto)]

#[cfg(test)]
mod tests;

//! Tests of the calls of `tss_steps`.
#![tactic(auto)]

#[cfg(test)]
mod tests;

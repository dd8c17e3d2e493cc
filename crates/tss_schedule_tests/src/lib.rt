//! Tests of the calls of `tss_schedule`.
#![tactic(auto)]

#[cfg(test)]
mod tests;

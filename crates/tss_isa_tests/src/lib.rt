//! Tests of the calls of `tss_isa`.
#![tactic(auto)]

#[cfg(test)]
mod tests;

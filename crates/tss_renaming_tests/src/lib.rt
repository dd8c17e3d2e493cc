//! Tests of the calls of `tss_renaming`.
#![tactic(auto)]

#[cfg(test)]
mod tests;

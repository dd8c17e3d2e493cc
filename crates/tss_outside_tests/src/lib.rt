//! Tests of the calls of `tss_outside`.
#![tactic(auto)]

#[cfg(test)]
mod tests;

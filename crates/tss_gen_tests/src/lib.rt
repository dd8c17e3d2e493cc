//! Tests of the calls of `tss_gen`.
#![tactic(auto)]

#[cfg(test)]
mod tests;

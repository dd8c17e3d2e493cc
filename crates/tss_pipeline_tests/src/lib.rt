//! Tests of the calls of `tss_pipeline`.
#![tactic(auto)]

#[cfg(test)]
mod tests;

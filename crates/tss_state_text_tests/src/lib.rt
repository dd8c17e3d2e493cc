//! Tests of the calls of `tss_state_text`.
#![tactic(auto)]

#[cfg(test)]
mod tests;

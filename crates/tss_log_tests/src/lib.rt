//! Tests of the calls of `tss_log`.
#![tactic(auto)]

#[cfg(test)]
mod tests;

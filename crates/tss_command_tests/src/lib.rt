//! Tests of the calls of `tss_command`.
#![tactic(auto)]

#[cfg(test)]
mod tests;

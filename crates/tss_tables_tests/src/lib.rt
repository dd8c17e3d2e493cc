//! Tests of the calls of `tss_tables`.
#![tactic(auto)]

#[cfg(test)]
mod tests;

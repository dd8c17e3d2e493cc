//! Tests of the calls of `tss_elf`.
#![tactic(auto)]

#[cfg(test)]
mod tests;

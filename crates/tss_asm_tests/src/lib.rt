//! Tests of the calls of `tss_asm`.
#![tactic(auto)]

#[cfg(test)]
mod tests;

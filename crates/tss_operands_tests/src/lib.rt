//! Tests of the calls of `tss_operands`.
#![tactic(auto)]

#[cfg(test)]
mod tests;

//! Tests of the calls of `tss_inorder`.
#![tactic(auto)]

#[cfg(test)]
mod tests;

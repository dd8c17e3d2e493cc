//! Control: in every run operands are in order, the versions of an object stand in a chain, entries know the latest
//! version, readers wait in their order, and each operand holds what its phase says (`specs/`). `proofs/rounds` has
//! what all the others cite, `chains`, `readers`, `entries` and `holders` the events' lemmas of one part each, and the
//! files beside them join the parts. It stands on `tss_phases`, `tss_locality`, `tss_program_order` and `tss_names`.
//! There is no code here.
#![tactic(auto)]

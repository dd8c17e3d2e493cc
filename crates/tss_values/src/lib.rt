//! Values: in every run what stands in storages, on workers, in copies and at home is what program order has there. A
//! folder of `proofs/` for each place where bytes are, and beside them what joins them to the laws of refinement. It
//! stands on `tss_control`, and on all that this stands on, and not on `tss_progress`. There is no code here.
#![tactic(auto)]

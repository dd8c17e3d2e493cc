//! What follows from control: the bound on events (`proofs/bound`), that no run gets stuck (`progress`), and that no
//! task waits needlessly (`waits`). It stands on `tss_control`, and on all that this stands on. There is no code here.
#![tactic(auto)]

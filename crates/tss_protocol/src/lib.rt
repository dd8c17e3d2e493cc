//! The definitions of the unit machine: names, the state, the messages, what each unit's events need and leave, the
//! machine that they make together, its runs, results and counts, what a task waits for, schedules, and the texts of
//! events. Main's steps and a task's are those of the flat machine. They are plain functions over lists, finite maps
//! and numbers without bound, with tests that compute. Each unit's crate is proved equal to its own part of them. It
//! stands on the flat machine of `tss_model`, and on `tss_maps`. There is no code here.
#![tactic(auto)]

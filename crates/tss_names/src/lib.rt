//! Which names are in use in every run, and how many: of the tasks and their stages, of messages, versions, openings
//! and held places (`specs/`), and that each event keeps them so (`proofs/`). It stands on the definitions, and on
//! `tss_phases` for a few plain facts. There is no code here.
#![tactic(auto)]

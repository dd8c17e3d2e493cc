//! Locality of the unit machine: what two states agree on, what an event may concern (`specs/`), and for each event the
//! lemma that it changes nothing else (`proofs/`). Most events concern one object and at most one task, so what a law
//! says of every other object and task stays as it was. It stands on the definitions and on `tss_maps` alone. There is
//! no code here.
#![tactic(auto)]

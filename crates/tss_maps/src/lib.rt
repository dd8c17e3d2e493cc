//! Finite maps, for the proofs of every crate above: sums and counts over a map's entries and its keys in order
//! (`specs/`), and the lemmas on what changes of a map leave (`proofs/`). A map is std's `FinMap`, in any order of keys
//! in which only equal keys tie. A set is a map to nothing. It stands on `tss_base` for the order of names. There is no
//! code here.
#![tactic(auto)]

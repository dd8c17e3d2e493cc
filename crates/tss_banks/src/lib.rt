//! The tables of banks as one, for the proofs of what keeps them by bank: the maps of all banks joined into one map,
//! the definitions' (`specs/`), and the lemmas (`proofs/`) that look-ups, changes, sums and counts of the joined map
//! are those of the banks, that what a bank has in use is its own map's length, and that each row of renaming and of
//! versioning on the joined map is the row in its own bank. Nothing is said here of which run leaves such maps. It
//! stands on the definitions and on `tss_maps` alone. There is no code here.
#![tactic(auto)]

//! The phase of an operand: how far it has come from the spawn of its task to its farewell, as the messages under way
//! for it and its record show it, and what each event of the unit machine does to phases. Laws of the unit machine
//! speak of phases in place of where each message is. It stands on the definitions and on `tss_maps` alone. There is no
//! code here.
#![tactic(auto)]

//! The definitions of the flat machine: memory as loaded from an image and the words of its code, where an actor may
//! load and store, one step of an actor, main's calls with the checks of a spawn, a task's run, and the execution in
//! program order. They are plain functions over lists, finite maps and numbers without bound. Every crate above that
//! steps a core, keeps memory or reads operands is proved equal to them. They stand on `tss_isa` for instructions, and
//! on `tss_base`. There is no code here.
#![tactic(auto)]

//! The execution in program order beside a run of the unit machine: what `refines` and `main_event` state (`specs/`),
//! how main and tasks step over two memories that agree where they look, and what every run keeps of memory. It stands
//! on the definitions, and on `tss_locality` for what an event leaves. There is no code here.
#![tactic(auto)]

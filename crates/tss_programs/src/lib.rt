//! Programs with names, for the tests of every crate that runs one: a `Source` of main's calls, with tasks that stand
//! once after main's words and lists of operands after them, and the programs whose endings, outputs and logs are worked
//! out by hand. The machine that they run on is here as a value and as the text of its description, and their logs are
//! here as texts. It is no part of the program.
#![tactic(auto)]

mod code;
mod logs;
mod machine;
mod programs;
mod source;
#[cfg(test)]
mod tests;

pub use code::Code;
pub use logs::{
    AWAIT_THIRD_LOG, FULL_TABLES_LOG, HI_LOG, IDLE_RACE_LOG, LATE_TRAP_LOG, MANY_READERS_LOG,
    RENAMED_OUTPUT_LOG,
};
pub use machine::{M0, description};
pub use programs::{
    await_first, await_second, await_third, exit_seven, full_tables, hi, idle_race, late_trap,
    main_touch, main_touch_after_barrier, many_readers, merged_operands, no_instruction,
    no_operands, output_alone, partial_overlap, renamed_output, spinning_reader,
};
pub use source::{Entry, Source, inout, input, output};

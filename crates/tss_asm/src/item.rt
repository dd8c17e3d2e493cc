// The words of a text, as they were asked for.
use crate::label::Label;
use tss_isa::{Instr, Test};

/// One word of a program's text, as it was asked for.
#[derive(Clone, Copy, Debug)]
pub enum Item {
    /// An instruction.
    Plain(Instr),
    /// A branch to a label.
    Branch {
        test: Test,
        rs1: u8,
        rs2: u8,
        to: Label,
    },
    /// A jump to a label, JAL.
    Jump {
        rd: u8,
        to: Label,
    },
    /// LUI with the upper part of a label's address.
    Upper {
        rd: u8,
        of: Label,
    },
    /// ADDI of the lower part of a label's address to the same register.
    Lower {
        rd: u8,
        of: Label,
    },
    /// A number.
    Number(u32),
    /// The address of a label.
    Address(Label),
}

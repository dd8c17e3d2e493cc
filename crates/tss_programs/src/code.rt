// The tasks that programs spawn.
use tss_isa::{ImmOp, Instr, LoadKind, StoreKind, Test};

/// The end of a task.
const RET: Instr = Instr::Jalr {
    rd: 0,
    rs1: 1,
    offset: 0,
};

/// A load of the word at the first operand.
const LOAD: Instr = Instr::Load {
    kind: LoadKind::Lw,
    rd: 5,
    rs1: 10,
    offset: 0,
};

/// A store of that word there.
const STORE: Instr = Instr::Store {
    kind: StoreKind::Sw,
    rs2: 5,
    rs1: 10,
    offset: 0,
};

static W: [Instr; 2] = [
    Instr::Store {
        kind: StoreKind::Sw,
        rs2: 11,
        rs1: 10,
        offset: 0,
    },
    RET,
];

static R: [Instr; 3] = [
    LOAD,
    Instr::Store {
        kind: StoreKind::Sw,
        rs2: 5,
        rs1: 11,
        offset: 0,
    },
    RET,
];

static I: [Instr; 4] = [
    LOAD,
    Instr::OpImm {
        op: ImmOp::Addi,
        rd: 5,
        rs1: 5,
        imm: 1,
    },
    STORE,
    RET,
];

static Q: [Instr; 2] = [LOAD, RET];

static N: [Instr; 1] = [RET];

static H: [Instr; 1] = [Instr::Ebreak];

static Z: [Instr; 3] = [
    LOAD,
    Instr::Branch {
        test: Test::Beq,
        rs1: 5,
        rs2: 0,
        offset: -4,
    },
    RET,
];

static THIRD: [Instr; 2] = [
    Instr::Store {
        kind: StoreKind::Sw,
        rs2: 13,
        rs1: 12,
        offset: 0,
    },
    RET,
];

static SCRATCH: [Instr; 4] = [
    Instr::Load {
        kind: LoadKind::Lw,
        rd: 5,
        rs1: 2,
        offset: -4,
    },
    STORE,
    Instr::Store {
        kind: StoreKind::Sw,
        rs2: 11,
        rs1: 2,
        offset: -4,
    },
    RET,
];

static CALL: [Instr; 2] = [
    Instr::OpImm {
        op: ImmOp::Addi,
        rd: 17,
        rs1: 0,
        imm: 77,
    },
    Instr::Ecall,
];

static BEYOND: [Instr; 2] = [
    Instr::Load {
        kind: LoadKind::Lw,
        rd: 5,
        rs1: 10,
        offset: 4,
    },
    RET,
];

static STORES: [Instr; 2] = [STORE, RET];

static REST: [Instr; 0] = [];

/// A task's code.
#[derive(Clone, Copy, Debug, PartialEq, Eq)]
pub enum Code {
    /// Writes its argument to its one operand.
    W,
    /// Copies a word from its first operand to its second.
    R,
    /// Adds one to the word at its operand.
    I,
    /// Reads its operand.
    Q,
    /// Does nothing.
    N,
    /// Traps at once.
    H,
    /// Reads its operand until that isn't zero.
    Z,
    /// Writes its argument to the third of three operands.
    Third,
    /// Writes to its operand what stands last in its scratch, and then its argument there.
    Scratch,
    /// Makes a call, of number 77, which no task may.
    Call,
    /// Reads the word after its operand.
    Beyond,
    /// Writes a zero to its operand.
    Stores,
    /// Has no code of its own, and is entered at what stands after the tasks and the lists.
    Rest,
}

impl Code {
    /// Its instructions, in their order.
    pub(crate) fn instructions(self) -> &'static [Instr] {
        match self {
            Code::W => &W,
            Code::R => &R,
            Code::I => &I,
            Code::Q => &Q,
            Code::N => &N,
            Code::H => &H,
            Code::Z => &Z,
            Code::Third => &THIRD,
            Code::Scratch => &SCRATCH,
            Code::Call => &CALL,
            Code::Beyond => &BEYOND,
            Code::Stores => &STORES,
            Code::Rest => &REST,
        }
    }
}

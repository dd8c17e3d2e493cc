// The instructions of RV32I and of its extension M with their fields.
/// The word of a call.
pub(crate) const ECALL: u32 = 0x0000_0073;

/// The word of a breakpoint.
pub(crate) const EBREAK: u32 = 0x0010_0073;

/// A condition of a branch: equal, not equal, less and at least with sign, and the same two without sign.
#[derive(Clone, Copy, Debug, PartialEq, Eq)]
pub enum Test {
    Beq,
    Bne,
    Blt,
    Bge,
    Bltu,
    Bgeu,
}

/// What a load reads: a byte, a half or a word, the first two extended by sign or (`Lbu`, `Lhu`) by zeros.
#[derive(Clone, Copy, Debug, PartialEq, Eq)]
pub enum LoadKind {
    Lb,
    Lh,
    Lw,
    Lbu,
    Lhu,
}

/// What a store writes: a byte, a half or a word.
#[derive(Clone, Copy, Debug, PartialEq, Eq)]
pub enum StoreKind {
    Sb,
    Sh,
    Sw,
}

/// An operation of a register and an immediate.
#[derive(Clone, Copy, Debug, PartialEq, Eq)]
pub enum ImmOp {
    Addi,
    Slli,
    Slti,
    Sltiu,
    Xori,
    Srli,
    Srai,
    Ori,
    Andi,
}

/// An operation of two registers. From `Mul` on they are the products and quotients of M: the low half of the product;
/// its high half with sign, with sign by without, and without sign; the quotient and the remainder, each with and
/// without sign.
#[derive(Clone, Copy, Debug, PartialEq, Eq)]
pub enum RegOp {
    Add,
    Sub,
    Sll,
    Slt,
    Sltu,
    Xor,
    Srl,
    Sra,
    Or,
    And,
    Mul,
    Mulh,
    Mulhsu,
    Mulhu,
    Div,
    Divu,
    Rem,
    Remu,
}

/// An instruction. Registers are 0 to 31. An offset, and the immediate of `OpImm`, is the number that is added or
/// compared, so it is extended by sign already; that of a shift is how far it shifts, 0 to 31. The immediate of `Lui`
/// and `Auipc` is the whole word, whose low twelve bits are zero. `bits` of a fence are bits 31 to 20 of its word,
/// which mean nothing here.
#[derive(Clone, Copy, Debug, PartialEq, Eq)]
pub enum Instr {
    Lui {
        rd: u8,
        imm: u32,
    },
    Auipc {
        rd: u8,
        imm: u32,
    },
    Jal {
        rd: u8,
        offset: i32,
    },
    Jalr {
        rd: u8,
        rs1: u8,
        offset: i32,
    },
    Branch {
        test: Test,
        rs1: u8,
        rs2: u8,
        offset: i32,
    },
    Load {
        kind: LoadKind,
        rd: u8,
        rs1: u8,
        offset: i32,
    },
    Store {
        kind: StoreKind,
        rs2: u8,
        rs1: u8,
        offset: i32,
    },
    OpImm {
        op: ImmOp,
        rd: u8,
        rs1: u8,
        imm: i32,
    },
    Op {
        op: RegOp,
        rd: u8,
        rs1: u8,
        rs2: u8,
    },
    Fence {
        rd: u8,
        rs1: u8,
        bits: u32,
    },
    Ecall,
    Ebreak,
}

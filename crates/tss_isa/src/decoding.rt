// Words to instructions.
ghost use Rattle.std.specs.Prelude.{◌≡◌, IsTrue, IfSome};
ghost use Rattle.tss_isa.specs.Fields.{funct3, funct7};
ghost use Rattle.tss_isa.specs.InstrTable.{instr_of, word_of, fits, test_of, load_kind_of, store_kind_of, imm_op_of, operand_of, reg_op_of, branch_of, jalr_of, load_of, row_of, store_of, op_imm_of, op_of, fence_of, system_of};

use crate::fields::{
    funct3, funct7, high, imm_b, imm_i, imm_j, imm_s, imm_u, opcode, rd, rs1, rs2,
};
use crate::instr::{EBREAK, ECALL, ImmOp, Instr, LoadKind, RegOp, StoreKind, Test};

/// The instruction of a word, or none where the word is illegal. The instruction fits, and `encode` gives the word back.
#[inline(always)]
pub fn decode(word: u32) -> Option<Instr>
    ensures exact { result ≡ instr_of word }
    ensures inverse { IfSome result (λ i. IsTrue (fits i) × (word_of i ≡ word)) }
{
    row(opcode(word), word)
}

/// The instruction of a word with this opcode.
#[inline(always)]
fn row(opcode: u32, word: u32) -> Option<Instr>
    ensures { result ≡ row_of opcode word }
{
    match opcode {
        0x37 => Some(Instr::Lui {
            rd: rd(word),
            imm: imm_u(word),
        }),
        0x17 => Some(Instr::Auipc {
            rd: rd(word),
            imm: imm_u(word),
        }),
        0x6F => Some(Instr::Jal {
            rd: rd(word),
            offset: imm_j(word),
        }),
        0x67 => jalr(word),
        0x63 => branch(word),
        0x03 => load(word),
        0x23 => store(word),
        0x13 => op_imm(word),
        0x33 => op(word),
        0x0F => fence(word),
        0x73 => system(word),
        _ => None,
    }
}

#[inline(always)]
fn jalr(word: u32) -> Option<Instr>
    ensures { result ≡ jalr_of (funct3 word) word }
{
    match funct3(word) {
        0 => Some(Instr::Jalr {
            rd: rd(word),
            rs1: rs1(word),
            offset: imm_i(word),
        }),
        _ => None,
    }
}

#[inline(always)]
fn branch(word: u32) -> Option<Instr>
    ensures { result ≡ branch_of (test_of (funct3 word)) word }
{
    let test = test(funct3(word))?;
    Some(Instr::Branch {
        test,
        rs1: rs1(word),
        rs2: rs2(word),
        offset: imm_b(word),
    })
}

#[inline(always)]
fn load(word: u32) -> Option<Instr>
    ensures { result ≡ load_of (load_kind_of (funct3 word)) word }
{
    let kind = load_kind(funct3(word))?;
    Some(Instr::Load {
        kind,
        rd: rd(word),
        rs1: rs1(word),
        offset: imm_i(word),
    })
}

#[inline(always)]
fn store(word: u32) -> Option<Instr>
    ensures { result ≡ store_of (store_kind_of (funct3 word)) word }
{
    let kind = store_kind(funct3(word))?;
    Some(Instr::Store {
        kind,
        rs2: rs2(word),
        rs1: rs1(word),
        offset: imm_s(word),
    })
}

#[inline(always)]
fn op_imm(word: u32) -> Option<Instr>
    ensures { result ≡ op_imm_of (imm_op_of (funct3 word) (funct7 word)) word }
{
    let op = imm_op(funct3(word), funct7(word))?;
    Some(Instr::OpImm {
        op,
        rd: rd(word),
        rs1: rs1(word),
        imm: operand(op, word),
    })
}

#[inline(always)]
fn op(word: u32) -> Option<Instr>
    ensures { result ≡ op_of (reg_op_of (funct3 word) (funct7 word)) word }
{
    let op = reg_op(funct3(word), funct7(word))?;
    Some(Instr::Op {
        op,
        rd: rd(word),
        rs1: rs1(word),
        rs2: rs2(word),
    })
}

#[inline(always)]
fn fence(word: u32) -> Option<Instr>
    ensures { result ≡ fence_of (funct3 word) word }
{
    match funct3(word) {
        0 => Some(Instr::Fence {
            rd: rd(word),
            rs1: rs1(word),
            bits: high(word),
        }),
        _ => None,
    }
}

#[inline(always)]
fn system(word: u32) -> Option<Instr>
    ensures { result ≡ system_of word }
{
    match word {
        ECALL => Some(Instr::Ecall),
        EBREAK => Some(Instr::Ebreak),
        _ => None,
    }
}

#[inline(always)]
fn test(funct3: u32) -> Option<Test>
    ensures { result ≡ test_of funct3 }
{
    match funct3 {
        0 => Some(Test::Beq),
        1 => Some(Test::Bne),
        4 => Some(Test::Blt),
        5 => Some(Test::Bge),
        6 => Some(Test::Bltu),
        7 => Some(Test::Bgeu),
        _ => None,
    }
}

#[inline(always)]
fn load_kind(funct3: u32) -> Option<LoadKind>
    ensures { result ≡ load_kind_of funct3 }
{
    match funct3 {
        0 => Some(LoadKind::Lb),
        1 => Some(LoadKind::Lh),
        2 => Some(LoadKind::Lw),
        4 => Some(LoadKind::Lbu),
        5 => Some(LoadKind::Lhu),
        _ => None,
    }
}

#[inline(always)]
fn store_kind(funct3: u32) -> Option<StoreKind>
    ensures { result ≡ store_kind_of funct3 }
{
    match funct3 {
        0 => Some(StoreKind::Sb),
        1 => Some(StoreKind::Sh),
        2 => Some(StoreKind::Sw),
        _ => None,
    }
}

/// A shift asks for its funct7 too.
#[inline(always)]
fn imm_op(funct3: u32, funct7: u32) -> Option<ImmOp>
    ensures { result ≡ imm_op_of funct3 funct7 }
{
    match funct3 {
        0 => Some(ImmOp::Addi),
        1 if funct7 == 0 => Some(ImmOp::Slli),
        2 => Some(ImmOp::Slti),
        3 => Some(ImmOp::Sltiu),
        4 => Some(ImmOp::Xori),
        5 if funct7 == 0 => Some(ImmOp::Srli),
        5 if funct7 == 32 => Some(ImmOp::Srai),
        6 => Some(ImmOp::Ori),
        7 => Some(ImmOp::Andi),
        _ => None,
    }
}

/// The immediate of an operation: a shift's is the rs2 field, any other's the I immediate.
#[inline(always)]
fn operand(op: ImmOp, word: u32) -> i32
    ensures { result ≡ operand_of op word }
{
    match op {
        ImmOp::Slli | ImmOp::Srli | ImmOp::Srai => i32::from(rs2(word)),
        _ => imm_i(word),
    }
}

#[inline(always)]
fn reg_op(funct3: u32, funct7: u32) -> Option<RegOp>
    ensures { result ≡ reg_op_of funct3 funct7 }
{
    match (funct7, funct3) {
        (0, 0) => Some(RegOp::Add),
        (32, 0) => Some(RegOp::Sub),
        (0, 1) => Some(RegOp::Sll),
        (0, 2) => Some(RegOp::Slt),
        (0, 3) => Some(RegOp::Sltu),
        (0, 4) => Some(RegOp::Xor),
        (0, 5) => Some(RegOp::Srl),
        (32, 5) => Some(RegOp::Sra),
        (0, 6) => Some(RegOp::Or),
        (0, 7) => Some(RegOp::And),
        (1, 0) => Some(RegOp::Mul),
        (1, 1) => Some(RegOp::Mulh),
        (1, 2) => Some(RegOp::Mulhsu),
        (1, 3) => Some(RegOp::Mulhu),
        (1, 4) => Some(RegOp::Div),
        (1, 5) => Some(RegOp::Divu),
        (1, 6) => Some(RegOp::Rem),
        (1, 7) => Some(RegOp::Remu),
        _ => None,
    }
}

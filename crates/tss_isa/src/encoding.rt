// Instructions to words.
ghost use Rattle.std.specs.Prelude.{◌≡◌, ℤ, ◌*◌, ◌+◌, ◌^◌, ◌<◌, Some, IsTrue, pos};
ghost use Rattle.tss_isa.specs.Fields.{field};
ghost use Rattle.tss_isa.specs.InstrTable.{instr_of, word_of, fits, twos, branch_word, store_word, test_code, load_code, store_code, imm_op_code, imm_op_high, reg_op_code, reg_op_high, joined, joined_upper, low_b, high_b, upper_j, is_register, is_upper, is_within, is_even, is_operand};

use crate::instr::{EBREAK, ECALL, ImmOp, Instr, LoadKind, RegOp, StoreKind, Test};

/// Whether each field of the instruction is in its range: a register is 0 to 31, an offset that is added to the pc is
/// even, an immediate and an offset has as many bits as its place in the word, and a shift's distance is 0 to 31.
pub fn fits(i: &Instr) -> bool
    ensures { result ≡ fits i.now }
{
    match *i {
        Instr::Lui { rd, imm } | Instr::Auipc { rd, imm } => is_register(rd) && imm & 0xFFF == 0,
        Instr::Jal { rd, offset } => {
            is_register(rd) && is_within(offset, 0x100000) && is_even(offset)
        }
        Instr::Jalr { rd, rs1, offset } => {
            is_register(rd) && is_register(rs1) && is_within(offset, 0x800)
        }
        Instr::Branch {
            test: _,
            rs1,
            rs2,
            offset,
        } => {
            is_register(rs1) && is_register(rs2) && is_within(offset, 0x1000) && is_even(offset)
        }
        Instr::Load {
            kind: _,
            rd,
            rs1,
            offset,
        } => { is_register(rd) && is_register(rs1) && is_within(offset, 0x800) }
        Instr::Store {
            kind: _,
            rs2,
            rs1,
            offset,
        } => { is_register(rs2) && is_register(rs1) && is_within(offset, 0x800) }
        Instr::OpImm { op, rd, rs1, imm } => {
            is_register(rd) && is_register(rs1) && is_operand(op, imm)
        }
        Instr::Op {
            op: _,
            rd,
            rs1,
            rs2,
        } => { is_register(rd) && is_register(rs1) && is_register(rs2) }
        Instr::Fence { rd, rs1, bits } => is_register(rd) && is_register(rs1) && bits < 0x1000,
        Instr::Ecall | Instr::Ebreak => true,
    }
}

/// The word of an instruction that fits: `decode` reads it as this instruction.
#[tactic(auto, unfolding(crate::specs::InstrTable::word_of))]
pub fn encode(i: &Instr) -> u32
    requires { IsTrue (fits i.now) }
    ensures exact { result ≡ word_of i.now }
    ensures inverse { instr_of result ≡ Some i.now }
{
    match *i {
        Instr::Lui { rd, imm } => joined_upper(0x37, rd, imm >> 12),
        Instr::Auipc { rd, imm } => joined_upper(0x17, rd, imm >> 12),
        Instr::Jal { rd, offset } => joined_upper(0x6F, rd, upper_j(offset.cast_unsigned())),
        Instr::Jalr { rd, rs1, offset } => joined(0x67, rd, 0, rs1, low_12(offset)),
        Instr::Branch {
            test,
            rs1,
            rs2,
            offset,
        } => { branch_word(test_code(test), rs1, rs2, offset.cast_unsigned()) }
        Instr::Load {
            kind,
            rd,
            rs1,
            offset,
        } => { joined(0x03, rd, load_code(kind), rs1, low_12(offset)) }
        Instr::Store {
            kind,
            rs2,
            rs1,
            offset,
        } => { store_word(store_code(kind), rs1, rs2, offset.cast_unsigned()) }
        Instr::OpImm { op, rd, rs1, imm } => {
            joined(0x13, rd, imm_op_code(op), rs1, imm_op_high(op, imm))
        }
        Instr::Op { op, rd, rs1, rs2 } => {
            joined(
                0x33,
                rd,
                reg_op_code(op),
                rs1,
                (reg_op_high(op) << 5) + u32::from(rs2),
            )
        }
        Instr::Fence { rd, rs1, bits } => joined(0x0F, rd, 0, rs1, bits),
        Instr::Ecall => ECALL,
        Instr::Ebreak => EBREAK,
    }
}

/// A word of an opcode, the fields rd, funct3 and rs1, and bits 31 to 20.
fn joined(opcode: u32, rd: u8, funct3: u32, rs1: u8, high: u32) -> u32
    requires opcode { opcode < 128 }
    requires rd { rd < 32 }
    requires funct3 { funct3 < 8 }
    requires rs1 { rs1 < 32 }
    requires high { high < 4096 }
    ensures { result ≡ joined opcode rd funct3 rs1 high }
{
    opcode + (u32::from(rd) << 7) + (funct3 << 12) + (u32::from(rs1) << 15) + (high << 20)
}

/// A word of an opcode, the field rd, and bits 31 to 12.
fn joined_upper(opcode: u32, rd: u8, upper: u32) -> u32
    requires opcode { opcode < 128 }
    requires rd { rd < 32 }
    requires upper { upper < 2 ^ 20 }
    ensures { result ≡ joined_upper opcode rd upper }
{
    opcode + (u32::from(rd) << 7) + (upper << 12)
}

/// The low twelve bits.
fn low_12(offset: i32) -> u32
    ensures { result ≡ field (twos offset) 0 12 }
{
    offset.cast_unsigned() & 0xFFF
}

/// Bits 31 to 12 of a word with the J immediate `n`.
fn upper_j(n: u32) -> u32
    ensures { result ≡ upper_j n }
{
    let sign = ((n >> 20) & 0x1) << 19;
    let bits_10_to_1 = ((n >> 1) & 0x3FF) << 9;
    let bit_11 = ((n >> 11) & 0x1) << 8;
    let bits_19_to_12 = (n >> 12) & 0xFF;
    sign + bits_10_to_1 + bit_11 + bits_19_to_12
}

/// The word of a branch with the B immediate `n`.
fn branch_word(funct3: u32, rs1: u8, rs2: u8, n: u32) -> u32
    requires funct3 { funct3 < 8 }
    requires rs1 { rs1 < 32 }
    requires rs2 { rs2 < 32 }
    ensures { result ≡ branch_word funct3 rs1 rs2 n }
{
    let low = (((n >> 1) & 0xF) << 1) + ((n >> 11) & 0x1);
    let high = (((n >> 12) & 0x1) << 6) + ((n >> 5) & 0x3F);
    joined(0x63, low as u8, funct3, rs1, (high << 5) + u32::from(rs2))
}

/// The word of a store with the S immediate `n`.
fn store_word(funct3: u32, rs1: u8, rs2: u8, n: u32) -> u32
    requires funct3 { funct3 < 8 }
    requires rs1 { rs1 < 32 }
    requires rs2 { rs2 < 32 }
    ensures { result ≡ store_word funct3 rs1 rs2 n }
{
    let low = n & 0x1F;
    let high = (n >> 5) & 0x7F;
    joined(0x23, low as u8, funct3, rs1, (high << 5) + u32::from(rs2))
}

/// Bits 31 to 20 of an operation with an immediate: a shift has its funct7 above its distance.
fn imm_op_high(op: ImmOp, imm: i32) -> u32
    ensures exact { result ≡ imm_op_high op imm }
    ensures bits { result < 4096 }
{
    match op {
        ImmOp::Srai => (32 << 5) + (imm.cast_unsigned() & 0x1F),
        _ => low_12(imm),
    }
}

fn test_code(test: Test) -> u32
    ensures { result ≡ test_code test }
{
    match test {
        Test::Beq => 0,
        Test::Bne => 1,
        Test::Blt => 4,
        Test::Bge => 5,
        Test::Bltu => 6,
        Test::Bgeu => 7,
    }
}

fn load_code(kind: LoadKind) -> u32
    ensures { result ≡ load_code kind }
{
    match kind {
        LoadKind::Lb => 0,
        LoadKind::Lh => 1,
        LoadKind::Lw => 2,
        LoadKind::Lbu => 4,
        LoadKind::Lhu => 5,
    }
}

fn store_code(kind: StoreKind) -> u32
    ensures { result ≡ store_code kind }
{
    match kind {
        StoreKind::Sb => 0,
        StoreKind::Sh => 1,
        StoreKind::Sw => 2,
    }
}

fn imm_op_code(op: ImmOp) -> u32
    ensures { result ≡ imm_op_code op }
{
    match op {
        ImmOp::Addi => 0,
        ImmOp::Slli => 1,
        ImmOp::Slti => 2,
        ImmOp::Sltiu => 3,
        ImmOp::Xori => 4,
        ImmOp::Srli | ImmOp::Srai => 5,
        ImmOp::Ori => 6,
        ImmOp::Andi => 7,
    }
}

fn reg_op_code(op: RegOp) -> u32
    ensures { result ≡ reg_op_code op }
{
    match op {
        RegOp::Add | RegOp::Sub | RegOp::Mul => 0,
        RegOp::Sll | RegOp::Mulh => 1,
        RegOp::Slt | RegOp::Mulhsu => 2,
        RegOp::Sltu | RegOp::Mulhu => 3,
        RegOp::Xor | RegOp::Div => 4,
        RegOp::Srl | RegOp::Sra | RegOp::Divu => 5,
        RegOp::Or | RegOp::Rem => 6,
        RegOp::And | RegOp::Remu => 7,
    }
}

/// The funct7 of an operation of two registers.
fn reg_op_high(op: RegOp) -> u32
    ensures { result ≡ reg_op_high op }
{
    match op {
        RegOp::Sub | RegOp::Sra => 32,
        RegOp::Mul
        | RegOp::Mulh
        | RegOp::Mulhsu
        | RegOp::Mulhu
        | RegOp::Div
        | RegOp::Divu
        | RegOp::Rem
        | RegOp::Remu => 1,
        _ => 0,
    }
}

fn is_register(r: u8) -> bool
    ensures { result ≡ is_register r }
{
    r < 32
}

/// Whether the offset lies from `-half` to `half - 1`.
fn is_within(offset: i32, half: u32) -> bool
    requires { half < 2 ^ 31 }
    ensures { result ≡ is_within half offset }
{
    let half = half as i32;
    -half <= offset && offset < half
}

fn is_even(offset: i32) -> bool
    ensures { result ≡ is_even offset }
{
    offset & 1 == 0
}

fn is_operand(op: ImmOp, imm: i32) -> bool
    ensures { result ≡ is_operand op imm }
{
    match op {
        ImmOp::Slli | ImmOp::Srli | ImmOp::Srai => 0 <= imm && imm < 32,
        _ => is_within(imm, 0x800),
    }
}

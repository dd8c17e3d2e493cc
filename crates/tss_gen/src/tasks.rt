// The instructions of the workload's tasks and of its main loop.
ghost use Rattle.std.specs.Prelude.{◌≡◌};
ghost use Rattle.tss_gen.specs.Tasks.{tasks as tasks_of};

use crate::form::Form;
use tss_isa::{ImmOp, Instr, LoadKind, RegOp, StoreKind, Test};

/// The four tasks with shifts and exclusive or: D, E, C and U.
pub static SHIFTS: [Instr; 40] = [
    // D
    Instr::OpImm {
        op: ImmOp::Addi,
        rd: 6,
        rs1: 10,
        imm: 64,
    },
    Instr::Load {
        kind: LoadKind::Lw,
        rd: 5,
        rs1: 10,
        offset: 0,
    },
    Instr::OpImm {
        op: ImmOp::Slli,
        rd: 7,
        rs1: 5,
        imm: 3,
    },
    Instr::Op {
        op: RegOp::Add,
        rd: 5,
        rs1: 5,
        rs2: 7,
    },
    Instr::Op {
        op: RegOp::Add,
        rd: 5,
        rs1: 5,
        rs2: 11,
    },
    Instr::Store {
        kind: StoreKind::Sw,
        rs2: 5,
        rs1: 10,
        offset: 0,
    },
    Instr::OpImm {
        op: ImmOp::Addi,
        rd: 10,
        rs1: 10,
        imm: 4,
    },
    Instr::Branch {
        test: Test::Bne,
        rs1: 10,
        rs2: 6,
        offset: -24,
    },
    Instr::Jalr {
        rd: 0,
        rs1: 1,
        offset: 0,
    },
    // E
    Instr::OpImm {
        op: ImmOp::Addi,
        rd: 6,
        rs1: 10,
        imm: 64,
    },
    Instr::Load {
        kind: LoadKind::Lw,
        rd: 5,
        rs1: 10,
        offset: 0,
    },
    Instr::Op {
        op: RegOp::Add,
        rd: 5,
        rs1: 5,
        rs2: 12,
    },
    Instr::Store {
        kind: StoreKind::Sw,
        rs2: 5,
        rs1: 11,
        offset: 0,
    },
    Instr::OpImm {
        op: ImmOp::Addi,
        rd: 10,
        rs1: 10,
        imm: 4,
    },
    Instr::OpImm {
        op: ImmOp::Addi,
        rd: 11,
        rs1: 11,
        imm: 4,
    },
    Instr::Branch {
        test: Test::Bne,
        rs1: 10,
        rs2: 6,
        offset: -20,
    },
    Instr::Jalr {
        rd: 0,
        rs1: 1,
        offset: 0,
    },
    // C
    Instr::OpImm {
        op: ImmOp::Addi,
        rd: 6,
        rs1: 10,
        imm: 64,
    },
    Instr::Load {
        kind: LoadKind::Lw,
        rd: 5,
        rs1: 10,
        offset: 0,
    },
    Instr::Op {
        op: RegOp::Xor,
        rd: 5,
        rs1: 5,
        rs2: 12,
    },
    Instr::Load {
        kind: LoadKind::Lw,
        rd: 7,
        rs1: 11,
        offset: 0,
    },
    Instr::Op {
        op: RegOp::Add,
        rd: 7,
        rs1: 7,
        rs2: 5,
    },
    Instr::Store {
        kind: StoreKind::Sw,
        rs2: 7,
        rs1: 11,
        offset: 0,
    },
    Instr::OpImm {
        op: ImmOp::Addi,
        rd: 10,
        rs1: 10,
        imm: 4,
    },
    Instr::OpImm {
        op: ImmOp::Addi,
        rd: 11,
        rs1: 11,
        imm: 4,
    },
    Instr::Branch {
        test: Test::Bne,
        rs1: 10,
        rs2: 6,
        offset: -28,
    },
    Instr::Jalr {
        rd: 0,
        rs1: 1,
        offset: 0,
    },
    // U
    Instr::OpImm {
        op: ImmOp::Addi,
        rd: 6,
        rs1: 10,
        imm: 64,
    },
    Instr::Load {
        kind: LoadKind::Lw,
        rd: 5,
        rs1: 11,
        offset: 0,
    },
    Instr::OpImm {
        op: ImmOp::Srli,
        rd: 5,
        rs1: 5,
        imm: 1,
    },
    Instr::Load {
        kind: LoadKind::Lw,
        rd: 7,
        rs1: 10,
        offset: 0,
    },
    Instr::Op {
        op: RegOp::Add,
        rd: 5,
        rs1: 5,
        rs2: 7,
    },
    Instr::Load {
        kind: LoadKind::Lw,
        rd: 7,
        rs1: 12,
        offset: 0,
    },
    Instr::Op {
        op: RegOp::Xor,
        rd: 7,
        rs1: 7,
        rs2: 5,
    },
    Instr::Store {
        kind: StoreKind::Sw,
        rs2: 7,
        rs1: 12,
        offset: 0,
    },
    Instr::OpImm {
        op: ImmOp::Addi,
        rd: 10,
        rs1: 10,
        imm: 4,
    },
    Instr::OpImm {
        op: ImmOp::Addi,
        rd: 11,
        rs1: 11,
        imm: 4,
    },
    Instr::OpImm {
        op: ImmOp::Addi,
        rd: 12,
        rs1: 12,
        imm: 4,
    },
    Instr::Branch {
        test: Test::Bne,
        rs1: 10,
        rs2: 6,
        offset: -40,
    },
    Instr::Jalr {
        rd: 0,
        rs1: 1,
        offset: 0,
    },
];

/// The four tasks with products and quotients.
pub static PRODUCTS: [Instr; 39] = [
    // D
    Instr::OpImm {
        op: ImmOp::Addi,
        rd: 6,
        rs1: 10,
        imm: 64,
    },
    Instr::OpImm {
        op: ImmOp::Addi,
        rd: 11,
        rs1: 11,
        imm: 1,
    },
    Instr::Load {
        kind: LoadKind::Lw,
        rd: 5,
        rs1: 10,
        offset: 0,
    },
    Instr::Op {
        op: RegOp::Divu,
        rd: 7,
        rs1: 5,
        rs2: 11,
    },
    Instr::Op {
        op: RegOp::Add,
        rd: 5,
        rs1: 5,
        rs2: 7,
    },
    Instr::Store {
        kind: StoreKind::Sw,
        rs2: 5,
        rs1: 10,
        offset: 0,
    },
    Instr::OpImm {
        op: ImmOp::Addi,
        rd: 10,
        rs1: 10,
        imm: 4,
    },
    Instr::Branch {
        test: Test::Bne,
        rs1: 10,
        rs2: 6,
        offset: -20,
    },
    Instr::Jalr {
        rd: 0,
        rs1: 1,
        offset: 0,
    },
    // E
    Instr::OpImm {
        op: ImmOp::Addi,
        rd: 6,
        rs1: 10,
        imm: 64,
    },
    Instr::Load {
        kind: LoadKind::Lw,
        rd: 5,
        rs1: 10,
        offset: 0,
    },
    Instr::Op {
        op: RegOp::Add,
        rd: 5,
        rs1: 5,
        rs2: 12,
    },
    Instr::Store {
        kind: StoreKind::Sw,
        rs2: 5,
        rs1: 11,
        offset: 0,
    },
    Instr::OpImm {
        op: ImmOp::Addi,
        rd: 10,
        rs1: 10,
        imm: 4,
    },
    Instr::OpImm {
        op: ImmOp::Addi,
        rd: 11,
        rs1: 11,
        imm: 4,
    },
    Instr::Branch {
        test: Test::Bne,
        rs1: 10,
        rs2: 6,
        offset: -20,
    },
    Instr::Jalr {
        rd: 0,
        rs1: 1,
        offset: 0,
    },
    // C
    Instr::OpImm {
        op: ImmOp::Addi,
        rd: 6,
        rs1: 10,
        imm: 64,
    },
    Instr::Load {
        kind: LoadKind::Lw,
        rd: 5,
        rs1: 10,
        offset: 0,
    },
    Instr::Load {
        kind: LoadKind::Lw,
        rd: 7,
        rs1: 11,
        offset: 0,
    },
    Instr::Op {
        op: RegOp::Mul,
        rd: 7,
        rs1: 7,
        rs2: 5,
    },
    Instr::Op {
        op: RegOp::Add,
        rd: 7,
        rs1: 7,
        rs2: 12,
    },
    Instr::Store {
        kind: StoreKind::Sw,
        rs2: 7,
        rs1: 11,
        offset: 0,
    },
    Instr::OpImm {
        op: ImmOp::Addi,
        rd: 10,
        rs1: 10,
        imm: 4,
    },
    Instr::OpImm {
        op: ImmOp::Addi,
        rd: 11,
        rs1: 11,
        imm: 4,
    },
    Instr::Branch {
        test: Test::Bne,
        rs1: 10,
        rs2: 6,
        offset: -28,
    },
    Instr::Jalr {
        rd: 0,
        rs1: 1,
        offset: 0,
    },
    // U
    Instr::OpImm {
        op: ImmOp::Addi,
        rd: 6,
        rs1: 10,
        imm: 64,
    },
    Instr::Load {
        kind: LoadKind::Lw,
        rd: 5,
        rs1: 10,
        offset: 0,
    },
    Instr::Load {
        kind: LoadKind::Lw,
        rd: 7,
        rs1: 11,
        offset: 0,
    },
    Instr::Op {
        op: RegOp::Mul,
        rd: 5,
        rs1: 5,
        rs2: 7,
    },
    Instr::Load {
        kind: LoadKind::Lw,
        rd: 7,
        rs1: 12,
        offset: 0,
    },
    Instr::Op {
        op: RegOp::Sub,
        rd: 7,
        rs1: 7,
        rs2: 5,
    },
    Instr::Store {
        kind: StoreKind::Sw,
        rs2: 7,
        rs1: 12,
        offset: 0,
    },
    Instr::OpImm {
        op: ImmOp::Addi,
        rd: 10,
        rs1: 10,
        imm: 4,
    },
    Instr::OpImm {
        op: ImmOp::Addi,
        rd: 11,
        rs1: 11,
        imm: 4,
    },
    Instr::OpImm {
        op: ImmOp::Addi,
        rd: 12,
        rs1: 12,
        imm: 4,
    },
    Instr::Branch {
        test: Test::Bne,
        rs1: 10,
        rs2: 6,
        offset: -36,
    },
    Instr::Jalr {
        rd: 0,
        rs1: 1,
        offset: 0,
    },
];

/// What main does from the first record of the table, at x8, to its end, at x9.
pub static MAIN_LOOP: [Instr; 13] = [
    Instr::Load {
        kind: LoadKind::Lw,
        rd: 10,
        rs1: 8,
        offset: 0,
    },
    Instr::Load {
        kind: LoadKind::Lw,
        rd: 12,
        rs1: 8,
        offset: 4,
    },
    Instr::Load {
        kind: LoadKind::Lw,
        rd: 13,
        rs1: 8,
        offset: 8,
    },
    Instr::OpImm {
        op: ImmOp::Addi,
        rd: 11,
        rs1: 8,
        imm: 12,
    },
    Instr::OpImm {
        op: ImmOp::Addi,
        rd: 17,
        rs1: 0,
        imm: 2,
    },
    Instr::Ecall,
    Instr::OpImm {
        op: ImmOp::Addi,
        rd: 8,
        rs1: 8,
        imm: 48,
    },
    Instr::Branch {
        test: Test::Bne,
        rs1: 8,
        rs2: 9,
        offset: -28,
    },
    Instr::OpImm {
        op: ImmOp::Addi,
        rd: 17,
        rs1: 0,
        imm: 3,
    },
    Instr::Ecall,
    Instr::OpImm {
        op: ImmOp::Addi,
        rd: 10,
        rs1: 0,
        imm: 0,
    },
    Instr::OpImm {
        op: ImmOp::Addi,
        rd: 17,
        rs1: 0,
        imm: 1,
    },
    Instr::Ecall,
];

/// The instructions of the four tasks.
pub fn tasks(form: Form) -> &'static [Instr]
    ensures { result.now ≡ tasks_of form }
{
    match form {
        Form::Shifts => &SHIFTS,
        Form::Products => &PRODUCTS,
    }
}

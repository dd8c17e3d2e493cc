// Words of a foreign assembler, and words that mean nothing.
use tss_isa::{ImmOp, Instr, LoadKind, RegOp, StoreKind, Test, decode, encode, fits};

fn lui(rd: u8, imm: u32) -> Instr {
    Instr::Lui { rd, imm }
}

fn auipc(rd: u8, imm: u32) -> Instr {
    Instr::Auipc { rd, imm }
}

fn jal(rd: u8, offset: i32) -> Instr {
    Instr::Jal { rd, offset }
}

fn jalr(rd: u8, rs1: u8, offset: i32) -> Instr {
    Instr::Jalr { rd, rs1, offset }
}

fn branch(test: Test, rs1: u8, rs2: u8, offset: i32) -> Instr {
    Instr::Branch {
        test,
        rs1,
        rs2,
        offset,
    }
}

fn load(kind: LoadKind, rd: u8, rs1: u8, offset: i32) -> Instr {
    Instr::Load {
        kind,
        rd,
        rs1,
        offset,
    }
}

fn store(kind: StoreKind, rs2: u8, rs1: u8, offset: i32) -> Instr {
    Instr::Store {
        kind,
        rs2,
        rs1,
        offset,
    }
}

fn op_imm(op: ImmOp, rd: u8, rs1: u8, imm: i32) -> Instr {
    Instr::OpImm { op, rd, rs1, imm }
}

fn op(op: RegOp, rd: u8, rs1: u8, rs2: u8) -> Instr {
    Instr::Op { op, rd, rs1, rs2 }
}

fn fence(rd: u8, rs1: u8, bits: u32) -> Instr {
    Instr::Fence { rd, rs1, bits }
}

/// Each of the 48 instructions with numbers at the edges of its fields. The line of assembler over each word, with the
/// others in words.s, gave it by
/// `riscv64-unknown-elf-as -march=rv32im -mno-relax -o words.o words.s` and `riscv64-unknown-elf-objdump -d words.o`.
fn assembled() -> [(u32, Instr); 53] {
    [
        // lui x31, 0xfffff
        (0xFFFFFFB7, lui(31, 0xFFFFF000)),
        // lui x1, 0x1
        (0x000010B7, lui(1, 0x1000)),
        // auipc x10, 0x80000
        (0x80000517, auipc(10, 0x80000000)),
        // jal x1, .-1048576
        (0x800000EF, jal(1, -1048576)),
        // jal x0, .+1048574
        (0x7FFFF06F, jal(0, 1048574)),
        // jal x5, .+2048
        (0x001002EF, jal(5, 2048)),
        // jalr x1, -2048(x31)
        (0x800F80E7, jalr(1, 31, -2048)),
        // jalr x0, 2047(x1)
        (0x7FF08067, jalr(0, 1, 2047)),
        // beq x0, x31, .-4096
        (0x81F00063, branch(Test::Beq, 0, 31, -4096)),
        // bne x31, x0, .+4094
        (0x7E0F9FE3, branch(Test::Bne, 31, 0, 4094)),
        // blt x1, x2, .+2048
        (0x0020C0E3, branch(Test::Blt, 1, 2, 2048)),
        // bge x16, x8, .-2
        (0xFE885FE3, branch(Test::Bge, 16, 8, -2)),
        // bltu x4, x15, .+30
        (0x00F26F63, branch(Test::Bltu, 4, 15, 30)),
        // bgeu x7, x24, .-2048
        (0x8183F0E3, branch(Test::Bgeu, 7, 24, -2048)),
        // lb x31, -2048(x0)
        (0x80000F83, load(LoadKind::Lb, 31, 0, -2048)),
        // lh x0, 2047(x31)
        (0x7FFF9003, load(LoadKind::Lh, 0, 31, 2047)),
        // lw x5, -1(x10)
        (0xFFF52283, load(LoadKind::Lw, 5, 10, -1)),
        // lbu x17, 0(x2)
        (0x00014883, load(LoadKind::Lbu, 17, 2, 0)),
        // lhu x8, 1365(x16)
        (0x55585403, load(LoadKind::Lhu, 8, 16, 1365)),
        // sb x31, -2048(x0)
        (0x81F00023, store(StoreKind::Sb, 31, 0, -2048)),
        // sh x0, 2047(x31)
        (0x7E0F9FA3, store(StoreKind::Sh, 0, 31, 2047)),
        // sw x11, -1(x10)
        (0xFEB52FA3, store(StoreKind::Sw, 11, 10, -1)),
        // addi x31, x0, -2048
        (0x80000F93, op_imm(ImmOp::Addi, 31, 0, -2048)),
        // slti x1, x2, 2047
        (0x7FF12093, op_imm(ImmOp::Slti, 1, 2, 2047)),
        // sltiu x6, x5, -1
        (0xFFF2B313, op_imm(ImmOp::Sltiu, 6, 5, -1)),
        // xori x16, x8, -1366
        (0xAAA44813, op_imm(ImmOp::Xori, 16, 8, -1366)),
        // ori x4, x15, 31
        (0x01F7E213, op_imm(ImmOp::Ori, 4, 15, 31)),
        // andi x30, x29, 1
        (0x001EFF13, op_imm(ImmOp::Andi, 30, 29, 1)),
        // slli x31, x1, 31
        (0x01F09F93, op_imm(ImmOp::Slli, 31, 1, 31)),
        // srli x2, x30, 0
        (0x000F5113, op_imm(ImmOp::Srli, 2, 30, 0)),
        // srai x9, x6, 31
        (0x41F35493, op_imm(ImmOp::Srai, 9, 6, 31)),
        // srai x6, x9, 1
        (0x4014D313, op_imm(ImmOp::Srai, 6, 9, 1)),
        // add x31, x0, x1
        (0x00100FB3, op(RegOp::Add, 31, 0, 1)),
        // sub x1, x31, x0
        (0x400F80B3, op(RegOp::Sub, 1, 31, 0)),
        // sll x2, x3, x4
        (0x00419133, op(RegOp::Sll, 2, 3, 4)),
        // slt x16, x8, x24
        (0x01842833, op(RegOp::Slt, 16, 8, 24)),
        // sltu x5, x5, x5
        (0x0052B2B3, op(RegOp::Sltu, 5, 5, 5)),
        // xor x30, x15, x7
        (0x0077CF33, op(RegOp::Xor, 30, 15, 7)),
        // srl x0, x31, x31
        (0x01FFD033, op(RegOp::Srl, 0, 31, 31)),
        // sra x6, x5, x7
        (0x4072D333, op(RegOp::Sra, 6, 5, 7)),
        // or x12, x13, x14
        (0x00E6E633, op(RegOp::Or, 12, 13, 14)),
        // and x21, x22, x23
        (0x017B7AB3, op(RegOp::And, 21, 22, 23)),
        // mul x31, x0, x1
        (0x02100FB3, op(RegOp::Mul, 31, 0, 1)),
        // mulh x1, x31, x0
        (0x020F90B3, op(RegOp::Mulh, 1, 31, 0)),
        // mulhsu x2, x3, x4
        (0x0241A133, op(RegOp::Mulhsu, 2, 3, 4)),
        // mulhu x16, x8, x24
        (0x03843833, op(RegOp::Mulhu, 16, 8, 24)),
        // div x5, x5, x5
        (0x0252C2B3, op(RegOp::Div, 5, 5, 5)),
        // divu x30, x15, x7
        (0x0277DF33, op(RegOp::Divu, 30, 15, 7)),
        // rem x0, x31, x31
        (0x03FFE033, op(RegOp::Rem, 0, 31, 31)),
        // remu x21, x22, x23
        (0x037B7AB3, op(RegOp::Remu, 21, 22, 23)),
        // fence rw, w
        (0x0310000F, fence(0, 0, 0x031)),
        // ecall
        (0x00000073, Instr::Ecall),
        // ebreak
        (0x00100073, Instr::Ebreak),
    ]
}

#[test]
fn words_of_an_assembler_are_read_and_written(rt: HostRuntime) {
    for (word, instr) in assembled() {
        assert_eq!(rt; decode(word), Some(instr), "at {word}");
        assert!(rt; fits(&instr), "at {word}");
        assert_eq!(rt; encode(&instr), word);
    }
}

#[test]
fn other_words_are_illegal(rt: HostRuntime) {
    let words = [
        // All bits clear, all set, and a compressed encoding.
        0x0000_0000,
        0xFFFF_FFFF,
        0x0000_4501,
        // A funct3 without a meaning: JALR 1, BRANCH 2 and 3, LOAD 3, 6 and 7, STORE 3, FENCE 1.
        0x0000_1067,
        0x0000_2063,
        0x0000_3063,
        0x0000_3003,
        0x0000_6003,
        0x0000_7003,
        0x0000_3023,
        0x0000_100F,
        // A funct7 without a meaning: SLLI 32, SRLI 1, ADD 2, DIV 33, SLL 32.
        0x4000_1013,
        0x0200_5013,
        0x0400_0033,
        0x4200_4033,
        0x4000_1033,
        // Other words of SYSTEM: a register in ECALL, CSRRW, and a privileged return.
        0x0000_00F3,
        0x0000_1073,
        0x3020_0073,
    ];
    for word in words {
        assert_eq!(rt; decode(word), None, "at {word}");
    }
}

#[test]
fn instructions_beyond_their_ranges_do_not_fit(rt: HostRuntime) {
    let instrs = [
        lui(32, 0),
        lui(0, 1),
        jal(0, 1),
        jal(0, 0x100000),
        jalr(0, 0, 2048),
        branch(Test::Beq, 0, 0, 4096),
        load(LoadKind::Lw, 0, 32, 0),
        store(StoreKind::Sw, 0, 0, -2049),
        op_imm(ImmOp::Slli, 0, 0, 32),
        op_imm(ImmOp::Srai, 0, 0, -1),
        op(RegOp::Add, 0, 0, 32),
        fence(0, 0, 4096),
    ];
    for instr in instrs {
        assert!(rt; !fits(&instr), "{instr:?}");
    }
}

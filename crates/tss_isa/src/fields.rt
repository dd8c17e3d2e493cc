// The fields of a word and its immediates, by masks and shifts.
ghost use Rattle.std.specs.Prelude.{◌≡◌, ◌^◌, ◌<◌, ◌≤◌};
ghost use Rattle.tss_isa.specs.Fields.{field, opcode, rd, funct3, rs1, rs2, funct7, signed, imm_i, imm_s, imm_b, imm_u, imm_j};

/// Bits 6 to 0.
#[inline(always)]
pub fn opcode(word: u32) -> u32
    ensures { result ≡ opcode word }
{
    word & 0x7F
}

/// Bits 11 to 7.
#[inline(always)]
pub fn rd(word: u32) -> u8
    ensures { result ≡ rd word }
{
    ((word >> 7) & 0x1F) as u8
}

/// Bits 14 to 12.
#[inline(always)]
pub fn funct3(word: u32) -> u32
    ensures { result ≡ funct3 word }
{
    (word >> 12) & 0x7
}

/// Bits 19 to 15.
#[inline(always)]
pub fn rs1(word: u32) -> u8
    ensures { result ≡ rs1 word }
{
    ((word >> 15) & 0x1F) as u8
}

/// Bits 24 to 20.
#[inline(always)]
pub fn rs2(word: u32) -> u8
    ensures { result ≡ rs2 word }
{
    ((word >> 20) & 0x1F) as u8
}

/// Bits 31 to 25.
#[inline(always)]
pub fn funct7(word: u32) -> u32
    ensures { result ≡ funct7 word }
{
    word >> 25
}

/// Bits 31 to 20.
#[inline(always)]
pub fn high(word: u32) -> u32
    ensures { result ≡ field word 20 12 }
{
    word >> 20
}

/// The I immediate.
#[inline(always)]
pub fn imm_i(word: u32) -> i32
    ensures { result ≡ imm_i word }
{
    word.cast_signed() >> 20
}

/// The S immediate.
#[inline(always)]
pub fn imm_s(word: u32) -> i32
    ensures { result ≡ imm_s word }
{
    extended((funct7(word) << 5) + u32::from(rd(word)), 12)
}

/// The B immediate.
#[inline(always)]
pub fn imm_b(word: u32) -> i32
    ensures { result ≡ imm_b word }
{
    let sign = (word >> 31) << 12;
    let bit_11 = ((word >> 7) & 0x1) << 11;
    let bits_10_to_5 = ((word >> 25) & 0x3F) << 5;
    let bits_4_to_1 = ((word >> 8) & 0xF) << 1;
    extended(sign + bit_11 + bits_10_to_5 + bits_4_to_1, 13)
}

/// The U immediate.
#[inline(always)]
pub fn imm_u(word: u32) -> u32
    ensures { result ≡ imm_u word }
{
    word & 0xFFFF_F000
}

/// The J immediate.
#[inline(always)]
pub fn imm_j(word: u32) -> i32
    ensures { result ≡ imm_j word }
{
    let sign = (word >> 31) << 20;
    let bits_19_to_12 = ((word >> 12) & 0xFF) << 12;
    let bit_11 = ((word >> 20) & 0x1) << 11;
    let bits_10_to_1 = ((word >> 21) & 0x3FF) << 1;
    extended(sign + bits_19_to_12 + bit_11 + bits_10_to_1, 21)
}

/// The number that `count` bits are in two's complement.
#[inline(always)]
fn extended(n: u32, count: u32) -> i32
    requires some { 0 < count }
    requires word { count ≤ 32 }
    requires within { n < 2 ^ count }
    ensures { result ≡ signed count n }
{
    let unused = 32 - count;
    (n << unused).cast_signed() >> unused
}

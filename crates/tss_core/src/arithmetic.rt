// What operations and branches make of numbers of 32 bits.
ghost use Rattle.std.specs.Prelude.{◌≡◌, ◌^◌, ◌*◌, ◌*ℤ◌, ◌<◌, pos};
ghost use Rattle.std.specs.Int.{cast_signed, w32};
ghost use Rattle.tss_model.specs.Core.{one_where, signed_lt, upper_half, signed_quotient, quotient, signed_remainder, remainder, op_result, op_of, passes, load_width, store_width, extended};

use tss_isa::{ImmOp, LoadKind, RegOp, StoreKind, Test};

/// The result of an operation on two registers' values.
#[inline(always)]
pub(crate) fn op_result(op: RegOp, x: u32, y: u32) -> u32
    ensures { result ≡ op_result op x y }
{
    match op {
        RegOp::Add => x.wrapping_add(y),
        RegOp::Sub => x.wrapping_sub(y),
        RegOp::Sll => x << (y & 31),
        RegOp::Slt => one_where(signed_lt(x, y)),
        RegOp::Sltu => one_where(x < y),
        RegOp::Xor => x ^ y,
        RegOp::Srl => x >> (y & 31),
        RegOp::Sra => (x.cast_signed() >> (y & 31)).cast_unsigned(),
        RegOp::Or => x | y,
        RegOp::And => x & y,
        RegOp::Mul => x.wrapping_mul(y),
        RegOp::Mulh => signed_product(x, y),
        RegOp::Mulhsu => mixed_product(x, y),
        RegOp::Mulhu => ((u64::from(x) * u64::from(y)) >> 32) as u32,
        RegOp::Div => signed_quotient(x, y),
        RegOp::Divu => quotient(x, y),
        RegOp::Rem => signed_remainder(x, y),
        RegOp::Remu => remainder(x, y),
    }
}

/// The upper half of the product of two numbers in two's complement.
#[inline(always)]
fn signed_product(x: u32, y: u32) -> u32
    ensures { result ≡ upper_half (cast_signed w32 x *ℤ cast_signed w32 y) }
{
    upper_half(i64::from(x.cast_signed()) * i64::from(y.cast_signed()))
}

/// The upper half of the product of a number in two's complement and one without sign.
#[inline(always)]
fn mixed_product(x: u32, y: u32) -> u32
    ensures { result ≡ upper_half (cast_signed w32 x *ℤ pos y) }
{
    upper_half(i64::from(x.cast_signed()) * i64::from(y))
}

/// The upper 32 bits of a product.
#[inline(always)]
fn upper_half(product: i64) -> u32
    ensures { result ≡ upper_half product }
{
    ((product >> 32) as i32).cast_unsigned()
}

/// A quotient with sign, rounded towards zero: all ones where the divisor is zero. The least number by -1 is itself.
#[inline(always)]
fn signed_quotient(x: u32, y: u32) -> u32
    ensures { result ≡ signed_quotient x y }
{
    if y == 0 {
        u32::MAX
    } else {
        x.cast_signed()
            .wrapping_div(y.cast_signed())
            .cast_unsigned()
    }
}

/// A quotient without sign: all ones where the divisor is zero.
#[inline(always)]
fn quotient(x: u32, y: u32) -> u32
    ensures { result ≡ quotient x y }
{
    if y == 0 { u32::MAX } else { x / y }
}

/// What a quotient with sign leaves, with the sign of the dividend: the dividend where the divisor is zero.
#[inline(always)]
fn signed_remainder(x: u32, y: u32) -> u32
    ensures { result ≡ signed_remainder x y }
{
    if y == 0 {
        x
    } else {
        x.cast_signed()
            .wrapping_rem(y.cast_signed())
            .cast_unsigned()
    }
}

/// What a quotient without sign leaves: the dividend where the divisor is zero.
#[inline(always)]
fn remainder(x: u32, y: u32) -> u32
    ensures { result ≡ remainder x y }
{
    if y == 0 { x } else { x % y }
}

/// The operation that one with an immediate is.
#[inline(always)]
pub(crate) fn op_of(op: ImmOp) -> RegOp
    ensures { result ≡ op_of op }
{
    match op {
        ImmOp::Addi => RegOp::Add,
        ImmOp::Slli => RegOp::Sll,
        ImmOp::Slti => RegOp::Slt,
        ImmOp::Sltiu => RegOp::Sltu,
        ImmOp::Xori => RegOp::Xor,
        ImmOp::Srli => RegOp::Srl,
        ImmOp::Srai => RegOp::Sra,
        ImmOp::Ori => RegOp::Or,
        ImmOp::Andi => RegOp::And,
    }
}

/// Whether a branch is taken.
#[inline(always)]
pub(crate) fn passes(test: Test, x: u32, y: u32) -> bool
    ensures { result ≡ passes test x y }
{
    match test {
        Test::Beq => x == y,
        Test::Bne => x != y,
        Test::Blt => signed_lt(x, y),
        Test::Bge => !signed_lt(x, y),
        Test::Bltu => x < y,
        Test::Bgeu => x >= y,
    }
}

#[inline(always)]
fn one_where(holds: bool) -> u32
    ensures { result ≡ one_where holds }
{
    if holds { 1 } else { 0 }
}

/// Less, as numbers in two's complement.
#[inline(always)]
fn signed_lt(x: u32, y: u32) -> bool
    ensures { result ≡ signed_lt x y }
{
    x.cast_signed() < y.cast_signed()
}

/// How many bytes a load reads.
#[inline(always)]
pub(crate) fn load_width(kind: LoadKind) -> u32
    ensures { result ≡ load_width kind }
{
    match kind {
        LoadKind::Lb | LoadKind::Lbu => 1,
        LoadKind::Lh | LoadKind::Lhu => 2,
        LoadKind::Lw => 4,
    }
}

/// How many bytes a store writes.
#[inline(always)]
pub(crate) fn store_width(kind: StoreKind) -> u32
    ensures { result ≡ store_width kind }
{
    match kind {
        StoreKind::Sb => 1,
        StoreKind::Sh => 2,
        StoreKind::Sw => 4,
    }
}

/// What a load makes of the number in its bytes: it is extended by sign or by zeros.
#[inline(always)]
pub(crate) fn extended(kind: LoadKind, n: u32) -> u32
    requires { n < 256 ^ load_width kind }
    ensures { result ≡ extended kind n }
{
    match kind {
        LoadKind::Lb => ((n << 24).cast_signed() >> 24).cast_unsigned(),
        LoadKind::Lh => ((n << 16).cast_signed() >> 16).cast_unsigned(),
        LoadKind::Lw | LoadKind::Lbu | LoadKind::Lhu => n,
    }
}

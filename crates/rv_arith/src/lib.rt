//! What the instructions of RV32IM compute of two registers (RISC-V Instruction Set Manual, volume I, chapters "RV32I
//! Base Integer Instruction Set" and "M Extension for Integer Multiplication and Division").
#![tactic(auto)]

ghost use Rattle.std.specs.Prelude.{◌≡◌};
ghost use Rattle.rv_arith.specs.Arithmetic.{add, sub, sll, srl, sra, slt, sltu, mul, mulh, mulhsu, mulhu, div, divu, rem, remu};

/// The sum, modulo 2^32.
pub fn add(x: u32, y: u32) -> u32
    ensures { result ≡ add x y }
{
    x.wrapping_add(y)
}

/// The difference, modulo 2^32.
pub fn sub(x: u32, y: u32) -> u32
    ensures { result ≡ sub x y }
{
    x.wrapping_sub(y)
}

/// `x` shifted left by the low five bits of `y`.
pub fn sll(x: u32, y: u32) -> u32
    ensures { result ≡ sll x y }
{
    x << (y % 32)
}

/// `x` shifted right by the low five bits of `y`, with zeros.
pub fn srl(x: u32, y: u32) -> u32
    ensures { result ≡ srl x y }
{
    x >> (y % 32)
}

/// `x` shifted right by the low five bits of `y`, with its sign.
pub fn sra(x: u32, y: u32) -> u32
    ensures { result ≡ sra x y }
{
    (x.cast_signed() >> (y % 32)).cast_unsigned()
}

/// 1 where `x` is below `y`, both signed, else 0.
pub fn slt(x: u32, y: u32) -> u32
    ensures { result ≡ slt x y }
{
    u32::from(x.cast_signed() < y.cast_signed())
}

/// 1 where `x` is below `y`, else 0.
pub fn sltu(x: u32, y: u32) -> u32
    ensures { result ≡ sltu x y }
{
    u32::from(x < y)
}

/// The low half of the product.
pub fn mul(x: u32, y: u32) -> u32
    ensures { result ≡ mul x y }
{
    x.wrapping_mul(y)
}

/// The high half of the product, both signed.
pub fn mulh(x: u32, y: u32) -> u32
    ensures { result ≡ mulh x y }
{
    let product = i64::from(x.cast_signed()) * i64::from(y.cast_signed());
    ((product >> 32) as i32).cast_unsigned()
}

/// The high half of the product, `x` signed and `y` not.
pub fn mulhsu(x: u32, y: u32) -> u32
    ensures { result ≡ mulhsu x y }
{
    let product = i64::from(x.cast_signed()) * i64::from(y);
    ((product >> 32) as i32).cast_unsigned()
}

/// The high half of the product.
pub fn mulhu(x: u32, y: u32) -> u32
    ensures { result ≡ mulhu x y }
{
    (u64::from(x) * u64::from(y) >> 32) as u32
}

/// The quotient, both signed, toward zero. By zero it is all ones, and of the least number by -1 that number.
pub fn div(x: u32, y: u32) -> u32
    ensures { result ≡ div x y }
{
    if y == 0 {
        return u32::MAX;
    }
    x.cast_signed()
        .wrapping_div(y.cast_signed())
        .cast_unsigned()
}

/// The quotient. By zero it is all ones.
pub fn divu(x: u32, y: u32) -> u32
    ensures { result ≡ divu x y }
{
    if y == 0 { u32::MAX } else { x / y }
}

/// The remainder, both signed, with the sign of `x`. By zero it is `x`, and of the least number by -1 it is 0.
pub fn rem(x: u32, y: u32) -> u32
    ensures { result ≡ rem x y }
{
    if y == 0 {
        return x;
    }
    x.cast_signed()
        .wrapping_rem(y.cast_signed())
        .cast_unsigned()
}

/// The remainder. By zero it is `x`.
pub fn remu(x: u32, y: u32) -> u32
    ensures { result ≡ remu x y }
{
    if y == 0 { x } else { x % y }
}

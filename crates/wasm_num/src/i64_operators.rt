//! The operators of i64 (section 4.3.2), on numbers below 2 ^ 64.

ghost use Rattle.std.specs.Prelude.{◌≡◌, ◌+◌, ◌-◌, ◌*◌, ◌%◌, ◌^◌, nat_eq, nat_lt, nat_le, not, bit_and, bit_or, bit_xor, count_ones, int_lt, int_le};
ghost use Rattle.wasm_num.specs.Numbers.{signed, clz, ctz, extended, signed_quotient, quotient, signed_remainder, remainder, shifted_left, shifted_right, shifted_right_signed, rotated_left, rotated_right};

use crate::trap::Trap;

/// How many of the highest digits are 0; 64 for 0.
pub fn i64_clz(x: u64) -> u64
    ensures { result ≡ clz 64 x }
{
    u64::from(x.leading_zeros())
}

/// How many of the lowest digits are 0; 64 for 0.
pub fn i64_ctz(x: u64) -> u64
    ensures { result ≡ ctz 64 x }
{
    u64::from(x.trailing_zeros())
}

/// How many digits are 1.
pub fn i64_popcnt(x: u64) -> u64
    ensures { result ≡ count_ones x }
{
    u64::from(x.count_ones())
}

/// The sum, modulo 2 to the width.
pub fn i64_add(x: u64, y: u64) -> u64
    ensures { result ≡ (x + y) % 2 ^ 64 }
{
    x.wrapping_add(y)
}

/// The difference, modulo 2 to the width.
pub fn i64_sub(x: u64, y: u64) -> u64
    ensures { result ≡ (x + 2 ^ 64 - y) % 2 ^ 64 }
{
    x.wrapping_sub(y)
}

/// The product, modulo 2 to the width.
pub fn i64_mul(x: u64, y: u64) -> u64
    ensures { result ≡ (x * y) % 2 ^ 64 }
{
    x.wrapping_mul(y)
}

/// The quotient of the signed numbers, towards zero.
///
/// # Errors
///
/// `DivideByZero`, and `IntegerOverflow` for the least number by -1.
pub fn i64_div_s(x: u64, y: u64) -> Result<u64, Trap>
    ensures { result ≡ signed_quotient 64 x y }
{
    if y == 0 {
        return Err(Trap::DivideByZero);
    }
    if x == 0x8000_0000_0000_0000 && y == u64::MAX {
        return Err(Trap::IntegerOverflow);
    }
    Ok((x.cast_signed() / y.cast_signed()).cast_unsigned())
}

/// The quotient.
///
/// # Errors
///
/// `DivideByZero`.
pub fn i64_div_u(x: u64, y: u64) -> Result<u64, Trap>
    ensures { result ≡ quotient x y }
{
    if y == 0 {
        return Err(Trap::DivideByZero);
    }
    Ok(x / y)
}

/// The remainder of the signed numbers, with the sign of the first; 0 for the least number by -1.
///
/// # Errors
///
/// `DivideByZero`.
pub fn i64_rem_s(x: u64, y: u64) -> Result<u64, Trap>
    ensures { result ≡ signed_remainder 64 x y }
{
    if y == 0 {
        return Err(Trap::DivideByZero);
    }
    if y == u64::MAX {
        // by -1 nothing remains, also of the least number, whose quotient has no number
        return Ok(0);
    }
    Ok((x.cast_signed() % y.cast_signed()).cast_unsigned())
}

/// The remainder.
///
/// # Errors
///
/// `DivideByZero`.
pub fn i64_rem_u(x: u64, y: u64) -> Result<u64, Trap>
    ensures { result ≡ remainder x y }
{
    if y == 0 {
        return Err(Trap::DivideByZero);
    }
    Ok(x % y)
}

/// The digits that are 1 in both.
pub fn i64_and(x: u64, y: u64) -> u64
    ensures { result ≡ bit_and x y }
{
    x & y
}

/// The digits that are 1 in either.
pub fn i64_or(x: u64, y: u64) -> u64
    ensures { result ≡ bit_or x y }
{
    x | y
}

/// The digits that differ.
pub fn i64_xor(x: u64, y: u64) -> u64
    ensures { result ≡ bit_xor x y }
{
    x ^ y
}

/// The digits moved up, by a count modulo the width.
pub fn i64_shl(x: u64, y: u64) -> u64
    ensures { result ≡ shifted_left 64 x y }
{
    x << (y % 64)
}

/// The digits moved down, by a count modulo the width; the sign is repeated.
pub fn i64_shr_s(x: u64, y: u64) -> u64
    ensures { result ≡ shifted_right_signed 64 x y }
{
    (x.cast_signed() >> (y % 64)).cast_unsigned()
}

/// The digits moved down, by a count modulo the width.
pub fn i64_shr_u(x: u64, y: u64) -> u64
    ensures { result ≡ shifted_right 64 x y }
{
    x >> (y % 64)
}

/// The digits moved up and round, by a count modulo the width.
pub fn i64_rotl(x: u64, y: u64) -> u64
    ensures { result ≡ rotated_left 64 x y }
{
    x.rotate_left((y % 64) as u32)
}

/// The digits moved down and round, by a count modulo the width.
pub fn i64_rotr(x: u64, y: u64) -> u64
    ensures { result ≡ rotated_right 64 x y }
{
    x.rotate_right((y % 64) as u32)
}

/// Whether the number is 0.
pub fn i64_eqz(x: u64) -> bool
    ensures { result ≡ nat_eq x 0 }
{
    x == 0
}

/// Whether the numbers are equal.
pub fn i64_eq(x: u64, y: u64) -> bool
    ensures { result ≡ nat_eq x y }
{
    x == y
}

/// Whether the numbers differ.
pub fn i64_ne(x: u64, y: u64) -> bool
    ensures { result ≡ not (nat_eq x y) }
{
    x != y
}

/// Whether the first is less, read as signed.
pub fn i64_lt_s(x: u64, y: u64) -> bool
    ensures { result ≡ int_lt (signed 64 x) (signed 64 y) }
{
    x.cast_signed() < y.cast_signed()
}

/// Whether the first is less.
pub fn i64_lt_u(x: u64, y: u64) -> bool
    ensures { result ≡ nat_lt x y }
{
    x < y
}

/// Whether the first is greater, read as signed.
pub fn i64_gt_s(x: u64, y: u64) -> bool
    ensures { result ≡ int_lt (signed 64 y) (signed 64 x) }
{
    x.cast_signed() > y.cast_signed()
}

/// Whether the first is greater.
pub fn i64_gt_u(x: u64, y: u64) -> bool
    ensures { result ≡ nat_lt y x }
{
    x > y
}

/// Whether the first is less or equal, read as signed.
pub fn i64_le_s(x: u64, y: u64) -> bool
    ensures { result ≡ int_le (signed 64 x) (signed 64 y) }
{
    x.cast_signed() <= y.cast_signed()
}

/// Whether the first is less or equal.
pub fn i64_le_u(x: u64, y: u64) -> bool
    ensures { result ≡ nat_le x y }
{
    x <= y
}

/// Whether the first is greater or equal, read as signed.
pub fn i64_ge_s(x: u64, y: u64) -> bool
    ensures { result ≡ int_le (signed 64 y) (signed 64 x) }
{
    x.cast_signed() >= y.cast_signed()
}

/// Whether the first is greater or equal.
pub fn i64_ge_u(x: u64, y: u64) -> bool
    ensures { result ≡ nat_le y x }
{
    x >= y
}

/// The lowest 8 digits, read as signed.
pub fn i64_extend8_s(x: u64) -> u64
    ensures { result ≡ extended 8 64 x }
{
    i64::from(((x & 0xff) as u8).cast_signed()).cast_unsigned()
}

/// The lowest 16 digits, read as signed.
pub fn i64_extend16_s(x: u64) -> u64
    ensures { result ≡ extended 16 64 x }
{
    i64::from(((x & 0xffff) as u16).cast_signed()).cast_unsigned()
}

/// The lowest 32 digits, read as signed.
pub fn i64_extend32_s(x: u64) -> u64
    ensures { result ≡ extended 32 64 x }
{
    i64::from(((x & 0xffff_ffff) as u32).cast_signed()).cast_unsigned()
}

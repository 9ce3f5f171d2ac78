//! The operators of i32 (section 4.3.2), on numbers below 2 ^ 32.

ghost use Rattle.std.specs.Prelude.{◌≡◌, ◌+◌, ◌-◌, ◌*◌, ◌%◌, ◌^◌, nat_eq, nat_lt, nat_le, not, bit_and, bit_or, bit_xor, count_ones, int_lt, int_le};
ghost use Rattle.wasm_num.specs.Numbers.{signed, clz, ctz, extended, signed_quotient, quotient, signed_remainder, remainder, shifted_left, shifted_right, shifted_right_signed, rotated_left, rotated_right};

use crate::trap::Trap;

/// How many of the highest digits are 0; 32 for 0.
pub fn i32_clz(x: u32) -> u32
    ensures { result ≡ clz 32 x }
{
    x.leading_zeros()
}

/// How many of the lowest digits are 0; 32 for 0.
pub fn i32_ctz(x: u32) -> u32
    ensures { result ≡ ctz 32 x }
{
    x.trailing_zeros()
}

/// How many digits are 1.
pub fn i32_popcnt(x: u32) -> u32
    ensures { result ≡ count_ones x }
{
    x.count_ones()
}

/// The sum, modulo 2 to the width.
pub fn i32_add(x: u32, y: u32) -> u32
    ensures { result ≡ (x + y) % 2 ^ 32 }
{
    x.wrapping_add(y)
}

/// The difference, modulo 2 to the width.
pub fn i32_sub(x: u32, y: u32) -> u32
    ensures { result ≡ (x + 2 ^ 32 - y) % 2 ^ 32 }
{
    x.wrapping_sub(y)
}

/// The product, modulo 2 to the width.
pub fn i32_mul(x: u32, y: u32) -> u32
    ensures { result ≡ (x * y) % 2 ^ 32 }
{
    x.wrapping_mul(y)
}

/// The quotient of the signed numbers, towards zero.
///
/// # Errors
///
/// `DivideByZero`, and `IntegerOverflow` for the least number by -1.
pub fn i32_div_s(x: u32, y: u32) -> Result<u32, Trap>
    ensures { result ≡ signed_quotient 32 x y }
{
    if y == 0 {
        return Err(Trap::DivideByZero);
    }
    if x == 0x8000_0000 && y == u32::MAX {
        return Err(Trap::IntegerOverflow);
    }
    Ok((x.cast_signed() / y.cast_signed()).cast_unsigned())
}

/// The quotient.
///
/// # Errors
///
/// `DivideByZero`.
pub fn i32_div_u(x: u32, y: u32) -> Result<u32, Trap>
    ensures { result ≡ quotient x y }
{
    if y == 0 {
        return Err(Trap::DivideByZero);
    }
    Ok(x / y)
}

/// The remainder of the signed numbers, with the sign of the first; 0 for the least number by -1.
///
/// # Errors
///
/// `DivideByZero`.
pub fn i32_rem_s(x: u32, y: u32) -> Result<u32, Trap>
    ensures { result ≡ signed_remainder 32 x y }
{
    if y == 0 {
        return Err(Trap::DivideByZero);
    }
    if y == u32::MAX {
        // by -1 nothing remains, also of the least number, whose quotient has no number
        return Ok(0);
    }
    Ok((x.cast_signed() % y.cast_signed()).cast_unsigned())
}

/// The remainder.
///
/// # Errors
///
/// `DivideByZero`.
pub fn i32_rem_u(x: u32, y: u32) -> Result<u32, Trap>
    ensures { result ≡ remainder x y }
{
    if y == 0 {
        return Err(Trap::DivideByZero);
    }
    Ok(x % y)
}

/// The digits that are 1 in both.
pub fn i32_and(x: u32, y: u32) -> u32
    ensures { result ≡ bit_and x y }
{
    x & y
}

/// The digits that are 1 in either.
pub fn i32_or(x: u32, y: u32) -> u32
    ensures { result ≡ bit_or x y }
{
    x | y
}

/// The digits that differ.
pub fn i32_xor(x: u32, y: u32) -> u32
    ensures { result ≡ bit_xor x y }
{
    x ^ y
}

/// The digits moved up, by a count modulo the width.
pub fn i32_shl(x: u32, y: u32) -> u32
    ensures { result ≡ shifted_left 32 x y }
{
    x << (y % 32)
}

/// The digits moved down, by a count modulo the width; the sign is repeated.
pub fn i32_shr_s(x: u32, y: u32) -> u32
    ensures { result ≡ shifted_right_signed 32 x y }
{
    (x.cast_signed() >> (y % 32)).cast_unsigned()
}

/// The digits moved down, by a count modulo the width.
pub fn i32_shr_u(x: u32, y: u32) -> u32
    ensures { result ≡ shifted_right 32 x y }
{
    x >> (y % 32)
}

/// The digits moved up and round, by a count modulo the width.
pub fn i32_rotl(x: u32, y: u32) -> u32
    ensures { result ≡ rotated_left 32 x y }
{
    x.rotate_left(y)
}

/// The digits moved down and round, by a count modulo the width.
pub fn i32_rotr(x: u32, y: u32) -> u32
    ensures { result ≡ rotated_right 32 x y }
{
    x.rotate_right(y)
}

/// Whether the number is 0.
pub fn i32_eqz(x: u32) -> bool
    ensures { result ≡ nat_eq x 0 }
{
    x == 0
}

/// Whether the numbers are equal.
pub fn i32_eq(x: u32, y: u32) -> bool
    ensures { result ≡ nat_eq x y }
{
    x == y
}

/// Whether the numbers differ.
pub fn i32_ne(x: u32, y: u32) -> bool
    ensures { result ≡ not (nat_eq x y) }
{
    x != y
}

/// Whether the first is less, read as signed.
pub fn i32_lt_s(x: u32, y: u32) -> bool
    ensures { result ≡ int_lt (signed 32 x) (signed 32 y) }
{
    x.cast_signed() < y.cast_signed()
}

/// Whether the first is less.
pub fn i32_lt_u(x: u32, y: u32) -> bool
    ensures { result ≡ nat_lt x y }
{
    x < y
}

/// Whether the first is greater, read as signed.
pub fn i32_gt_s(x: u32, y: u32) -> bool
    ensures { result ≡ int_lt (signed 32 y) (signed 32 x) }
{
    x.cast_signed() > y.cast_signed()
}

/// Whether the first is greater.
pub fn i32_gt_u(x: u32, y: u32) -> bool
    ensures { result ≡ nat_lt y x }
{
    x > y
}

/// Whether the first is less or equal, read as signed.
pub fn i32_le_s(x: u32, y: u32) -> bool
    ensures { result ≡ int_le (signed 32 x) (signed 32 y) }
{
    x.cast_signed() <= y.cast_signed()
}

/// Whether the first is less or equal.
pub fn i32_le_u(x: u32, y: u32) -> bool
    ensures { result ≡ nat_le x y }
{
    x <= y
}

/// Whether the first is greater or equal, read as signed.
pub fn i32_ge_s(x: u32, y: u32) -> bool
    ensures { result ≡ int_le (signed 32 y) (signed 32 x) }
{
    x.cast_signed() >= y.cast_signed()
}

/// Whether the first is greater or equal.
pub fn i32_ge_u(x: u32, y: u32) -> bool
    ensures { result ≡ nat_le y x }
{
    x >= y
}

/// The lowest 8 digits, read as signed.
pub fn i32_extend8_s(x: u32) -> u32
    ensures { result ≡ extended 8 32 x }
{
    i32::from(((x & 0xff) as u8).cast_signed()).cast_unsigned()
}

/// The lowest 16 digits, read as signed.
pub fn i32_extend16_s(x: u32) -> u32
    ensures { result ≡ extended 16 32 x }
{
    i32::from(((x & 0xffff) as u16).cast_signed()).cast_unsigned()
}

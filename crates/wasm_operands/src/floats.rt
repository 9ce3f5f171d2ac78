//! The operators on floats that an instruction names, each over the bits of its operands.

ghost use Rattle.std.specs.Prelude.{◌≡◌, ◌<◌, ◌^◌, IfOk, from_bits};
ghost use Rattle.std.specs.Float.Ieee.{binary32, binary64};
ghost use Rattle.wasm_float.specs.Floats.{test};
ghost use Rattle.wasm_syntax.specs.ValueTypes.{float, integer};
ghost use Rattle.wasm_steps.specs.Operators.{width};
ghost use Rattle.wasm_steps.specs.FloatOperators.{converted, float_binary, float_test, float_unary, format, saturated, whole_part, untruncated};

use wasm_float::{
    Untruncated, f32_abs, f32_add, f32_ceil, f32_convert_i32_s, f32_convert_i32_u,
    f32_convert_i64_s, f32_convert_i64_u, f32_copysign, f32_div, f32_eq, f32_floor, f32_ge, f32_gt,
    f32_le, f32_lt, f32_max, f32_min, f32_mul, f32_ne, f32_nearest, f32_neg, f32_sqrt, f32_sub,
    f32_trunc, f64_abs, f64_add, f64_ceil, f64_convert_i32_s, f64_convert_i32_u, f64_convert_i64_s,
    f64_convert_i64_u, f64_copysign, f64_div, f64_eq, f64_floor, f64_ge, f64_gt, f64_le, f64_lt,
    f64_max, f64_min, f64_mul, f64_ne, f64_nearest, f64_neg, f64_sqrt, f64_sub, f64_trunc,
    i32_trunc_f32_s, i32_trunc_f32_u, i32_trunc_f64_s, i32_trunc_f64_u, i32_trunc_sat_f32_s,
    i32_trunc_sat_f32_u, i32_trunc_sat_f64_s, i32_trunc_sat_f64_u, i64_trunc_f32_s,
    i64_trunc_f32_u, i64_trunc_f64_s, i64_trunc_f64_u, i64_trunc_sat_f32_s, i64_trunc_sat_f32_u,
    i64_trunc_sat_f64_s, i64_trunc_sat_f64_u,
};
use wasm_module::{
    FloatBinaryOperator, FloatComparison, FloatType, FloatUnaryOperator, IntegerType, Sign,
};
use wasm_num::Trap;

/// Whether a comparison of this type holds.
pub fn compare(of: FloatType, comparison: FloatComparison, x: u64, y: u64) -> bool
    requires first { x < 2 ^ width (float of) }
    requires second { y < 2 ^ width (float of) }
    ensures { result ≡ test (format of) (float_test comparison) x y }
{
    match of {
        FloatType::F32 => compare_32(comparison, x as u32, y as u32),
        FloatType::F64 => compare_64(comparison, x, y),
    }
}

/// Whether a comparison of f32 holds.
fn compare_32(comparison: FloatComparison, x: u32, y: u32) -> bool
    ensures { result ≡ test binary32 (float_test comparison) x y }
{
    match comparison {
        FloatComparison::Eq => f32_eq(x, y),
        FloatComparison::Ne => f32_ne(x, y),
        FloatComparison::Lt => f32_lt(x, y),
        FloatComparison::Gt => f32_gt(x, y),
        FloatComparison::Le => f32_le(x, y),
        FloatComparison::Ge => f32_ge(x, y),
    }
}

/// Whether a comparison of f64 holds.
fn compare_64(comparison: FloatComparison, x: u64, y: u64) -> bool
    ensures { result ≡ test binary64 (float_test comparison) x y }
{
    match comparison {
        FloatComparison::Eq => f64_eq(x, y),
        FloatComparison::Ne => f64_ne(x, y),
        FloatComparison::Lt => f64_lt(x, y),
        FloatComparison::Gt => f64_gt(x, y),
        FloatComparison::Le => f64_le(x, y),
        FloatComparison::Ge => f64_ge(x, y),
    }
}

/// What an operator of this type makes of one float.
pub fn unary(of: FloatType, operator: FloatUnaryOperator, x: u64) -> u64
    requires number { x < 2 ^ width (float of) }
    ensures number { result ≡ float_unary (format of) operator x }
    ensures fits { result < 2 ^ width (float of) }
{
    match of {
        FloatType::F32 => u64::from(unary_32(operator, x as u32)),
        FloatType::F64 => unary_64(operator, x),
    }
}

/// What an operator of f32 makes of one.
fn unary_32(operator: FloatUnaryOperator, x: u32) -> u32
    ensures { result ≡ float_unary binary32 operator x }
{
    match operator {
        FloatUnaryOperator::Abs => f32_abs(x),
        FloatUnaryOperator::Neg => f32_neg(x),
        FloatUnaryOperator::Ceil => f32_ceil(x),
        FloatUnaryOperator::Floor => f32_floor(x),
        FloatUnaryOperator::Trunc => f32_trunc(x),
        FloatUnaryOperator::Nearest => f32_nearest(x),
        FloatUnaryOperator::Sqrt => f32_sqrt(x),
    }
}

/// What an operator of f64 makes of one.
fn unary_64(operator: FloatUnaryOperator, x: u64) -> u64
    ensures { result ≡ float_unary binary64 operator x }
{
    match operator {
        FloatUnaryOperator::Abs => f64_abs(x),
        FloatUnaryOperator::Neg => f64_neg(x),
        FloatUnaryOperator::Ceil => f64_ceil(x),
        FloatUnaryOperator::Floor => f64_floor(x),
        FloatUnaryOperator::Trunc => f64_trunc(x),
        FloatUnaryOperator::Nearest => f64_nearest(x),
        FloatUnaryOperator::Sqrt => f64_sqrt(x),
    }
}

/// What an operator of this type makes of two floats.
pub fn binary(of: FloatType, operator: FloatBinaryOperator, x: u64, y: u64) -> u64
    requires first { x < 2 ^ width (float of) }
    requires second { y < 2 ^ width (float of) }
    ensures number { result ≡ float_binary (format of) operator x y }
    ensures fits { result < 2 ^ width (float of) }
{
    match of {
        FloatType::F32 => u64::from(binary_32(operator, x as u32, y as u32)),
        FloatType::F64 => binary_64(operator, x, y),
    }
}

/// What an operator of f32 makes of two.
fn binary_32(operator: FloatBinaryOperator, x: u32, y: u32) -> u32
    ensures { result ≡ float_binary binary32 operator x y }
{
    match operator {
        FloatBinaryOperator::Add => f32_add(x, y),
        FloatBinaryOperator::Sub => f32_sub(x, y),
        FloatBinaryOperator::Mul => f32_mul(x, y),
        FloatBinaryOperator::Div => f32_div(x, y),
        FloatBinaryOperator::Min => f32_min(x, y),
        FloatBinaryOperator::Max => f32_max(x, y),
        FloatBinaryOperator::Copysign => f32_copysign(x, y),
    }
}

/// What an operator of f64 makes of two.
fn binary_64(operator: FloatBinaryOperator, x: u64, y: u64) -> u64
    ensures { result ≡ float_binary binary64 operator x y }
{
    match operator {
        FloatBinaryOperator::Add => f64_add(x, y),
        FloatBinaryOperator::Sub => f64_sub(x, y),
        FloatBinaryOperator::Mul => f64_mul(x, y),
        FloatBinaryOperator::Div => f64_div(x, y),
        FloatBinaryOperator::Min => f64_min(x, y),
        FloatBinaryOperator::Max => f64_max(x, y),
        FloatBinaryOperator::Copysign => f64_copysign(x, y),
    }
}

/// Why a conversion to integers traps.
fn trap_of(reason: Untruncated) -> Trap
    ensures { result ≡ untruncated reason }
{
    match reason {
        Untruncated::NotANumber => Trap::InvalidConversion,
        Untruncated::OutOfRange => Trap::IntegerOverflow,
    }
}

/// The whole part of an f32 as an i32, which it has to be.
fn whole_32_of_32(sign: Sign, x: u32) -> Result<u32, Trap>
    ensures { result ≡ whole_part 32 sign (from_bits binary32 x) }
{
    match sign {
        Sign::Unsigned => match i32_trunc_f32_u(x) {
            Ok(whole) => Ok(whole),
            Err(reason) => Err(trap_of(reason)),
        },
        Sign::Signed => match i32_trunc_f32_s(x) {
            Ok(whole) => Ok(whole.cast_unsigned()),
            Err(reason) => Err(trap_of(reason)),
        },
    }
}

/// The whole part of an f64 as an i32, which it has to be.
fn whole_32_of_64(sign: Sign, x: u64) -> Result<u32, Trap>
    ensures { result ≡ whole_part 32 sign (from_bits binary64 x) }
{
    match sign {
        Sign::Unsigned => match i32_trunc_f64_u(x) {
            Ok(whole) => Ok(whole),
            Err(reason) => Err(trap_of(reason)),
        },
        Sign::Signed => match i32_trunc_f64_s(x) {
            Ok(whole) => Ok(whole.cast_unsigned()),
            Err(reason) => Err(trap_of(reason)),
        },
    }
}

/// The whole part of an f32 as an i64, which it has to be.
fn whole_64_of_32(sign: Sign, x: u32) -> Result<u64, Trap>
    ensures { result ≡ whole_part 64 sign (from_bits binary32 x) }
{
    match sign {
        Sign::Unsigned => match i64_trunc_f32_u(x) {
            Ok(whole) => Ok(whole),
            Err(reason) => Err(trap_of(reason)),
        },
        Sign::Signed => match i64_trunc_f32_s(x) {
            Ok(whole) => Ok(whole.cast_unsigned()),
            Err(reason) => Err(trap_of(reason)),
        },
    }
}

/// The whole part of an f64 as an i64, which it has to be.
fn whole_64_of_64(sign: Sign, x: u64) -> Result<u64, Trap>
    ensures { result ≡ whole_part 64 sign (from_bits binary64 x) }
{
    match sign {
        Sign::Unsigned => match i64_trunc_f64_u(x) {
            Ok(whole) => Ok(whole),
            Err(reason) => Err(trap_of(reason)),
        },
        Sign::Signed => match i64_trunc_f64_s(x) {
            Ok(whole) => Ok(whole.cast_unsigned()),
            Err(reason) => Err(trap_of(reason)),
        },
    }
}

/// The whole part of a float as an integer of this type.
///
/// # Errors
///
/// `InvalidConversion` for a NaN, `IntegerOverflow` where the type has no such integer.
pub fn whole_part(to: IntegerType, of: FloatType, sign: Sign, x: u64) -> Result<u64, Trap>
    requires { x < 2 ^ width (float of) }
    ensures number { result ≡ whole_part (width (integer to)) sign (from_bits (format of) x) }
    ensures fits { IfOk result (λ r. r < 2 ^ width (integer to)) }
{
    match (to, of) {
        (IntegerType::I32, FloatType::F32) => Ok(u64::from(whole_32_of_32(sign, x as u32)?)),
        (IntegerType::I32, FloatType::F64) => Ok(u64::from(whole_32_of_64(sign, x)?)),
        (IntegerType::I64, FloatType::F32) => whole_64_of_32(sign, x as u32),
        (IntegerType::I64, FloatType::F64) => whole_64_of_64(sign, x),
    }
}

/// The whole part of a float as an i32, or the i32 that is nearest to it.
fn saturated_32(of: FloatType, sign: Sign, x: u64) -> u32
    requires { x < 2 ^ width (float of) }
    ensures { result ≡ saturated 32 sign (from_bits (format of) x) }
{
    match (of, sign) {
        (FloatType::F32, Sign::Unsigned) => i32_trunc_sat_f32_u(x as u32),
        (FloatType::F32, Sign::Signed) => i32_trunc_sat_f32_s(x as u32).cast_unsigned(),
        (FloatType::F64, Sign::Unsigned) => i32_trunc_sat_f64_u(x),
        (FloatType::F64, Sign::Signed) => i32_trunc_sat_f64_s(x).cast_unsigned(),
    }
}

/// The whole part of a float as an i64, or the i64 that is nearest to it.
fn saturated_64(of: FloatType, sign: Sign, x: u64) -> u64
    requires { x < 2 ^ width (float of) }
    ensures { result ≡ saturated 64 sign (from_bits (format of) x) }
{
    match (of, sign) {
        (FloatType::F32, Sign::Unsigned) => i64_trunc_sat_f32_u(x as u32),
        (FloatType::F32, Sign::Signed) => i64_trunc_sat_f32_s(x as u32).cast_unsigned(),
        (FloatType::F64, Sign::Unsigned) => i64_trunc_sat_f64_u(x),
        (FloatType::F64, Sign::Signed) => i64_trunc_sat_f64_s(x).cast_unsigned(),
    }
}

/// The whole part of a float as an integer of this type, or the integer that is nearest to it.
pub fn saturate(to: IntegerType, of: FloatType, sign: Sign, x: u64) -> u64
    requires { x < 2 ^ width (float of) }
    ensures number { result ≡ saturated (width (integer to)) sign (from_bits (format of) x) }
    ensures fits { result < 2 ^ width (integer to) }
{
    match to {
        IntegerType::I32 => u64::from(saturated_32(of, sign, x)),
        IntegerType::I64 => saturated_64(of, sign, x),
    }
}

/// The f32 that is nearest to an integer.
fn converted_32(of: IntegerType, sign: Sign, x: u64) -> u32
    requires { x < 2 ^ width (integer of) }
    ensures { result ≡ converted binary32 (width (integer of)) sign x }
{
    match (of, sign) {
        (IntegerType::I32, Sign::Unsigned) => f32_convert_i32_u(x as u32),
        (IntegerType::I32, Sign::Signed) => f32_convert_i32_s((x as u32).cast_signed()),
        (IntegerType::I64, Sign::Unsigned) => f32_convert_i64_u(x),
        (IntegerType::I64, Sign::Signed) => f32_convert_i64_s(x.cast_signed()),
    }
}

/// The f64 that is nearest to an integer.
fn converted_64(of: IntegerType, sign: Sign, x: u64) -> u64
    requires { x < 2 ^ width (integer of) }
    ensures { result ≡ converted binary64 (width (integer of)) sign x }
{
    match (of, sign) {
        (IntegerType::I32, Sign::Unsigned) => f64_convert_i32_u(x as u32),
        (IntegerType::I32, Sign::Signed) => f64_convert_i32_s((x as u32).cast_signed()),
        (IntegerType::I64, Sign::Unsigned) => f64_convert_i64_u(x),
        (IntegerType::I64, Sign::Signed) => f64_convert_i64_s(x.cast_signed()),
    }
}

/// The float of this type that is nearest to an integer.
pub fn convert(to: FloatType, of: IntegerType, sign: Sign, x: u64) -> u64
    requires { x < 2 ^ width (integer of) }
    ensures number { result ≡ converted (format to) (width (integer of)) sign x }
    ensures fits { result < 2 ^ width (float to) }
{
    match to {
        FloatType::F32 => u64::from(converted_32(of, sign, x)),
        FloatType::F64 => converted_64(of, sign, x),
    }
}

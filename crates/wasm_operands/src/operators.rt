//! The operators that an instruction names, each over the numbers of its type.

ghost use Rattle.std.specs.Prelude.{◌≡◌, ◌<◌, ◌^◌, IfOk};
ghost use Rattle.wasm_syntax.specs.ValueTypes.{integer};
ghost use Rattle.wasm_valid.specs.Typing.{IsOperator};
ghost use Rattle.wasm_steps.specs.Operators.{width, compare_test, unary_number, binary_number};

use wasm_module::{BinaryOperator, Comparison, IntegerType, UnaryOperator};
use wasm_num::{
    Trap, i32_add, i32_and, i32_clz, i32_ctz, i32_div_s, i32_div_u, i32_eq, i32_extend8_s,
    i32_extend16_s, i32_ge_s, i32_ge_u, i32_gt_s, i32_gt_u, i32_le_s, i32_le_u, i32_lt_s, i32_lt_u,
    i32_mul, i32_ne, i32_or, i32_popcnt, i32_rem_s, i32_rem_u, i32_rotl, i32_rotr, i32_shl,
    i32_shr_s, i32_shr_u, i32_sub, i32_xor, i64_add, i64_and, i64_clz, i64_ctz, i64_div_s,
    i64_div_u, i64_eq, i64_extend8_s, i64_extend16_s, i64_extend32_s, i64_ge_s, i64_ge_u, i64_gt_s,
    i64_gt_u, i64_le_s, i64_le_u, i64_lt_s, i64_lt_u, i64_mul, i64_ne, i64_or, i64_popcnt,
    i64_rem_s, i64_rem_u, i64_rotl, i64_rotr, i64_shl, i64_shr_s, i64_shr_u, i64_sub, i64_xor,
};

/// What an operator of this type makes of two numbers.
pub fn binary(
    integer_type: IntegerType,
    operator: BinaryOperator,
    x: u64,
    y: u64,
) -> Result<u64, Trap>
    requires first { x < 2 ^ width (integer integer_type) }
    requires second { y < 2 ^ width (integer integer_type) }
    ensures number { result ≡ binary_number (width (integer integer_type)) operator x y }
    ensures fits { IfOk result (λ r. r < 2 ^ width (integer integer_type)) }
{
    match integer_type {
        IntegerType::I32 => match binary_32(operator, x as u32, y as u32) {
            Ok(result) => Ok(u64::from(result)),
            Err(trap) => Err(trap),
        },
        IntegerType::I64 => binary_64(operator, x, y),
    }
}

/// What an operator of i32 makes of two numbers.
fn binary_32(operator: BinaryOperator, x: u32, y: u32) -> Result<u32, Trap>
    ensures { result ≡ binary_number 32 operator x y }
{
    match operator {
        BinaryOperator::Add => Ok(i32_add(x, y)),
        BinaryOperator::Sub => Ok(i32_sub(x, y)),
        BinaryOperator::Mul => Ok(i32_mul(x, y)),
        BinaryOperator::DivS => i32_div_s(x, y),
        BinaryOperator::DivU => i32_div_u(x, y),
        BinaryOperator::RemS => i32_rem_s(x, y),
        BinaryOperator::RemU => i32_rem_u(x, y),
        BinaryOperator::And => Ok(i32_and(x, y)),
        BinaryOperator::Or => Ok(i32_or(x, y)),
        BinaryOperator::Xor => Ok(i32_xor(x, y)),
        BinaryOperator::Shl => Ok(i32_shl(x, y)),
        BinaryOperator::ShrS => Ok(i32_shr_s(x, y)),
        BinaryOperator::ShrU => Ok(i32_shr_u(x, y)),
        BinaryOperator::Rotl => Ok(i32_rotl(x, y)),
        BinaryOperator::Rotr => Ok(i32_rotr(x, y)),
    }
}

/// What an operator of i64 makes of two numbers.
fn binary_64(operator: BinaryOperator, x: u64, y: u64) -> Result<u64, Trap>
    ensures { result ≡ binary_number 64 operator x y }
{
    match operator {
        BinaryOperator::Add => Ok(i64_add(x, y)),
        BinaryOperator::Sub => Ok(i64_sub(x, y)),
        BinaryOperator::Mul => Ok(i64_mul(x, y)),
        BinaryOperator::DivS => i64_div_s(x, y),
        BinaryOperator::DivU => i64_div_u(x, y),
        BinaryOperator::RemS => i64_rem_s(x, y),
        BinaryOperator::RemU => i64_rem_u(x, y),
        BinaryOperator::And => Ok(i64_and(x, y)),
        BinaryOperator::Or => Ok(i64_or(x, y)),
        BinaryOperator::Xor => Ok(i64_xor(x, y)),
        BinaryOperator::Shl => Ok(i64_shl(x, y)),
        BinaryOperator::ShrS => Ok(i64_shr_s(x, y)),
        BinaryOperator::ShrU => Ok(i64_shr_u(x, y)),
        BinaryOperator::Rotl => Ok(i64_rotl(x, y)),
        BinaryOperator::Rotr => Ok(i64_rotr(x, y)),
    }
}

/// What an operator of this type makes of a number.
pub fn unary(integer_type: IntegerType, operator: UnaryOperator, x: u64) -> u64
    requires there { IsOperator integer_type operator }
    requires number { x < 2 ^ width (integer integer_type) }
    ensures number { result ≡ unary_number (width (integer integer_type)) operator x }
    ensures fits { result < 2 ^ width (integer integer_type) }
{
    match integer_type {
        IntegerType::I32 => u64::from(unary_32(operator, x as u32)),
        IntegerType::I64 => unary_64(operator, x),
    }
}

/// What an operator of i32 makes of a number.
fn unary_32(operator: UnaryOperator, x: u32) -> u32
    requires { IsOperator IntegerType.I32 operator }
    ensures { result ≡ unary_number 32 operator x }
{
    match operator {
        UnaryOperator::Clz => i32_clz(x),
        UnaryOperator::Ctz => i32_ctz(x),
        UnaryOperator::Popcnt => i32_popcnt(x),
        UnaryOperator::Extend8S => i32_extend8_s(x),
        UnaryOperator::Extend16S => i32_extend16_s(x),
        UnaryOperator::Extend32S => unreachable!(),
    }
}

/// What an operator of i64 makes of a number.
fn unary_64(operator: UnaryOperator, x: u64) -> u64
    ensures { result ≡ unary_number 64 operator x }
{
    match operator {
        UnaryOperator::Clz => i64_clz(x),
        UnaryOperator::Ctz => i64_ctz(x),
        UnaryOperator::Popcnt => i64_popcnt(x),
        UnaryOperator::Extend8S => i64_extend8_s(x),
        UnaryOperator::Extend16S => i64_extend16_s(x),
        UnaryOperator::Extend32S => i64_extend32_s(x),
    }
}

/// Whether a comparison of this type holds.
pub fn compare(integer_type: IntegerType, comparison: Comparison, x: u64, y: u64) -> bool
    requires first { x < 2 ^ width (integer integer_type) }
    requires second { y < 2 ^ width (integer integer_type) }
    ensures { result ≡ compare_test (width (integer integer_type)) comparison x y }
{
    match integer_type {
        IntegerType::I32 => compare_32(comparison, x as u32, y as u32),
        IntegerType::I64 => compare_64(comparison, x, y),
    }
}

/// Whether a comparison of i32 holds.
fn compare_32(comparison: Comparison, x: u32, y: u32) -> bool
    ensures { result ≡ compare_test 32 comparison x y }
{
    match comparison {
        Comparison::Eq => i32_eq(x, y),
        Comparison::Ne => i32_ne(x, y),
        Comparison::LtS => i32_lt_s(x, y),
        Comparison::LtU => i32_lt_u(x, y),
        Comparison::GtS => i32_gt_s(x, y),
        Comparison::GtU => i32_gt_u(x, y),
        Comparison::LeS => i32_le_s(x, y),
        Comparison::LeU => i32_le_u(x, y),
        Comparison::GeS => i32_ge_s(x, y),
        Comparison::GeU => i32_ge_u(x, y),
    }
}

/// Whether a comparison of i64 holds.
fn compare_64(comparison: Comparison, x: u64, y: u64) -> bool
    ensures { result ≡ compare_test 64 comparison x y }
{
    match comparison {
        Comparison::Eq => i64_eq(x, y),
        Comparison::Ne => i64_ne(x, y),
        Comparison::LtS => i64_lt_s(x, y),
        Comparison::LtU => i64_lt_u(x, y),
        Comparison::GtS => i64_gt_s(x, y),
        Comparison::GtU => i64_gt_u(x, y),
        Comparison::LeS => i64_le_s(x, y),
        Comparison::LeU => i64_le_u(x, y),
        Comparison::GeS => i64_ge_s(x, y),
        Comparison::GeU => i64_ge_u(x, y),
    }
}

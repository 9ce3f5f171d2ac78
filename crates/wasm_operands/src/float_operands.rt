//! Operators on floats, with their operands on top.

ghost use Rattle.std.specs.Prelude.{◌≡◌, ℕ, ◌<◌, ◌^◌, length, reverse, slice_index, vec_capacity, OnOk, IfOk, IfErr, Ok, Err};
ghost use Rattle.wasm_valid.specs.Arities.{float_takes, float_gives};
ghost use Rattle.wasm_steps.specs.Operators.{width};
ghost use Rattle.wasm_steps.specs.FloatOperators.{float_binary, float_number, float_test, format};
ghost use Rattle.wasm_num.specs.Numbers.{bool_number};
ghost use Rattle.wasm_float.specs.Floats.{test};
ghost use Rattle.wasm_syntax.specs.ValueTypes.{float};
ghost use Rattle.wasm_operands.specs.internal.Plain.Performing.{AreOnTop, Gives, HasTwo};

use crate::floats::{binary, compare, convert, saturate, unary, whole_part};
use crate::operands::{flag, operand, replace};
use wasm_float::{f32_demote_f64, f64_promote_f32};
use wasm_module::{FloatBinaryOperator, FloatComparison, FloatOperator, FloatType};
use wasm_num::Trap;

/// How many operands an operator takes.
fn taken(operator: FloatOperator) -> usize
    ensures { result ≡ length (float_takes operator) }
{
    match operator {
        FloatOperator::Compare(_, _) | FloatOperator::Binary(_, _) => 2,
        FloatOperator::Unary(_, _)
        | FloatOperator::Truncate(_, _, _)
        | FloatOperator::Saturate(_, _, _)
        | FloatOperator::Convert(_, _, _)
        | FloatOperator::Demote
        | FloatOperator::Promote
        | FloatOperator::ToBits(_)
        | FloatOperator::FromBits(_) => 1,
    }
}

/// Whether a comparison of the two numbers on top holds, as 1 or 0.
fn compared(values: &[u64], of: FloatType, comparison: FloatComparison) -> u64
    requires { HasTwo (float of) (reverse values.now) }
    ensures number { result ≡ bool_number (test (format of) (float_test comparison)
        (slice_index (reverse values.now) 1) (slice_index (reverse values.now) 0)) }
    ensures fits { result < 2 ^ 32 }
{
    let second = operand(values, 0);
    let first = operand(values, 1);
    flag(compare(of, comparison, first, second))
}

/// What an operator makes of the two numbers on top.
fn joined(values: &[u64], of: FloatType, operator: FloatBinaryOperator) -> u64
    requires { HasTwo (float of) (reverse values.now) }
    ensures number { result ≡ float_binary (format of) operator (slice_index (reverse values.now) 1)
        (slice_index (reverse values.now) 0) }
    ensures fits { result < 2 ^ width (float of) }
{
    let second = operand(values, 0);
    let first = operand(values, 1);
    binary(of, operator, first, second)
}

/// What an operator makes of two numbers on top, or of the one.
fn made(values: &[u64], operator: FloatOperator) -> Result<u64, Trap>
    requires { AreOnTop (float_takes operator) (reverse values.now) }
    ensures number { result ≡ float_number operator (reverse values.now) }
    ensures fits { IfOk result (λ r. r < 2 ^ width (float_gives operator)) }
{
    let top = operand(values, 0);
    match operator {
        FloatOperator::Compare(of, comparison) => Ok(compared(values, of, comparison)),
        FloatOperator::Unary(of, operator) => Ok(unary(of, operator, top)),
        FloatOperator::Binary(of, operator) => Ok(joined(values, of, operator)),
        FloatOperator::Truncate(to, of, sign) => whole_part(to, of, sign, top),
        FloatOperator::Saturate(to, of, sign) => Ok(saturate(to, of, sign, top)),
        FloatOperator::Convert(to, of, sign) => Ok(convert(to, of, sign, top)),
        FloatOperator::Demote => Ok(u64::from(f32_demote_f64(top))),
        FloatOperator::Promote => Ok(f64_promote_f32(top as u32)),
        FloatOperator::ToBits(_) | FloatOperator::FromBits(_) => Ok(top),
    }
}

/// What an operator makes of the numbers on top, in their place.
///
/// # Errors
///
/// Why a conversion to integers traps; then nothing changes.
pub fn float_top(values: &mut Vec<u64>, operator: FloatOperator) -> Result<(), Trap>
    requires { AreOnTop (float_takes operator) (reverse values.old.items) }
    ensures given { OnOk result ((r : ℕ) × (float_number operator (reverse values.old.items) ≡ Ok r)
        × Gives (float_gives operator) r (length (float_takes operator)) (reverse values.old.items)
        (reverse values.new.items)) }
    ensures traps { IfErr result (λ e. (float_number operator (reverse values.old.items) ≡ Err e)
        × (values.new.items ≡ values.old.items)) }
    ensures room { vec_capacity values.new ≡ vec_capacity values.old }
{
    let number = made(values.as_slice(), operator)?;
    replace(values, taken(operator), number);
    Ok(())
}

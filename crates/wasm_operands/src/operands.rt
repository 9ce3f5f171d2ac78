//! The values on top.

ghost use Rattle.std.specs.Prelude.{◌≡◌, ℕ, ◌∷◌, ◌++◌, ◌-◌, take, replicate, max, ◌+◌, ◌<◌, ◌≤◌, ◌^◌, ◌%◌, drop, length, reverse, slice_index, vec_capacity, vec_len, nat_eq, OnOk, IfErr, Ok, Err};
ghost use Rattle.wasm_num.specs.Numbers.{signed, wrapped, bool_number};
ghost use Rattle.wasm_syntax.specs.ValueTypes.{integer};
ghost use Rattle.wasm_valid.specs.Typing.{IsOperator};
ghost use Rattle.wasm_steps.specs.Operators.{width, compare_test, unary_number, binary_number};
ghost use Rattle.wasm_operands.specs.internal.Standing.{unwound};
ghost use Rattle.wasm_operands.specs.internal.Plain.Performing.{Gives, HasOne, HasTwo, chosen};

use crate::growth::reserve_within;
use crate::halt::Halt;
use crate::operators::{binary, compare, unary};
use wasm_module::{BinaryOperator, Comparison, IntegerType, UnaryOperator, ValueType};
use wasm_num::{Trap, i32_wrap_i64, i64_extend_i32_s};

/// The value at this many places below the top.
pub fn operand(values: &[u64], depth: usize) -> u64
    requires { depth < length values.now }
    ensures { result ≡ slice_index (reverse values.now) depth }
{
    values[values.len() - 1 - depth]
}

/// Takes this many values off.
pub fn remove(values: &mut Vec<u64>, taken: usize)
    requires there { taken ≤ vec_len values.old }
    ensures removed { reverse values.new.items ≡ drop taken (reverse values.old.items) }
    ensures room { vec_capacity values.new ≡ vec_capacity values.old }
{
    values.truncate(values.len() - taken);
}

/// Takes this many values off, and puts one in their place.
pub fn replace(values: &mut Vec<u64>, taken: usize, value: u64)
    requires some { 0 < taken }
    requires there { taken ≤ vec_len values.old }
    ensures replaced { reverse values.new.items ≡ value ∷ drop taken (reverse values.old.items) }
    ensures room { vec_capacity values.new ≡ vec_capacity values.old }
{
    values.truncate(values.len() - taken);
    values.push_reserved(value);
}

/// Puts a value on top, or changes nothing where memory is refused. There is always room for one more value.
pub fn push(values: &mut Vec<u64>, value: u64, most: usize) -> Result<(), Halt>
    requires { vec_len values.old < vec_capacity values.old }
    ensures pushed { OnOk result (reverse values.new.items ≡ value ∷ reverse values.old.items) }
    ensures full { IfErr result (λ h. (h ≡ Halt.Full) × (values.new.items ≡ values.old.items)
        × (vec_capacity values.new ≤ vec_len values.new + 1)) }
    ensures spare { vec_len values.new < vec_capacity values.new }
    ensures room { vec_capacity values.old ≤ vec_capacity values.new }
    ensures bound { vec_capacity values.new ≤ max (vec_capacity values.old) (most + 1) }
{
    if !reserve_within(values, 2, most) {
        return Err(Halt::Full);
    }
    values.push_reserved(value);
    Ok(())
}

/// Takes the value on top.
pub fn pop(values: &mut Vec<u64>) -> u64
    requires { 0 < vec_len values.old }
    ensures popped { reverse values.old.items ≡ result ∷ reverse values.new.items }
    ensures len { vec_len values.new + 1 ≡ vec_len values.old }
    ensures room { vec_capacity values.new ≡ vec_capacity values.old }
{
    values.take_last()
}

/// Moves the topmost values, of which `kept` are kept, down onto the lowest, of which there are `height`.
fn move_down(values: &mut Vec<u64>, kept: usize, height: usize)
    requires { kept + height ≤ vec_len values.old }
    ensures moved { take (height + kept) values.new.items ≡ take height values.old.items ++ drop
        (length values.old.items - kept) values.old.items }
    ensures len { vec_len values.new ≡ vec_len values.old }
    ensures room { vec_capacity values.new ≡ vec_capacity values.old }
{
    let len = values.len();
    match kept {
        0 => {}
        1 => values[height] = values[len - 1],
        _ => values.copy_within(len - kept.., height),
    }
}

/// Leaves the lowest values, of which there are `height`, and on them the topmost, of which `kept` are kept.
pub fn unwind(values: &mut Vec<u64>, kept: usize, height: usize)
    requires { kept + height ≤ vec_len values.old }
    ensures unwound { reverse values.new.items ≡ unwound kept height (reverse values.old.items) }
    ensures len { vec_len values.new ≡ kept + height }
    ensures room { vec_capacity values.new ≡ vec_capacity values.old }
{
    move_down(values, kept, height);
    values.truncate(height + kept);
}

/// Puts zeros on top, for which there is room.
pub fn push_zeros(values: &mut Vec<u64>, count: usize)
    requires { vec_len values.old + count ≤ vec_capacity values.old }
    ensures pushed { values.new.items ≡ values.old.items ++ replicate count 0 }
    ensures len { vec_len values.new ≡ vec_len values.old + count }
    ensures room { vec_capacity values.new ≡ vec_capacity values.old }
{
    for _ in 0..count {
        values.push_reserved(0);
    }
}

/// 1 where a test holds.
pub fn flag(holds: bool) -> u64
    ensures { result ≡ bool_number holds }
{
    if holds { 1 } else { 0 }
}

/// `select`: the first of two values where the condition on top is set, else the second.
pub fn select_top(values: &mut Vec<u64>)
    requires { 2 < length (reverse values.old.items) }
    ensures selected { reverse values.new.items ≡ chosen (slice_index (reverse values.old.items) 0)
        (slice_index (reverse values.old.items) 2) (slice_index (reverse values.old.items) 1) ∷ drop
        3 (reverse values.old.items) }
    ensures room { vec_capacity values.new ≡ vec_capacity values.old }
{
    let condition = operand(values, 0);
    let second = operand(values, 1);
    let first = operand(values, 2);
    replace(values, 3, if condition == 0 { second } else { first });
}

/// `eqz`: whether the number on top is 0.
pub fn test_top(values: &mut Vec<u64>)
    requires { 0 < length (reverse values.old.items) }
    ensures tested { Gives ValueType.I32 (bool_number
        (nat_eq (slice_index (reverse values.old.items) 0) 0)) 1 (reverse values.old.items)
        (reverse values.new.items) }
    ensures room { vec_capacity values.new ≡ vec_capacity values.old }
{
    let x = operand(values, 0);
    replace(values, 1, flag(x == 0));
}

/// Whether a comparison of the two numbers on top holds.
pub fn compare_top(values: &mut Vec<u64>, integer_type: IntegerType, comparison: Comparison)
    requires { HasTwo (integer integer_type) (reverse values.old.items) }
    ensures compared { Gives ValueType.I32 (bool_number
        (compare_test (width (integer integer_type)) comparison
        (slice_index (reverse values.old.items) 1) (slice_index (reverse values.old.items) 0))) 2
        (reverse values.old.items) (reverse values.new.items) }
    ensures room { vec_capacity values.new ≡ vec_capacity values.old }
{
    let second = operand(values, 0);
    let first = operand(values, 1);
    replace(
        values,
        2,
        flag(compare(integer_type, comparison, first, second)),
    );
}

/// What an operator makes of the number on top.
pub fn unary_top(values: &mut Vec<u64>, integer_type: IntegerType, operator: UnaryOperator)
    requires there { IsOperator integer_type operator }
    requires number { HasOne (integer integer_type) (reverse values.old.items) }
    ensures given { Gives (integer integer_type)
        (unary_number (width (integer integer_type)) operator
        (slice_index (reverse values.old.items) 0)) 1 (reverse values.old.items)
        (reverse values.new.items) }
    ensures room { vec_capacity values.new ≡ vec_capacity values.old }
{
    let x = operand(values, 0);
    replace(values, 1, unary(integer_type, operator, x));
}

/// What an operator makes of the two numbers on top.
pub fn binary_top(
    values: &mut Vec<u64>,
    integer_type: IntegerType,
    operator: BinaryOperator,
) -> Result<(), Trap>
    requires { HasTwo (integer integer_type) (reverse values.old.items) }
    ensures given { OnOk result ((r : ℕ) × (binary_number (width (integer integer_type)) operator
        (slice_index (reverse values.old.items) 1) (slice_index (reverse values.old.items) 0) ≡ Ok
        r) × Gives (integer integer_type) r 2 (reverse values.old.items)
        (reverse values.new.items)) }
    ensures traps { IfErr result (λ e. (binary_number (width (integer integer_type)) operator
        (slice_index (reverse values.old.items) 1) (slice_index (reverse values.old.items) 0) ≡ Err
        e) × (values.new.items ≡ values.old.items)) }
    ensures room { vec_capacity values.new ≡ vec_capacity values.old }
{
    let second = operand(values, 0);
    let first = operand(values, 1);
    let result = binary(integer_type, operator, first, second)?;
    replace(values, 2, result);
    Ok(())
}

/// `i32.wrap_i64`: the number on top modulo 2 ^ 32.
pub fn wrap_top(values: &mut Vec<u64>)
    requires { 0 < length (reverse values.old.items) }
    ensures given { Gives ValueType.I32 (slice_index (reverse values.old.items) 0 % 2 ^ 32) 1
        (reverse values.old.items) (reverse values.new.items) }
    ensures room { vec_capacity values.new ≡ vec_capacity values.old }
{
    let x = operand(values, 0);
    replace(values, 1, u64::from(i32_wrap_i64(x)));
}

/// `i64.extend_i32_s`: the number on top read as signed.
pub fn extend_top(values: &mut Vec<u64>)
    requires { HasOne ValueType.I32 (reverse values.old.items) }
    ensures given { Gives ValueType.I64 (wrapped 64
        (signed 32 (slice_index (reverse values.old.items) 0))) 1 (reverse values.old.items)
        (reverse values.new.items) }
    ensures room { vec_capacity values.new ≡ vec_capacity values.old }
{
    let x = operand(values, 0);
    replace(values, 1, i64_extend_i32_s(x as u32));
}

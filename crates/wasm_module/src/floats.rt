//! What the instructions of floats are read from (section 5.4).

ghost use Rattle.std.specs.Prelude.{◌≡◌};
ghost use Rattle.wasm_syntax.specs.internal.CodeReading.{conversion_of, eight_bytes_at, float_after, float_binary_of, float_compared, float_comparison_of, float_of_one, float_of_two, float_operator_of, float_unary_of, four_bytes_at, is_between, is_float, saturation_of};
ghost use Rattle.wasm_syntax.specs.Reading.{Gives};

use crate::cursor::Cursor;
use wasm_syntax::fault::LoadFault;
use wasm_syntax::instruction::{
    FloatBinaryOperator, FloatComparison, FloatOperator, FloatType, FloatUnaryOperator,
    Instruction, IntegerType,
};
use wasm_syntax::number::Sign;

/// The comparisons in the order of their opcodes.
#[tactic(auto, unfolding(wasm_syntax::specs::internal::CodeReading::float_comparison_of))]
fn comparison(number: u8) -> Option<FloatComparison>
    ensures { result ≡ float_comparison_of number }
{
    match number {
        0 => Some(FloatComparison::Eq),
        1 => Some(FloatComparison::Ne),
        2 => Some(FloatComparison::Lt),
        3 => Some(FloatComparison::Gt),
        4 => Some(FloatComparison::Le),
        5 => Some(FloatComparison::Ge),
        _ => None,
    }
}

/// The operators on one float in the order of their opcodes.
#[tactic(auto, unfolding(wasm_syntax::specs::internal::CodeReading::float_unary_of))]
fn unary(number: u8) -> Option<FloatUnaryOperator>
    ensures { result ≡ float_unary_of number }
{
    match number {
        0 => Some(FloatUnaryOperator::Abs),
        1 => Some(FloatUnaryOperator::Neg),
        2 => Some(FloatUnaryOperator::Ceil),
        3 => Some(FloatUnaryOperator::Floor),
        4 => Some(FloatUnaryOperator::Trunc),
        5 => Some(FloatUnaryOperator::Nearest),
        6 => Some(FloatUnaryOperator::Sqrt),
        _ => None,
    }
}

/// The operators on two floats in the order of their opcodes.
#[tactic(auto, unfolding(wasm_syntax::specs::internal::CodeReading::float_binary_of))]
fn binary(number: u8) -> Option<FloatBinaryOperator>
    ensures { result ≡ float_binary_of number }
{
    match number {
        0 => Some(FloatBinaryOperator::Add),
        1 => Some(FloatBinaryOperator::Sub),
        2 => Some(FloatBinaryOperator::Mul),
        3 => Some(FloatBinaryOperator::Div),
        4 => Some(FloatBinaryOperator::Min),
        5 => Some(FloatBinaryOperator::Max),
        6 => Some(FloatBinaryOperator::Copysign),
        _ => None,
    }
}

/// The comparison of this number, of floats of this type.
fn compared(float_type: FloatType, number: u8) -> Option<FloatOperator>
    ensures { result ≡ float_compared float_type number }
{
    Some(FloatOperator::Compare(float_type, comparison(number)?))
}

/// The operator of this number, on one float of this type.
fn of_one(float_type: FloatType, number: u8) -> Option<FloatOperator>
    ensures { result ≡ float_of_one float_type number }
{
    Some(FloatOperator::Unary(float_type, unary(number)?))
}

/// The operator of this number, on two floats of this type.
fn of_two(float_type: FloatType, number: u8) -> Option<FloatOperator>
    ensures { result ≡ float_of_two float_type number }
{
    Some(FloatOperator::Binary(float_type, binary(number)?))
}

/// The conversion of this opcode.
#[tactic(auto, unfolding(wasm_syntax::specs::internal::CodeReading::conversion_of))]
fn conversion(byte: u8) -> Option<FloatOperator>
    ensures { result ≡ conversion_of byte }
{
    let operator = match byte {
        0xA8 => FloatOperator::Truncate(IntegerType::I32, FloatType::F32, Sign::Signed),
        0xA9 => FloatOperator::Truncate(IntegerType::I32, FloatType::F32, Sign::Unsigned),
        0xAA => FloatOperator::Truncate(IntegerType::I32, FloatType::F64, Sign::Signed),
        0xAB => FloatOperator::Truncate(IntegerType::I32, FloatType::F64, Sign::Unsigned),
        0xAE => FloatOperator::Truncate(IntegerType::I64, FloatType::F32, Sign::Signed),
        0xAF => FloatOperator::Truncate(IntegerType::I64, FloatType::F32, Sign::Unsigned),
        0xB0 => FloatOperator::Truncate(IntegerType::I64, FloatType::F64, Sign::Signed),
        0xB1 => FloatOperator::Truncate(IntegerType::I64, FloatType::F64, Sign::Unsigned),
        0xB2 => FloatOperator::Convert(FloatType::F32, IntegerType::I32, Sign::Signed),
        0xB3 => FloatOperator::Convert(FloatType::F32, IntegerType::I32, Sign::Unsigned),
        0xB4 => FloatOperator::Convert(FloatType::F32, IntegerType::I64, Sign::Signed),
        0xB5 => FloatOperator::Convert(FloatType::F32, IntegerType::I64, Sign::Unsigned),
        0xB6 => FloatOperator::Demote,
        0xB7 => FloatOperator::Convert(FloatType::F64, IntegerType::I32, Sign::Signed),
        0xB8 => FloatOperator::Convert(FloatType::F64, IntegerType::I32, Sign::Unsigned),
        0xB9 => FloatOperator::Convert(FloatType::F64, IntegerType::I64, Sign::Signed),
        0xBA => FloatOperator::Convert(FloatType::F64, IntegerType::I64, Sign::Unsigned),
        0xBB => FloatOperator::Promote,
        0xBC => FloatOperator::ToBits(FloatType::F32),
        0xBD => FloatOperator::ToBits(FloatType::F64),
        0xBE => FloatOperator::FromBits(FloatType::F32),
        0xBF => FloatOperator::FromBits(FloatType::F64),
        _ => return None,
    };
    Some(operator)
}

/// The saturating conversion of this number, which stands after the opcode FC.
#[tactic(auto, unfolding(wasm_syntax::specs::internal::CodeReading::saturation_of))]
pub fn saturation(number: u32) -> Option<FloatOperator>
    ensures { result ≡ saturation_of number }
{
    let operator = match number {
        0 => FloatOperator::Saturate(IntegerType::I32, FloatType::F32, Sign::Signed),
        1 => FloatOperator::Saturate(IntegerType::I32, FloatType::F32, Sign::Unsigned),
        2 => FloatOperator::Saturate(IntegerType::I32, FloatType::F64, Sign::Signed),
        3 => FloatOperator::Saturate(IntegerType::I32, FloatType::F64, Sign::Unsigned),
        4 => FloatOperator::Saturate(IntegerType::I64, FloatType::F32, Sign::Signed),
        5 => FloatOperator::Saturate(IntegerType::I64, FloatType::F32, Sign::Unsigned),
        6 => FloatOperator::Saturate(IntegerType::I64, FloatType::F64, Sign::Signed),
        7 => FloatOperator::Saturate(IntegerType::I64, FloatType::F64, Sign::Unsigned),
        _ => return None,
    };
    Some(operator)
}

/// The operator on floats of this opcode.
#[tactic(auto, unfolding(wasm_syntax::specs::internal::CodeReading::float_operator_of))]
fn float_operator(byte: u8) -> Option<FloatOperator>
    ensures { result ≡ float_operator_of byte }
{
    match byte {
        0x5B..=0x60 => compared(FloatType::F32, byte - 0x5B),
        0x61..=0x66 => compared(FloatType::F64, byte - 0x61),
        0x8B..=0x91 => of_one(FloatType::F32, byte - 0x8B),
        0x92..=0x98 => of_two(FloatType::F32, byte - 0x92),
        0x99..=0x9F => of_one(FloatType::F64, byte - 0x99),
        0xA0..=0xA6 => of_two(FloatType::F64, byte - 0xA0),
        _ => conversion(byte),
    }
}

/// Whether an opcode is one of these.
fn is_between(low: u8, high: u8, byte: u8) -> bool
    ensures { result ≡ is_between low high byte }
{
    low <= byte && byte <= high
}

/// Whether this is an opcode of floats, but for those of loads and stores.
pub fn is_float(byte: u8) -> bool
    ensures { result ≡ is_float byte }
{
    is_between(0x43, 0x44, byte)
        || is_between(0x5B, 0x66, byte)
        || is_between(0x8B, 0xA6, byte)
        || is_between(0xA8, 0xAB, byte)
        || is_between(0xAE, 0xBF, byte)
}

/// Four bytes, the lowest first.
#[tactic(auto, unfolding(wasm_syntax::specs::internal::CodeReading::four_bytes_at))]
fn four_bytes(cursor: &mut Cursor<'_>) -> Result<u32, LoadFault>
    ensures { Gives (λ x. (x, cursor.new)) result (four_bytes_at cursor.old) }
{
    let first = cursor.byte()?;
    let second = cursor.byte()?;
    let third = cursor.byte()?;
    let last = cursor.byte()?;
    let high = u32::from(third) + 256 * u32::from(last);
    Ok(u32::from(first) + 256 * (u32::from(second) + 256 * high))
}

/// Eight bytes, the lowest first.
#[tactic(auto, unfolding(wasm_syntax::specs::internal::CodeReading::eight_bytes_at))]
fn eight_bytes(cursor: &mut Cursor<'_>) -> Result<u64, LoadFault>
    ensures { Gives (λ x. (x, cursor.new)) result (eight_bytes_at cursor.old) }
{
    let low = four_bytes(cursor)?;
    let high = four_bytes(cursor)?;
    Ok(u64::from(low) + (1 << 32) * u64::from(high))
}

/// What follows an opcode of floats (section 5.4.5): the bits of a constant, or nothing.
#[tactic(auto, unfolding(wasm_syntax::specs::internal::CodeReading::float_after))]
pub fn float(cursor: &mut Cursor<'_>, byte: u8, offset: u32) -> Result<Instruction, LoadFault>
    ensures { Gives (λ x. (x, cursor.new)) result (float_after byte cursor.old) }
{
    match byte {
        0x43 => Ok(Instruction::F32Const(four_bytes(cursor)?)),
        0x44 => Ok(Instruction::F64Const(eight_bytes(cursor)?)),
        _ => match float_operator(byte) {
            Some(operator) => Ok(Instruction::Float(operator)),
            None => Err(LoadFault::BadByte { offset }),
        },
    }
}

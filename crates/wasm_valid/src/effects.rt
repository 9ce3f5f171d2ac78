//! What an instruction of fixed type takes from the stack and leaves there (section 3.3).

ghost use Rattle.std.specs.Prelude.{◌≡◌};
ghost use Rattle.wasm_syntax.specs.ValueTypes.{integer};
ghost use Rattle.wasm_valid.specs.Arities.{as_wide, float_gives};
ghost use Rattle.wasm_valid.specs.internal.Effects.{effect, access, load, store, access_of, is_operator, float_operands, numeric_effect};

use wasm_module::{
    Access, BlockType, FloatOperator, FloatType, Instruction, IntegerType, MemArg, UnaryOperator,
    ValueType,
};

/// Types that are taken, the one on top first.
#[derive(Clone, Copy)]
pub enum Takes {
    Nothing,
    One(ValueType),
    Two(ValueType, ValueType),
    Three(ValueType, ValueType, ValueType),
}

/// The type of an instruction: what it takes, and then leaves.
#[derive(Clone, Copy)]
pub struct Effect {
    pub takes: Takes,
    pub gives: BlockType,
}

/// An instruction on memory: what its alignment is, as an exponent of 2, and what it may be at
/// most.
#[derive(Clone, Copy)]
pub struct MemoryEffect {
    pub align: u32,
    pub most: u32,
    pub effect: Effect,
}

impl Effect {
    /// Takes these and leaves what a block of this type does.
    pub fn new(takes: Takes, gives: BlockType) -> Effect
        ensures { result ≡ effect takes gives }
    {
        Effect { takes, gives }
    }
}

/// A load of this number.
fn load(arg: MemArg, loaded: Access) -> MemoryEffect
    ensures { result ≡ load arg loaded.width loaded.value_type }
{
    MemoryEffect {
        align: arg.align,
        most: loaded.width,
        effect: Effect::new(
            Takes::One(ValueType::I32),
            BlockType::Value(loaded.value_type),
        ),
    }
}

/// A store of this number.
fn store(arg: MemArg, stored: Access) -> MemoryEffect
    ensures { result ≡ store arg stored.width stored.value_type }
{
    MemoryEffect {
        align: arg.align,
        most: stored.width,
        effect: Effect::new(
            Takes::Two(stored.value_type, ValueType::I32),
            BlockType::Empty,
        ),
    }
}

/// An instruction on memory that has no alignment.
fn unaligned(takes: Takes, gives: BlockType) -> MemoryEffect
    ensures { result ≡ access 0 0 takes gives }
{
    MemoryEffect {
        align: 0,
        most: 0,
        effect: Effect::new(takes, gives),
    }
}

/// An instruction on memory (section 3.3.4); None for any other.
pub fn on_memory(instruction: &Instruction) -> Option<MemoryEffect>
    ensures { result ≡ access_of instruction.now }
{
    let three = Takes::Three(ValueType::I32, ValueType::I32, ValueType::I32);
    let address = BlockType::Value(ValueType::I32);
    let access = match instruction {
        Instruction::Load(operator, arg) => load(*arg, operator.access()),
        Instruction::Store(operator, arg) => store(*arg, operator.access()),
        Instruction::MemorySize => unaligned(Takes::Nothing, address),
        Instruction::MemoryGrow => unaligned(Takes::One(ValueType::I32), address),
        Instruction::MemoryCopy | Instruction::MemoryFill => unaligned(three, BlockType::Empty),
        _ => return None,
    };
    Some(access)
}

/// Whether there is such an operator on this type.
fn is_operator(integer_type: IntegerType, operator: UnaryOperator) -> bool
    ensures { result ≡ is_operator integer_type operator }
{
    match (integer_type, operator) {
        (IntegerType::I32, UnaryOperator::Extend32S) => false,
        _ => true,
    }
}

/// Two integers of this type.
fn two(integer_type: IntegerType) -> Takes
    ensures { result ≡ Takes.Two (integer integer_type) (integer integer_type) }
{
    let operand = integer_type.value_type();
    Takes::Two(operand, operand)
}

/// The integers that have as many bits as these floats.
fn as_wide(float_type: FloatType) -> IntegerType
    ensures { result ≡ as_wide float_type }
{
    match float_type {
        FloatType::F32 => IntegerType::I32,
        FloatType::F64 => IntegerType::I64,
    }
}

/// What an operator on floats takes.
fn float_operands(operator: FloatOperator) -> Takes
    ensures { result ≡ float_operands operator }
{
    match operator {
        FloatOperator::Compare(float, _) | FloatOperator::Binary(float, _) => {
            Takes::Two(float.value_type(), float.value_type())
        }
        FloatOperator::Unary(float, _)
        | FloatOperator::Truncate(_, float, _)
        | FloatOperator::Saturate(_, float, _)
        | FloatOperator::ToBits(float) => Takes::One(float.value_type()),
        FloatOperator::Convert(_, integer, _) => Takes::One(integer.value_type()),
        FloatOperator::Demote => Takes::One(ValueType::F64),
        FloatOperator::Promote => Takes::One(ValueType::F32),
        FloatOperator::FromBits(float) => Takes::One(as_wide(float).value_type()),
    }
}

/// What an operator on floats gives.
fn float_result(operator: FloatOperator) -> ValueType
    ensures { result ≡ float_gives operator }
{
    match operator {
        FloatOperator::Compare(_, _) => ValueType::I32,
        FloatOperator::Unary(float, _)
        | FloatOperator::Binary(float, _)
        | FloatOperator::Convert(float, _, _)
        | FloatOperator::FromBits(float) => float.value_type(),
        FloatOperator::Truncate(integer, _, _) | FloatOperator::Saturate(integer, _, _) => {
            integer.value_type()
        }
        FloatOperator::Demote => ValueType::F32,
        FloatOperator::Promote => ValueType::F64,
        FloatOperator::ToBits(float) => as_wide(float).value_type(),
    }
}

/// An instruction on numbers, or `nop` (section 3.3.1); None for any other.
pub fn numeric(instruction: &Instruction) -> Option<Effect>
    ensures { result ≡ numeric_effect instruction.now }
{
    let (takes, gives) = match instruction {
        Instruction::Nop => return Some(Effect::new(Takes::Nothing, BlockType::Empty)),
        Instruction::I32Const(_) => (Takes::Nothing, ValueType::I32),
        Instruction::I64Const(_) => (Takes::Nothing, ValueType::I64),
        Instruction::Eqz(integer) => (Takes::One(integer.value_type()), ValueType::I32),
        Instruction::Compare(integer, _) => (two(*integer), ValueType::I32),
        Instruction::Unary(integer, operator) => {
            if !is_operator(*integer, *operator) {
                return None;
            }
            (Takes::One(integer.value_type()), integer.value_type())
        }
        Instruction::Binary(integer, _) => (two(*integer), integer.value_type()),
        Instruction::I32WrapI64 => (Takes::One(ValueType::I64), ValueType::I32),
        Instruction::I64ExtendI32S => (Takes::One(ValueType::I32), ValueType::I64),
        Instruction::I64ExtendI32U => (Takes::One(ValueType::I32), ValueType::I64),
        Instruction::F32Const(_) => (Takes::Nothing, ValueType::F32),
        Instruction::F64Const(_) => (Takes::Nothing, ValueType::F64),
        Instruction::Float(operator) => (float_operands(*operator), float_result(*operator)),
        _ => return None,
    };
    Some(Effect::new(takes, BlockType::Value(gives)))
}

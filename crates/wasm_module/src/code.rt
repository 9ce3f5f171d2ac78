//! What instructions are read from (section 5.4).

ghost use Rattle.std.specs.Prelude.{◌≡◌};
ghost use Rattle.wasm_syntax.specs.internal.CodeReading.{binary_operator_of, block_with, branch_table_at, branch_with, bulk_after, bulk_at, call_indirect_at, compared, comparison_of, control_after, float_after, floats_at, load_after, load_of, numeric_of, only_table_at, operated, operator_after, saturated, size_after, store_after, store_of, unary_instruction, variable_after, variable_with};
ghost use Rattle.wasm_syntax.specs.Reading.{Gives};

use crate::cursor::{Cursor, Decode};
use crate::floats::{float, is_float, saturation};
use std::alloc::Global;
use wasm_syntax::accesses::{LoadOperator, StoreOperator};
use wasm_syntax::fault::LoadFault;
use wasm_syntax::instruction::{
    BinaryOperator, BlockType, BranchTable, Comparison, Instruction, IntegerType, MemArg,
    UnaryOperator,
};
use wasm_syntax::items::Items;
use wasm_syntax::profile::Profile;

/// Why this byte is no opcode: the loads and stores of floats are known, and may be refused.
fn unknown(byte: u8, offset: u32) -> LoadFault {
    match byte {
        0x2A | 0x2B | 0x38 | 0x39 => LoadFault::Float { offset },
        _ => LoadFault::BadByte { offset },
    }
}

/// The comparisons in the order of their opcodes.
#[tactic(auto, unfolding(wasm_syntax::specs::internal::CodeReading::comparison_of))]
fn comparison(number: u8) -> Option<Comparison>
    ensures { result ≡ comparison_of number }
{
    match number {
        0 => Some(Comparison::Eq),
        1 => Some(Comparison::Ne),
        2 => Some(Comparison::LtS),
        3 => Some(Comparison::LtU),
        4 => Some(Comparison::GtS),
        5 => Some(Comparison::GtU),
        6 => Some(Comparison::LeS),
        7 => Some(Comparison::LeU),
        8 => Some(Comparison::GeS),
        9 => Some(Comparison::GeU),
        _ => None,
    }
}

/// The operators on two integers in the order of their opcodes.
#[tactic(auto, unfolding(wasm_syntax::specs::internal::CodeReading::binary_operator_of))]
fn binary_operator(number: u8) -> Option<BinaryOperator>
    ensures { result ≡ binary_operator_of number }
{
    match number {
        0 => Some(BinaryOperator::Add),
        1 => Some(BinaryOperator::Sub),
        2 => Some(BinaryOperator::Mul),
        3 => Some(BinaryOperator::DivS),
        4 => Some(BinaryOperator::DivU),
        5 => Some(BinaryOperator::RemS),
        6 => Some(BinaryOperator::RemU),
        7 => Some(BinaryOperator::And),
        8 => Some(BinaryOperator::Or),
        9 => Some(BinaryOperator::Xor),
        10 => Some(BinaryOperator::Shl),
        11 => Some(BinaryOperator::ShrS),
        12 => Some(BinaryOperator::ShrU),
        13 => Some(BinaryOperator::Rotl),
        14 => Some(BinaryOperator::Rotr),
        _ => None,
    }
}

/// The instruction on one integer of this opcode.
#[tactic(auto, unfolding(wasm_syntax::specs::internal::CodeReading::unary_of))]
fn unary(byte: u8) -> Option<Instruction>
    ensures { result ≡ unary_instruction byte }
{
    match byte {
        0x67 => Some(Instruction::Unary(IntegerType::I32, UnaryOperator::Clz)),
        0x68 => Some(Instruction::Unary(IntegerType::I32, UnaryOperator::Ctz)),
        0x69 => Some(Instruction::Unary(IntegerType::I32, UnaryOperator::Popcnt)),
        0x79 => Some(Instruction::Unary(IntegerType::I64, UnaryOperator::Clz)),
        0x7A => Some(Instruction::Unary(IntegerType::I64, UnaryOperator::Ctz)),
        0x7B => Some(Instruction::Unary(IntegerType::I64, UnaryOperator::Popcnt)),
        0xC0 => Some(Instruction::Unary(IntegerType::I32, UnaryOperator::Extend8S)),
        0xC1 => Some(Instruction::Unary(IntegerType::I32, UnaryOperator::Extend16S)),
        0xC2 => Some(Instruction::Unary(IntegerType::I64, UnaryOperator::Extend8S)),
        0xC3 => Some(Instruction::Unary(IntegerType::I64, UnaryOperator::Extend16S)),
        0xC4 => Some(Instruction::Unary(IntegerType::I64, UnaryOperator::Extend32S)),
        _ => None,
    }
}

/// The comparison of this number, of integers of this type.
fn compared(integer_type: IntegerType, number: u8) -> Option<Instruction>
    ensures { result ≡ compared integer_type number }
{
    Some(Instruction::Compare(integer_type, comparison(number)?))
}

/// The operator of this number, on two integers of this type.
fn operated(integer_type: IntegerType, number: u8) -> Option<Instruction>
    ensures { result ≡ operated integer_type number }
{
    Some(Instruction::Binary(integer_type, binary_operator(number)?))
}

/// The instruction of this opcode on numbers, which has nothing after it.
#[inline(always)]
#[tactic(auto, unfolding(wasm_syntax::specs::internal::CodeReading::numeric_of))]
fn numeric(byte: u8) -> Option<Instruction>
    ensures { result ≡ numeric_of byte }
{
    match byte {
        0x45 => Some(Instruction::Eqz(IntegerType::I32)),
        0x50 => Some(Instruction::Eqz(IntegerType::I64)),
        0xA7 => Some(Instruction::I32WrapI64),
        0xAC => Some(Instruction::I64ExtendI32S),
        0xAD => Some(Instruction::I64ExtendI32U),
        0x46..=0x4F => compared(IntegerType::I32, byte - 0x46),
        0x51..=0x5A => compared(IntegerType::I64, byte - 0x51),
        0x6A..=0x78 => operated(IntegerType::I32, byte - 0x6A),
        0x7C..=0x8A => operated(IntegerType::I64, byte - 0x7C),
        _ => unary(byte),
    }
}

/// The beginning of a block with this opcode and type.
#[tactic(auto, unfolding(wasm_syntax::specs::internal::CodeReading::block_with))]
fn block_with(byte: u8, offset: u32, block_type: BlockType) -> Result<Instruction, LoadFault>
    ensures { Gives (λ i. i) result (block_with byte block_type) }
{
    match byte {
        0x02 => Ok(Instruction::Block(block_type)),
        0x03 => Ok(Instruction::Loop(block_type)),
        0x04 => Ok(Instruction::If(block_type)),
        _ => Err(unknown(byte, offset)),
    }
}

/// The branch of this opcode, to this label.
#[tactic(auto, unfolding(wasm_syntax::specs::internal::CodeReading::branch_with))]
fn branch_with(byte: u8, offset: u32, label: u32) -> Result<Instruction, LoadFault>
    ensures { Gives (λ i. i) result (branch_with byte label) }
{
    match byte {
        0x0C => Ok(Instruction::Br(label)),
        0x0D => Ok(Instruction::BrIf(label)),
        _ => Err(unknown(byte, offset)),
    }
}

fn branch_table(
    alloc: Global,
    cursor: &mut Cursor<'_>,
    profile: Profile,
) -> Result<Instruction, LoadFault>
    ensures { Gives (λ x. (x, cursor.new)) result (branch_table_at cursor.old) }
{
    let (labels, default): (Items<u32>, u32) = Decode::decode(alloc, cursor, profile)?;
    Ok(Instruction::BrTable(BranchTable::new(alloc, labels, default)?))
}

/// The table of an indirect call, which is the only one.
#[tactic(auto, unfolding(wasm_syntax::specs::internal::CodeReading::only_table_at))]
fn only_table(cursor: &mut Cursor<'_>, profile: Profile) -> Result<(), LoadFault>
    ensures { Gives (λ x. (x, cursor.new)) result (only_table_at profile cursor.old) }
{
    match profile {
        Profile::Integers => cursor.zero(),
        Profile::Floats => {
            let offset = cursor.offset();
            if cursor.u32()? != 0 {
                return Err(LoadFault::BadByte { offset });
            }
            Ok(())
        }
    }
}

fn call_indirect(cursor: &mut Cursor<'_>, profile: Profile) -> Result<Instruction, LoadFault>
    ensures { Gives (λ x. (x, cursor.new)) result (call_indirect_at profile cursor.old) }
{
    let index = cursor.u32()?;
    only_table(cursor, profile)?;
    Ok(Instruction::CallIndirect(index))
}

/// What follows an opcode of the control instructions (section 5.4.1).
#[tactic(auto, unfolding(wasm_syntax::specs::internal::CodeReading::control_after))]
fn control(
    alloc: Global,
    cursor: &mut Cursor<'_>,
    profile: Profile,
    byte: u8,
    offset: u32,
) -> Result<Instruction, LoadFault>
    ensures { Gives (λ x. (x, cursor.new)) result (control_after profile byte cursor.old) }
{
    match byte {
        0x00 => Ok(Instruction::Unreachable),
        0x01 => Ok(Instruction::Nop),
        0x02..=0x04 => block_with(byte, offset, BlockType::decode(alloc, cursor, profile)?),
        0x05 => Ok(Instruction::Else),
        0x0B => Ok(Instruction::End),
        0x0C..=0x0D => branch_with(byte, offset, cursor.u32()?),
        0x0E => branch_table(alloc, cursor, profile),
        0x0F => Ok(Instruction::Return),
        0x10 => Ok(Instruction::Call(cursor.u32()?)),
        0x11 => call_indirect(cursor, profile),
        _ => Err(unknown(byte, offset)),
    }
}

/// The instruction on a variable of this opcode, with this index.
#[tactic(auto, unfolding(wasm_syntax::specs::internal::CodeReading::variable_with))]
fn variable_with(byte: u8, offset: u32, index: u32) -> Result<Instruction, LoadFault>
    ensures { Gives (λ i. i) result (variable_with byte index) }
{
    match byte {
        0x20 => Ok(Instruction::LocalGet(index)),
        0x21 => Ok(Instruction::LocalSet(index)),
        0x22 => Ok(Instruction::LocalTee(index)),
        0x23 => Ok(Instruction::GlobalGet(index)),
        0x24 => Ok(Instruction::GlobalSet(index)),
        _ => Err(unknown(byte, offset)),
    }
}

/// What follows an opcode of the parametric and variable instructions (sections 5.4.2 and
/// 5.4.3).
#[tactic(auto, unfolding(wasm_syntax::specs::internal::CodeReading::variable_after))]
fn variable(cursor: &mut Cursor<'_>, byte: u8, offset: u32) -> Result<Instruction, LoadFault>
    ensures { Gives (λ x. (x, cursor.new)) result (variable_after byte cursor.old) }
{
    match byte {
        0x1A => Ok(Instruction::Drop),
        0x1B => Ok(Instruction::Select),
        0x20..=0x24 => variable_with(byte, offset, cursor.u32()?),
        _ => Err(unknown(byte, offset)),
    }
}

/// The load of this opcode.
#[tactic(auto, unfolding(wasm_syntax::specs::internal::CodeReading::load_of))]
fn load_operator(profile: Profile, byte: u8) -> Option<LoadOperator>
    ensures { result ≡ load_of profile byte }
{
    match byte {
        0x28 => Some(LoadOperator::I32Load),
        0x29 => Some(LoadOperator::I64Load),
        0x2A => profile.takes_floats().then_some(LoadOperator::F32Load),
        0x2B => profile.takes_floats().then_some(LoadOperator::F64Load),
        0x2C => Some(LoadOperator::I32Load8S),
        0x2D => Some(LoadOperator::I32Load8U),
        0x2E => Some(LoadOperator::I32Load16S),
        0x2F => Some(LoadOperator::I32Load16U),
        0x30 => Some(LoadOperator::I64Load8S),
        0x31 => Some(LoadOperator::I64Load8U),
        0x32 => Some(LoadOperator::I64Load16S),
        0x33 => Some(LoadOperator::I64Load16U),
        0x34 => Some(LoadOperator::I64Load32S),
        0x35 => Some(LoadOperator::I64Load32U),
        _ => None,
    }
}

/// What follows an opcode of the loads (section 5.4.4). Where those of floating point are refused, that is before what follows them is read.
#[tactic(auto, unfolding(wasm_syntax::specs::internal::CodeReading::load_after))]
#[inline(always)]
fn load(
    alloc: Global,
    cursor: &mut Cursor<'_>,
    profile: Profile,
    byte: u8,
    offset: u32,
) -> Result<Instruction, LoadFault>
    ensures { Gives (λ x. (x, cursor.new)) result (load_after profile byte cursor.old) }
{
    match load_operator(profile, byte) {
        Some(operator) => Ok(Instruction::Load(operator, MemArg::decode(alloc, cursor, profile)?)),
        None => Err(unknown(byte, offset)),
    }
}

/// The store of this opcode.
#[tactic(auto, unfolding(wasm_syntax::specs::internal::CodeReading::store_of))]
fn store_operator(profile: Profile, byte: u8) -> Option<StoreOperator>
    ensures { result ≡ store_of profile byte }
{
    match byte {
        0x36 => Some(StoreOperator::I32Store),
        0x37 => Some(StoreOperator::I64Store),
        0x38 => profile.takes_floats().then_some(StoreOperator::F32Store),
        0x39 => profile.takes_floats().then_some(StoreOperator::F64Store),
        0x3A => Some(StoreOperator::I32Store8),
        0x3B => Some(StoreOperator::I32Store16),
        0x3C => Some(StoreOperator::I64Store8),
        0x3D => Some(StoreOperator::I64Store16),
        0x3E => Some(StoreOperator::I64Store32),
        _ => None,
    }
}

/// What follows an opcode of the stores (section 5.4.4). Where those of floating point are refused, that is before what follows them is read.
#[tactic(auto, unfolding(wasm_syntax::specs::internal::CodeReading::store_after))]
#[inline(always)]
fn store(
    alloc: Global,
    cursor: &mut Cursor<'_>,
    profile: Profile,
    byte: u8,
    offset: u32,
) -> Result<Instruction, LoadFault>
    ensures { Gives (λ x. (x, cursor.new)) result (store_after profile byte cursor.old) }
{
    match store_operator(profile, byte) {
        Some(operator) => Ok(Instruction::Store(operator, MemArg::decode(alloc, cursor, profile)?)),
        None => Err(unknown(byte, offset)),
    }
}

/// What follows an opcode of the instructions on the size of memory (section 5.4.4).
#[tactic(auto, unfolding(wasm_syntax::specs::internal::CodeReading::size_after))]
fn memory_size(cursor: &mut Cursor<'_>, byte: u8, offset: u32) -> Result<Instruction, LoadFault>
    ensures { Gives (λ x. (x, cursor.new)) result (size_after byte cursor.old) }
{
    match byte {
        0x3F => {
            cursor.zero()?;
            Ok(Instruction::MemorySize)
        }
        0x40 => {
            cursor.zero()?;
            Ok(Instruction::MemoryGrow)
        }
        _ => Err(unknown(byte, offset)),
    }
}

/// The saturating conversion of this number, which stands after the opcode FC.
#[tactic(auto, unfolding(wasm_syntax::specs::internal::CodeReading::saturation_of))]
fn saturating(profile: Profile, number: u32, offset: u32) -> Result<Instruction, LoadFault>
    ensures { Gives (λ i. i) result (saturated profile number) }
{
    match saturation(number) {
        Some(operator) => match profile {
            Profile::Integers => Err(LoadFault::Float { offset }),
            Profile::Floats => Ok(Instruction::Float(operator)),
        },
        None => Err(LoadFault::BadByte { offset }),
    }
}

/// The instruction of this number, which stands after the opcode FC.
#[tactic(auto, unfolding(wasm_syntax::specs::internal::CodeReading::bulk_after))]
fn bulk_instruction(
    cursor: &mut Cursor<'_>,
    profile: Profile,
    number: u32,
    offset: u32,
) -> Result<Instruction, LoadFault>
    ensures { Gives (λ x. (x, cursor.new)) result (bulk_after profile number cursor.old) }
{
    match number {
        10 => {
            cursor.zero()?;
            cursor.zero()?;
            Ok(Instruction::MemoryCopy)
        }
        11 => {
            cursor.zero()?;
            Ok(Instruction::MemoryFill)
        }
        _ => saturating(profile, number, offset),
    }
}

#[tactic(auto, unfolding(wasm_syntax::specs::internal::CodeReading::bulk_at))]
fn bulk(cursor: &mut Cursor<'_>, profile: Profile) -> Result<Instruction, LoadFault>
    ensures { Gives (λ x. (x, cursor.new)) result (bulk_at profile cursor.old) }
{
    let offset = cursor.offset();
    let number = cursor.u32()?;
    bulk_instruction(cursor, profile, number, offset)
}

/// What follows an opcode of floats, where they are taken.
fn floats(
    cursor: &mut Cursor<'_>,
    profile: Profile,
    byte: u8,
    offset: u32,
) -> Result<Instruction, LoadFault>
    ensures { Gives (λ x. (x, cursor.new)) result
        (floats_at profile (float_after byte) cursor.old) }
{
    match profile {
        Profile::Integers => Err(LoadFault::Float { offset }),
        Profile::Floats => float(cursor, byte, offset),
    }
}

/// What follows an opcode of the instructions on numbers (section 5.4.5).
#[tactic(auto, unfolding(wasm_syntax::specs::internal::CodeReading::operator_after, wasm_syntax::specs::internal::CodeReading::numeric_after))]
fn operator(
    cursor: &mut Cursor<'_>,
    profile: Profile,
    byte: u8,
    offset: u32,
) -> Result<Instruction, LoadFault>
    ensures { Gives (λ x. (x, cursor.new)) result (operator_after profile byte cursor.old) }
{
    if is_float(byte) {
        return floats(cursor, profile, byte, offset);
    }
    match numeric(byte) {
        Some(instruction) => Ok(instruction),
        None => Err(LoadFault::BadByte { offset }),
    }
}

impl<'a> Decode<'a> for MemArg {
    ghost use Rattle.wasm_syntax.specs.internal.CodeReading.{mem_arg_at};

    ghost at = { λ p. mem_arg_at };

    #[inline(always)]
    #[tactic(auto, unfolding(wasm_syntax::specs::internal::CodeReading::mem_arg_at))]
    fn decode(
        _alloc: Global,
        cursor: &mut Cursor<'a>,
        _profile: Profile,
    ) -> Result<MemArg, LoadFault> {
        let align = cursor.u32()?;
        let offset = cursor.u32()?;
        Ok(MemArg { align, offset })
    }
}

impl<'a> Decode<'a> for Instruction {
    ghost use Rattle.wasm_syntax.specs.internal.CodeReading.{instruction_at, instruction_after};

    ghost at = { instruction_at };

    #[tactic(auto, unfolding(wasm_syntax::specs::internal::CodeReading::instruction_at, wasm_syntax::specs::internal::CodeReading::instruction_after, wasm_syntax::specs::internal::CodeReading::control_after, wasm_syntax::specs::internal::CodeReading::branch_with, wasm_syntax::specs::internal::CodeReading::variable_after, wasm_syntax::specs::internal::CodeReading::variable_with))]
    fn decode(
        alloc: Global,
        cursor: &mut Cursor<'a>,
        profile: Profile,
    ) -> Result<Instruction, LoadFault> {
        let offset = cursor.offset();
        let byte = cursor.byte()?;
        // The frequent ones have a row each, so that one jump finds them.
        match byte {
            0x0B => Ok(Instruction::End),
            0x0D => Ok(Instruction::BrIf(cursor.u32()?)),
            0x10 => Ok(Instruction::Call(cursor.u32()?)),
            0x20 => Ok(Instruction::LocalGet(cursor.u32()?)),
            0x21 => Ok(Instruction::LocalSet(cursor.u32()?)),
            0x22 => Ok(Instruction::LocalTee(cursor.u32()?)),
            0x41 => Ok(Instruction::I32Const(cursor.s32()?)),
            0x42 => Ok(Instruction::I64Const(cursor.s64()?)),
            0xFC => bulk(cursor, profile),
            0x00..=0x11 => control(alloc, cursor, profile, byte, offset),
            0x12..=0x27 => variable(cursor, byte, offset),
            0x28..=0x35 => load(alloc, cursor, profile, byte, offset),
            0x36..=0x3E => store(alloc, cursor, profile, byte, offset),
            0x3F..=0x40 => memory_size(cursor, byte, offset),
            _ => operator(cursor, profile, byte, offset),
        }
    }
}

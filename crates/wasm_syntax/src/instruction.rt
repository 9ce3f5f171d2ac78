//! Types of values, and decoded instructions.

use crate::accesses::{LoadOperator, StoreOperator};
use crate::items::Items;
use crate::number::Sign;
use std::alloc::{AllocError, Global};
use std::marker::Model;
use std::mem::size_of;

/// The type of a value (section 2.3.1).
#[derive(Clone, Copy)]
pub enum ValueType {
    I32,
    I64,
    F32,
    F64,
}

/// The type of an integer (section 2.3.1), on which the numeric operators are.
#[derive(Clone, Copy)]
pub enum IntegerType {
    I32,
    I64,
}

impl IntegerType {
    ghost use Rattle.std.specs.Prelude.{◌≡◌};
    ghost use Rattle.wasm_syntax.specs.ValueTypes.{integer};

    /// The type of the values that are such integers.
    pub fn value_type(self) -> ValueType
        ensures { result ≡ integer self }
    {
        match self {
            IntegerType::I32 => ValueType::I32,
            IntegerType::I64 => ValueType::I64,
        }
    }
}

/// The type of a float (section 2.3.1).
#[derive(Clone, Copy)]
pub enum FloatType {
    F32,
    F64,
}

impl FloatType {
    ghost use Rattle.std.specs.Prelude.{◌≡◌};
    ghost use Rattle.wasm_syntax.specs.ValueTypes.{float};

    /// The type of the values that are such floats.
    pub fn value_type(self) -> ValueType
        ensures { result ≡ float self }
    {
        match self {
            FloatType::F32 => ValueType::F32,
            FloatType::F64 => ValueType::F64,
        }
    }
}

/// What a block leaves (section 2.3.2): nothing, or one value.
#[derive(Clone, Copy)]
pub enum BlockType {
    Empty,
    Value(ValueType),
}

/// What a load or a store says of its address (section 2.4.4): the alignment as an exponent of 2,
/// and the offset in bytes.
#[derive(Clone, Copy)]
pub struct MemArg {
    pub align: u32,
    pub offset: u32,
}

/// A comparison of two integers of one type (section 2.4.1).
#[derive(Clone, Copy)]
pub enum Comparison {
    Eq,
    Ne,
    LtS,
    LtU,
    GtS,
    GtU,
    LeS,
    LeU,
    GeS,
    GeU,
}

/// An operator on one integer (section 2.4.1, and the sign extensions).
#[derive(Clone, Copy)]
pub enum UnaryOperator {
    Clz,
    Ctz,
    Popcnt,
    Extend8S,
    Extend16S,
    Extend32S,
}

/// An operator on two integers of one type (section 2.4.1).
#[derive(Clone, Copy)]
pub enum BinaryOperator {
    Add,
    Sub,
    Mul,
    DivS,
    DivU,
    RemS,
    RemU,
    And,
    Or,
    Xor,
    Shl,
    ShrS,
    ShrU,
    Rotl,
    Rotr,
}

/// A comparison of two floats of one type (section 2.4.1).
#[derive(Clone, Copy)]
pub enum FloatComparison {
    Eq,
    Ne,
    Lt,
    Gt,
    Le,
    Ge,
}

/// An operator on one float (section 2.4.1).
#[derive(Clone, Copy)]
pub enum FloatUnaryOperator {
    Abs,
    Neg,
    Ceil,
    Floor,
    Trunc,
    Nearest,
    Sqrt,
}

/// An operator on two floats of one type (section 2.4.1).
#[derive(Clone, Copy)]
pub enum FloatBinaryOperator {
    Add,
    Sub,
    Mul,
    Div,
    Min,
    Max,
    Copysign,
}

/// An operator that takes a float or gives one (section 2.4.1, and the saturating conversions).
#[derive(Clone, Copy)]
pub enum FloatOperator {
    Compare(FloatType, FloatComparison),
    Unary(FloatType, FloatUnaryOperator),
    Binary(FloatType, FloatBinaryOperator),
    /// The whole part, which traps where it is none of the type.
    Truncate(IntegerType, FloatType, Sign),
    /// The whole part, or what of the type is nearest to it.
    Saturate(IntegerType, FloatType, Sign),
    /// The float nearest to an integer.
    Convert(FloatType, IntegerType, Sign),
    /// The f32 nearest to an f64.
    Demote,
    /// An f32 as an f64.
    Promote,
    /// The bits of a float as an integer of as many bits.
    ToBits(FloatType),
    /// The float of these bits.
    FromBits(FloatType),
}

#[derive(Drop)]
struct TableLabels {
    labels: Items<u32>,
    default: u32,
}

/// The labels of a `br_table`, and the one for all greater indices.
#[derive(Drop)]
pub struct BranchTable {
    table: Box<TableLabels>,
}

impl Model for BranchTable {
    ghost use Rattle.std.specs.Prelude.{ℕ, List};

    ghost Value = { List ℕ × ℕ };

    ghost view = { λ b. (b.table.value.labels, b.table.value.default) };
}

impl BranchTable {
    ghost use Rattle.std.specs.Prelude.{◌≡◌, IfOk};

    /// The table of these labels, with the one for all indices past them.
    pub fn new(alloc: Global, labels: Items<u32>, default: u32) -> Result<BranchTable, AllocError>
        ensures { IfOk result (λ b. b ≡ (labels, default)) }
    {
        let table = Box::new(alloc, TableLabels { labels, default })?;
        Ok(BranchTable { table })
    }

    /// The labels, by index.
    pub fn labels(&self) -> &[u32]
        ensures { result.now ≡ self.now.0 }
    {
        self.table.labels.as_slice()
    }

    /// The label for the indices past the last of `labels`.
    pub fn default_label(&self) -> u32
        ensures { result ≡ self.now.1 }
    {
        self.table.default
    }
}

/// One decoded instruction (section 2.4). A block, a loop and an if are where they begin, and
/// their `else` and `end` are instructions of their own.
#[derive(Drop)]
pub enum Instruction {
    Unreachable,
    Nop,
    Block(BlockType),
    Loop(BlockType),
    If(BlockType),
    Else,
    End,
    Br(u32),
    BrIf(u32),
    BrTable(BranchTable),
    Return,
    Call(u32),
    CallIndirect(u32),
    Drop,
    Select,
    LocalGet(u32),
    LocalSet(u32),
    LocalTee(u32),
    GlobalGet(u32),
    GlobalSet(u32),
    Load(LoadOperator, MemArg),
    Store(StoreOperator, MemArg),
    MemorySize,
    MemoryGrow,
    MemoryCopy,
    MemoryFill,
    /// The constant, modulo 2 ^ 32.
    I32Const(u32),
    /// The constant, modulo 2 ^ 64.
    I64Const(u64),
    /// The bits of the constant.
    F32Const(u32),
    /// The bits of the constant.
    F64Const(u64),
    Eqz(IntegerType),
    Compare(IntegerType, Comparison),
    Unary(IntegerType, UnaryOperator),
    Binary(IntegerType, BinaryOperator),
    I32WrapI64,
    I64ExtendI32S,
    I64ExtendI32U,
    Float(FloatOperator),
}

// A body's instructions are read one after the other, so they are to be small.
const _: () = prove!(size_of::<Instruction>() <= 16);

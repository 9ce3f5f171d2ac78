//! Loads and stores: the number that each has, and its bytes of memory (section 2.4.4).

ghost use Rattle.std.specs.Prelude.{◌≡◌};
ghost use Rattle.wasm_syntax.specs.Accesses.{load_access, store_access};

use crate::instruction::ValueType;

/// A load, by the standard's name of its instruction.
#[derive(Clone, Copy)]
pub enum LoadOperator {
    I32Load,
    I64Load,
    F32Load,
    F64Load,
    I32Load8S,
    I32Load8U,
    I32Load16S,
    I32Load16U,
    I64Load8S,
    I64Load8U,
    I64Load16S,
    I64Load16U,
    I64Load32S,
    I64Load32U,
}

/// A store, by the standard's name of its instruction.
#[derive(Clone, Copy)]
pub enum StoreOperator {
    I32Store,
    I64Store,
    F32Store,
    F64Store,
    I32Store8,
    I32Store16,
    I64Store8,
    I64Store16,
    I64Store32,
}

/// A number of this type that has 2 ^ `width` bytes of memory.
#[derive(Clone, Copy)]
pub struct Access {
    pub value_type: ValueType,
    pub width: u32,
}

impl LoadOperator {
    /// What it reads.
    pub fn access(self) -> Access
        ensures { result ≡ load_access self }
    {
        let (value_type, width) = match self {
            LoadOperator::I32Load => (ValueType::I32, 2),
            LoadOperator::I64Load => (ValueType::I64, 3),
            LoadOperator::F32Load => (ValueType::F32, 2),
            LoadOperator::F64Load => (ValueType::F64, 3),
            LoadOperator::I32Load8S | LoadOperator::I32Load8U => (ValueType::I32, 0),
            LoadOperator::I32Load16S | LoadOperator::I32Load16U => (ValueType::I32, 1),
            LoadOperator::I64Load8S | LoadOperator::I64Load8U => (ValueType::I64, 0),
            LoadOperator::I64Load16S | LoadOperator::I64Load16U => (ValueType::I64, 1),
            LoadOperator::I64Load32S | LoadOperator::I64Load32U => (ValueType::I64, 2),
        };
        Access { value_type, width }
    }
}

impl StoreOperator {
    /// What it writes.
    pub fn access(self) -> Access
        ensures { result ≡ store_access self }
    {
        let (value_type, width) = match self {
            StoreOperator::I32Store => (ValueType::I32, 2),
            StoreOperator::I64Store => (ValueType::I64, 3),
            StoreOperator::F32Store => (ValueType::F32, 2),
            StoreOperator::F64Store => (ValueType::F64, 3),
            StoreOperator::I32Store8 => (ValueType::I32, 0),
            StoreOperator::I32Store16 => (ValueType::I32, 1),
            StoreOperator::I64Store8 => (ValueType::I64, 0),
            StoreOperator::I64Store16 => (ValueType::I64, 1),
            StoreOperator::I64Store32 => (ValueType::I64, 2),
        };
        Access { value_type, width }
    }
}

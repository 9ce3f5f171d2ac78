//! WebAssembly modules, decoded from the binary format.
#![tactic(auto)]

mod code;
mod cursor;
mod decoding;
mod floats;
mod limits;
mod parts;

pub use decoding::{decode, decode_with, one_module, one_module_with};
pub use wasm_syntax::accesses::{Access, LoadOperator, StoreOperator};
pub use wasm_syntax::fault::LoadFault;
pub use wasm_syntax::instruction::{
    BinaryOperator, BlockType, BranchTable, Comparison, FloatBinaryOperator, FloatComparison,
    FloatOperator, FloatType, FloatUnaryOperator, Instruction, IntegerType, MemArg, UnaryOperator,
    ValueType,
};
pub use wasm_syntax::items::{Bytes, Items, Name};
pub use wasm_syntax::module::{
    Body, DataSegment, ElementSegment, Export, ExportKind, FuncType, GlobalEntry, GlobalType,
    Import, ImportKind, Limits, Locals, Module,
};
pub use wasm_syntax::number::Sign;
pub use wasm_syntax::profile::Profile;
pub use wasm_syntax::shared_laws::{floats_take_more, integers_alone};

//! What the parts of a module are read from (sections 5.3 to 5.5).

ghost use Rattle.wasm_syntax.specs.internal.CodeReading.{code_at};
ghost use Rattle.wasm_module.specs.internal.ModuleReading.{body_of};
ghost use Rattle.wasm_syntax.specs.Reading.{Gives, many_at};
ghost use Rattle.wasm_syntax.specs.internal.TypesReading.{value_type_of, with_floats, table_at, mutability_at};

use crate::cursor::{Cursor, Decode};
use std::alloc::Global;
use std::marker::Model;
use wasm_syntax::fault::LoadFault;
use wasm_syntax::instruction::{BlockType, Instruction, ValueType};
use wasm_syntax::items::{Bytes, Items};
use wasm_syntax::module::{
    Body, DataSegment, ElementSegment, Export, ExportKind, FuncType, GlobalEntry, GlobalType,
    Import, ImportKind, Limits, Locals,
};
use wasm_syntax::profile::Profile;

/// How many elements a table has at most at the beginning.
const MOST_ELEMENTS: u32 = 1_000_000;

fn value_type(profile: Profile, byte: u8, offset: u32) -> Result<ValueType, LoadFault>
    ensures { Gives (λ t. t) result (value_type_of profile byte) }
{
    match byte {
        0x7F => Ok(ValueType::I32),
        0x7E => Ok(ValueType::I64),
        0x7D => float_type(profile, ValueType::F32, offset),
        0x7C => float_type(profile, ValueType::F64, offset),
        _ => Err(LoadFault::BadByte { offset }),
    }
}

/// This type of floats, where they are taken.
fn float_type(profile: Profile, float: ValueType, offset: u32) -> Result<ValueType, LoadFault>
    ensures { Gives (λ t. t) result (with_floats profile float) }
{
    match profile {
        Profile::Integers => Err(LoadFault::Float { offset }),
        Profile::Floats => Ok(float),
    }
}

impl<'a> Decode<'a> for ValueType {
    ghost use Rattle.wasm_syntax.specs.internal.TypesReading.{value_type_at};

    ghost at = { value_type_at };

    #[tactic(auto, unfolding(wasm_syntax::specs::internal::TypesReading::value_type_at))]
    fn decode(
        _alloc: Global,
        cursor: &mut Cursor<'a>,
        profile: Profile,
    ) -> Result<ValueType, LoadFault> {
        let offset = cursor.offset();
        value_type(profile, cursor.byte()?, offset)
    }
}

impl<'a> Decode<'a> for BlockType {
    ghost use Rattle.wasm_syntax.specs.internal.TypesReading.{block_type_at};

    ghost at = { block_type_at };

    #[tactic(auto, unfolding(wasm_syntax::specs::internal::TypesReading::block_type_at))]
    fn decode(
        _alloc: Global,
        cursor: &mut Cursor<'a>,
        profile: Profile,
    ) -> Result<BlockType, LoadFault> {
        let offset = cursor.offset();
        match cursor.byte()? {
            0x40 => Ok(BlockType::Empty),
            byte => Ok(BlockType::Value(value_type(profile, byte, offset)?)),
        }
    }
}

impl<'a> Decode<'a> for FuncType {
    ghost use Rattle.wasm_syntax.specs.internal.TypesReading.{func_type_at};

    ghost at = { func_type_at };

    #[tactic(auto, unfolding(wasm_syntax::specs::internal::TypesReading::func_type_at))]
    fn decode(
        alloc: Global,
        cursor: &mut Cursor<'a>,
        profile: Profile,
    ) -> Result<FuncType, LoadFault> {
        let offset = cursor.offset();
        cursor.expect(0x60, LoadFault::BadByte { offset })?;
        let (params, results) = Decode::decode(alloc, cursor, profile)?;
        Ok(FuncType { params, results })
    }
}

impl<'a> Decode<'a> for Limits {
    ghost use Rattle.wasm_syntax.specs.internal.TypesReading.{limits_at, bounds_after};

    ghost at = { λ p. limits_at };

    #[tactic(auto, unfolding(wasm_syntax::specs::internal::TypesReading::limits_at, wasm_syntax::specs::internal::TypesReading::bounds_after))]
    fn decode(
        alloc: Global,
        cursor: &mut Cursor<'a>,
        profile: Profile,
    ) -> Result<Limits, LoadFault> {
        let offset = cursor.offset();
        match cursor.byte()? {
            0x00 => {
                let min = cursor.u32()?;
                Ok(Limits { min, max: None })
            }
            0x01 => {
                let (min, max) = Decode::decode(alloc, cursor, profile)?;
                Ok(Limits {
                    min,
                    max: Some(max),
                })
            }
            _ => Err(LoadFault::BadByte { offset }),
        }
    }
}

/// A table's type (section 5.3.6).
#[tactic(auto, unfolding(wasm_syntax::specs::internal::TypesReading::table_at))]
fn table_type(alloc: Global, cursor: &mut Cursor<'_>, profile: Profile) -> Result<Limits, LoadFault>
    ensures { Gives (λ x. (x, cursor.new)) result (table_at cursor.old) }
{
    let offset = cursor.offset();
    cursor.expect(0x70, LoadFault::BadByte { offset })?;
    let flag = cursor.offset();
    let limits = Limits::decode(alloc, cursor, profile)?;
    if limits.min > MOST_ELEMENTS {
        let offset = flag.saturating_add(1);
        return Err(LoadFault::Limit { offset });
    }
    Ok(limits)
}

/// The tables' types, where a plain list of limits is of memories.
#[derive(Drop)]
pub struct Tables {
    pub limits: Items<Limits>,
}

impl Model for Tables {
    ghost use Rattle.std.specs.Prelude.{List};
    ghost use Rattle.wasm_syntax.specs.declared.module.Limits.{Limits};

    ghost Value = { List Limits };

    ghost view = { λ t. t.limits };
}

#[tactic(auto, using(crate::proofs::Steps::many_more, crate::proofs::Steps::many_done))]
fn table_types(
    alloc: Global,
    cursor: &mut Cursor<'_>,
    profile: Profile,
    count: u32,
) -> Result<Vec<Limits>, LoadFault>
    ensures { Gives (λ x. (x.items, cursor.new)) result (many_at table_at count cursor.old) }
{
    let mut tables = cursor.room(alloc, count)?;
    for _ in 0..count {
        tables.push(table_type(alloc, cursor, profile)?)?;
    }
    Ok(tables)
}

impl<'a> Decode<'a> for Tables {
    ghost use Rattle.wasm_syntax.specs.Reading.{vector_at};

    ghost at = { λ p. vector_at table_at };

    #[tactic(auto, unfolding(wasm_syntax::specs::Reading::vector_at))]
    fn decode(
        alloc: Global,
        cursor: &mut Cursor<'a>,
        profile: Profile,
    ) -> Result<Tables, LoadFault> {
        let offset = cursor.offset();
        let count = cursor.u32()?;
        let limits = Items::from_vec(table_types(alloc, cursor, profile, count)?, offset);
        Ok(Tables { limits })
    }
}

/// Whether a global may change.
impl<'a> Decode<'a> for bool {
    ghost at = { λ p. mutability_at };

    #[tactic(auto, unfolding(wasm_syntax::specs::internal::TypesReading::mutability_at))]
    fn decode(
        _alloc: Global,
        cursor: &mut Cursor<'a>,
        _profile: Profile,
    ) -> Result<bool, LoadFault> {
        let offset = cursor.offset();
        match cursor.byte()? {
            0x00 => Ok(false),
            0x01 => Ok(true),
            _ => Err(LoadFault::BadByte { offset }),
        }
    }
}

impl<'a> Decode<'a> for GlobalType {
    ghost use Rattle.wasm_syntax.specs.internal.TypesReading.{global_type_at};

    ghost at = { global_type_at };

    #[tactic(auto, unfolding(wasm_syntax::specs::internal::TypesReading::global_type_at))]
    fn decode(
        alloc: Global,
        cursor: &mut Cursor<'a>,
        profile: Profile,
    ) -> Result<GlobalType, LoadFault> {
        let (value_type, mutable) = Decode::decode(alloc, cursor, profile)?;
        Ok(GlobalType {
            value_type,
            mutable,
        })
    }
}

impl<'a> Decode<'a> for u32 {
    ghost use Rattle.wasm_syntax.specs.Reading.{u32_at};

    ghost at = { λ p. u32_at };

    fn decode(
        _alloc: Global,
        cursor: &mut Cursor<'a>,
        _profile: Profile,
    ) -> Result<u32, LoadFault> {
        cursor.u32()
    }
}

impl<'a, T: Decode<'a>> Decode<'a> for Items<T> {
    ghost use Rattle.wasm_syntax.specs.Reading.{vector_at};

    ghost at = { λ p. vector_at (T.at p) };

    fn decode(
        alloc: Global,
        cursor: &mut Cursor<'a>,
        profile: Profile,
    ) -> Result<Items<T>, LoadFault> {
        cursor.vector(alloc, profile)
    }
}

/// A constant expression: a constant and the end, where a plain list is a vector of the format.
#[derive(Drop)]
struct Expression {
    code: Items<Instruction>,
}

impl Model for Expression {
    ghost use Rattle.std.specs.Prelude.{List};
    ghost use Rattle.wasm_syntax.specs.declared.instruction.Instruction.{Instruction};

    ghost Value = { List Instruction };

    ghost view = { λ e. e.code };
}

impl<'a> Decode<'a> for Expression {
    ghost at = { code_at };

    fn decode(
        alloc: Global,
        cursor: &mut Cursor<'a>,
        profile: Profile,
    ) -> Result<Expression, LoadFault> {
        let code = cursor.code(alloc, profile, 2)?;
        Ok(Expression { code })
    }
}

/// The instructions of a function.
#[derive(Drop)]
struct FunctionCode {
    code: Items<Instruction>,
}

impl Model for FunctionCode {
    ghost use Rattle.std.specs.Prelude.{List};
    ghost use Rattle.wasm_syntax.specs.declared.instruction.Instruction.{Instruction};

    ghost Value = { List Instruction };

    ghost view = { λ e. e.code };
}

impl<'a> Decode<'a> for FunctionCode {
    ghost at = { code_at };

    // Compilers write two bytes and more for an instruction, as a mean.
    fn decode(
        alloc: Global,
        cursor: &mut Cursor<'a>,
        profile: Profile,
    ) -> Result<FunctionCode, LoadFault> {
        let code = cursor.code(alloc, profile, cursor.len() / 2 + 1)?;
        Ok(FunctionCode { code })
    }
}

impl<'a> Decode<'a> for ImportKind {
    ghost use Rattle.wasm_module.specs.internal.ModuleReading.{import_kind_at, import_after};

    ghost at = { import_kind_at };

    #[tactic(auto, unfolding(crate::specs::internal::ModuleReading::import_kind_at, crate::specs::internal::ModuleReading::import_after))]
    fn decode(
        alloc: Global,
        cursor: &mut Cursor<'a>,
        profile: Profile,
    ) -> Result<ImportKind, LoadFault> {
        let offset = cursor.offset();
        match cursor.byte()? {
            0x00 => Ok(ImportKind::Function(cursor.u32()?)),
            0x01 => Ok(ImportKind::Table(table_type(alloc, cursor, profile)?)),
            0x02 => Ok(ImportKind::Memory(Limits::decode(alloc, cursor, profile)?)),
            0x03 => Ok(ImportKind::Global(GlobalType::decode(alloc, cursor, profile)?)),
            _ => Err(LoadFault::BadByte { offset }),
        }
    }
}

impl<'a> Decode<'a> for Import<'a> {
    ghost use Rattle.wasm_module.specs.internal.ModuleReading.{import_at};

    ghost at = { import_at };

    #[tactic(auto, unfolding(crate::specs::internal::ModuleReading::import_at))]
    fn decode(
        alloc: Global,
        cursor: &mut Cursor<'a>,
        profile: Profile,
    ) -> Result<Import<'a>, LoadFault> {
        let (module_name, (name, kind)) = Decode::decode(alloc, cursor, profile)?;
        Ok(Import {
            module_name,
            name,
            kind,
        })
    }
}

impl<'a> Decode<'a> for GlobalEntry {
    ghost use Rattle.wasm_module.specs.internal.ModuleReading.{global_at};

    ghost at = { global_at };

    #[tactic(auto, unfolding(crate::specs::internal::ModuleReading::global_at))]
    fn decode(
        alloc: Global,
        cursor: &mut Cursor<'a>,
        profile: Profile,
    ) -> Result<GlobalEntry, LoadFault> {
        let (global_type, init): (GlobalType, Expression) = Decode::decode(alloc, cursor, profile)?;
        Ok(GlobalEntry {
            global_type,
            init: init.code,
        })
    }
}

impl<'a> Decode<'a> for ExportKind {
    ghost use Rattle.wasm_module.specs.internal.ModuleReading.{export_kind_at, export_after};

    ghost at = { λ p. export_kind_at };

    #[tactic(auto, unfolding(crate::specs::internal::ModuleReading::export_kind_at, crate::specs::internal::ModuleReading::export_after))]
    fn decode(
        _alloc: Global,
        cursor: &mut Cursor<'a>,
        _profile: Profile,
    ) -> Result<ExportKind, LoadFault> {
        let offset = cursor.offset();
        let byte = cursor.byte()?;
        if byte > 0x03 {
            return Err(LoadFault::BadByte { offset });
        }
        let index = cursor.u32()?;
        match byte {
            0x00 => Ok(ExportKind::Function(index)),
            0x01 => Ok(ExportKind::Table(index)),
            0x02 => Ok(ExportKind::Memory(index)),
            _ => Ok(ExportKind::Global(index)),
        }
    }
}

impl<'a> Decode<'a> for Export<'a> {
    ghost use Rattle.wasm_module.specs.internal.ModuleReading.{export_at};

    ghost at = { λ p. export_at };

    #[tactic(auto, unfolding(crate::specs::internal::ModuleReading::export_at))]
    fn decode(
        alloc: Global,
        cursor: &mut Cursor<'a>,
        profile: Profile,
    ) -> Result<Export<'a>, LoadFault> {
        let (name, kind) = Decode::decode(alloc, cursor, profile)?;
        Ok(Export { name, kind })
    }
}

impl<'a> Decode<'a> for ElementSegment {
    ghost use Rattle.wasm_module.specs.internal.ModuleReading.{elements_at};

    ghost at = { elements_at };

    #[tactic(auto, unfolding(crate::specs::internal::ModuleReading::elements_at))]
    fn decode(
        alloc: Global,
        cursor: &mut Cursor<'a>,
        profile: Profile,
    ) -> Result<ElementSegment, LoadFault> {
        let (table, (offset, functions)): (u32, (Expression, Items<u32>)) = Decode::decode(
            alloc, cursor, profile,
        )?;
        Ok(ElementSegment {
            table,
            offset: offset.code,
            functions,
        })
    }
}

impl<'a> Decode<'a> for Locals {
    ghost use Rattle.wasm_module.specs.internal.ModuleReading.{locals_at};

    ghost at = { locals_at };

    #[tactic(auto, unfolding(crate::specs::internal::ModuleReading::locals_at))]
    fn decode(
        alloc: Global,
        cursor: &mut Cursor<'a>,
        profile: Profile,
    ) -> Result<Locals, LoadFault> {
        let (count, value_type) = Decode::decode(alloc, cursor, profile)?;
        Ok(Locals { count, value_type })
    }
}

/// A function's body, which fills the bytes; its size stands at this offset.
#[tactic(auto, unfolding(crate::specs::internal::ModuleReading::body_of))]
fn body<'a>(
    alloc: Global,
    cursor: Cursor<'a>,
    profile: Profile,
    size: u32,
) -> Result<Body<'a>, LoadFault>
    ensures { Gives (λ b. b) result (body_of profile cursor.entry) }
{
    let bytes = cursor.bytes();
    let (locals, code): (Items<Locals>, FunctionCode) = cursor.whole(alloc, profile, size)?;
    Ok(Body {
        bytes,
        locals,
        code: code.code,
    })
}

impl<'a> Decode<'a> for Body<'a> {
    ghost use Rattle.wasm_module.specs.internal.ModuleReading.{body_at};

    ghost at = { body_at };

    #[tactic(auto, unfolding(crate::specs::internal::ModuleReading::body_at))]
    fn decode(
        alloc: Global,
        cursor: &mut Cursor<'a>,
        profile: Profile,
    ) -> Result<Body<'a>, LoadFault> {
        let offset = cursor.offset();
        match body(alloc, cursor.sized_piece()?, profile, offset) {
            Ok(body) => Ok(body),
            Err(fault) => Err(fault.inside(offset)),
        }
    }
}

impl<'a> Decode<'a> for DataSegment<'a> {
    ghost use Rattle.wasm_module.specs.internal.ModuleReading.{data_at};

    ghost at = { data_at };

    #[tactic(auto, unfolding(crate::specs::internal::ModuleReading::data_at))]
    fn decode(
        alloc: Global,
        cursor: &mut Cursor<'a>,
        profile: Profile,
    ) -> Result<DataSegment<'a>, LoadFault> {
        let (memory, (offset, bytes)): (u32, (Expression, Bytes<'a>)) = Decode::decode(
            alloc, cursor, profile,
        )?;
        Ok(DataSegment {
            memory,
            offset: offset.code,
            bytes,
        })
    }
}

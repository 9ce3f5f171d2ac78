//! A decoded module (section 2.5).

use crate::instruction::{Instruction, ValueType};
use crate::items::{Bytes, Items, Name};

/// A function's type (section 2.3.3).
#[derive(Drop)]
pub struct FuncType {
    pub params: Items<ValueType>,
    pub results: Items<ValueType>,
}

/// How large a memory (in pages of 65,536 bytes) or a table (in elements) is and may get
/// (section 2.3.4).
#[derive(Clone, Copy, PartialEq, Eq)]
pub struct Limits {
    pub min: u32,
    pub max: Option<u32>,
}

/// A global's type (section 2.3.7).
#[derive(Clone, Copy)]
pub struct GlobalType {
    pub value_type: ValueType,
    pub mutable: bool,
}

/// What is imported; a function by its type's index.
#[derive(Clone, Copy)]
pub enum ImportKind {
    Function(u32),
    Table(Limits),
    Memory(Limits),
    Global(GlobalType),
}

/// An import (section 2.5.11).
#[derive(Drop)]
pub struct Import<'a> {
    pub module_name: Name<'a>,
    pub name: Name<'a>,
    pub kind: ImportKind,
}

/// What is exported, by its index.
#[derive(Clone, Copy, PartialEq, Eq)]
pub enum ExportKind {
    Function(u32),
    Table(u32),
    Memory(u32),
    Global(u32),
}

/// An export (section 2.5.10).
#[derive(Drop)]
pub struct Export<'a> {
    pub name: Name<'a>,
    pub kind: ExportKind,
}

/// A global of the module's own, with the expression of its first value (section 2.5.6).
#[derive(Drop)]
pub struct GlobalEntry {
    pub global_type: GlobalType,
    pub init: Items<Instruction>,
}

/// Functions that stand in a table from the start (section 2.5.7).
#[derive(Drop)]
pub struct ElementSegment {
    pub table: u32,
    pub offset: Items<Instruction>,
    pub functions: Items<u32>,
}

/// This many locals of one type.
#[derive(Clone, Copy)]
pub struct Locals {
    pub count: u32,
    pub value_type: ValueType,
}

/// The body of a function: its bytes, the locals and the instructions that they say
/// (section 2.5.3).
#[derive(Drop)]
pub struct Body<'a> {
    pub bytes: Bytes<'a>,
    pub locals: Items<Locals>,
    pub code: Items<Instruction>,
}

/// Bytes that stand in memory from the start (section 2.5.8).
#[derive(Drop)]
pub struct DataSegment<'a> {
    pub memory: u32,
    pub offset: Items<Instruction>,
    pub bytes: Bytes<'a>,
}

/// A module. Its functions have their types' indices in `functions` and their bodies in `bodies`.
#[derive(Drop)]
pub struct Module<'a> {
    pub types: Items<FuncType>,
    pub imports: Items<Import<'a>>,
    pub functions: Items<u32>,
    pub tables: Items<Limits>,
    pub memories: Items<Limits>,
    pub globals: Items<GlobalEntry>,
    pub exports: Items<Export<'a>>,
    pub start: Option<u32>,
    pub element_segments: Items<ElementSegment>,
    pub bodies: Items<Body<'a>>,
    pub data_segments: Items<DataSegment<'a>>,
}

//! Loads, stores, and what else works on memory, with the operands on top.

ghost use Rattle.std.specs.Prelude.{◌≡◌, ◌<◌, ◌≤◌, ◌^◌, ◌+◌, drop, length, reverse, slice_index, vec_capacity, IfSome, IfNone};
ghost use Rattle.std.specs.Bool.{OnTrue, OnFalse};
ghost use Rattle.wasm_syntax.specs.declared.instruction.Instruction.TheVariants.{Load, Store};
ghost use Rattle.wasm_syntax.specs.declared.instruction.ValueType.TheVariants.{I32};
ghost use Rattle.wasm_steps.specs.Steps.{load_of, store_of};
ghost use Rattle.wasm_operands.specs.internal.Plain.Performing.{HasOne, HasThree, HasAddress, Misses, Writes, Overruns, Loads, Stores, Grows, Copies, CopyMisses, Fills, FillMisses};
ghost use Rattle.wasm_lowering.specs.Tables.{LoadGives};

use crate::operands::{operand, remove, replace};
use crate::reads::{
    read_8, read_8_to_32, read_8_to_64, read_16, read_16_to_32, read_16_to_64, read_32,
    read_32_to_64,
};
use crate::stores::{low_8, low_16, low_32};
use wasm_module::{LoadOperator, MemArg, StoreOperator};
use wasm_store::Memory;

/// The number that a load gives, where its bytes are in memory.
fn read(memory: &Memory, operator: LoadOperator, memarg: MemArg, base: u32) -> Option<u64>
    ensures inside { IfSome result (λ x. LoadGives (load_of (Load operator memarg)) memory.now base
        x) }
    ensures outside { IfNone result (Misses (load_of (Load operator memarg)) memory.now base) }
{
    let offset = memarg.offset;
    match operator {
        LoadOperator::I32Load | LoadOperator::F32Load | LoadOperator::I64Load32U => {
            read_32(memory, base, offset)
        }
        LoadOperator::I64Load | LoadOperator::F64Load => memory.load_u64(base, offset),
        LoadOperator::I32Load8S => read_8_to_32(memory, base, offset),
        LoadOperator::I32Load8U | LoadOperator::I64Load8U => read_8(memory, base, offset),
        LoadOperator::I32Load16S => read_16_to_32(memory, base, offset),
        LoadOperator::I32Load16U | LoadOperator::I64Load16U => read_16(memory, base, offset),
        LoadOperator::I64Load8S => read_8_to_64(memory, base, offset),
        LoadOperator::I64Load16S => read_16_to_64(memory, base, offset),
        LoadOperator::I64Load32S => read_32_to_64(memory, base, offset),
    }
}

/// A load: the number at the address on top, or nothing where it would pass the end. What it reads is in the first part from now on,
/// so the loop reads it the next time.
pub fn load_top(
    values: &mut Vec<u64>,
    memory: &mut Memory,
    operator: LoadOperator,
    memarg: MemArg,
) -> bool
    requires { HasOne I32 (reverse values.old.items) }
    ensures inside { OnTrue result (Loads (load_of (Load operator memarg))
        (reverse values.old.items) memory.old (reverse values.new.items)) }
    ensures outside { OnFalse result (Misses (load_of (Load operator memarg)) memory.old
        (slice_index (reverse values.old.items) 0) × (values.new.items ≡ values.old.items)) }
    ensures same { memory.new ≡ memory.old }
    ensures room { vec_capacity values.new ≡ vec_capacity values.old }
{
    let base = operand(values, 0) as u32;
    memory.reach(base, memarg.offset);
    match read(memory, operator, memarg, base) {
        Some(x) => {
            replace(values, 1, x);
            true
        }
        None => false,
    }
}

/// Writes what a store writes of a number, or nothing where it would pass the end.
fn write(memory: &mut Memory, operator: StoreOperator, memarg: MemArg, base: u32, x: u64) -> bool
    ensures inside { OnTrue result (Writes (store_of (Store operator memarg)) memory.old base x
        memory.new) }
    ensures outside { OnFalse result (Overruns (store_of (Store operator memarg)) memory.old base
        × (memory.new ≡ memory.old)) }
{
    match operator {
        StoreOperator::I32Store | StoreOperator::I64Store32 | StoreOperator::F32Store => {
            memory.store_u32(base, memarg.offset, low_32(x))
        }
        StoreOperator::I64Store | StoreOperator::F64Store => {
            memory.store_u64(base, memarg.offset, x)
        }
        StoreOperator::I32Store8 | StoreOperator::I64Store8 => {
            memory.store_u8(base, memarg.offset, low_8(x))
        }
        StoreOperator::I32Store16 | StoreOperator::I64Store16 => {
            memory.store_u16(base, memarg.offset, low_16(x))
        }
    }
}

/// A store: the number on top, at the address below it, or nothing where it would pass the end.
pub fn store_top(
    values: &mut Vec<u64>,
    memory: &mut Memory,
    operator: StoreOperator,
    memarg: MemArg,
) -> bool
    requires { HasAddress (reverse values.old.items) }
    ensures inside { OnTrue result (Stores (store_of (Store operator memarg))
        (reverse values.old.items) memory.old (reverse values.new.items) memory.new) }
    ensures outside { OnFalse result (Overruns (store_of (Store operator memarg)) memory.old
        (slice_index (reverse values.old.items) 1) × (memory.new ≡ memory.old)
        × (values.new.items ≡ values.old.items)) }
    ensures room { vec_capacity values.new ≡ vec_capacity values.old }
{
    let x = operand(values, 0);
    let base = operand(values, 1) as u32;
    if !write(memory, operator, memarg, base, x) {
        return false;
    }
    remove(values, 2);
    true
}

/// `memory.grow` to at most `limit` pages: one value is replaced, by the pages before, or by -1 where it is refused: past the limit,
/// or where memory is refused.
pub fn grow_top(values: &mut Vec<u64>, memory: &mut Memory, limit: u32)
    requires { HasOne I32 (reverse values.old.items) }
    ensures grown { Grows limit (reverse values.old.items) memory.old (reverse values.new.items)
        memory.new }
    ensures room { vec_capacity values.new ≡ vec_capacity values.old }
{
    let pages = operand(values, 0) as u32;
    match memory.grow(pages, limit) {
        Some(before) => replace(values, 1, u64::from(before)),
        None => replace(values, 1, 0xffff_ffff),
    }
}

/// `memory.copy`, or nothing where either range passes the end.
pub fn copy_top(values: &mut Vec<u64>, memory: &mut Memory) -> bool
    requires { HasThree I32 (reverse values.old.items) }
    ensures inside { OnTrue result (Copies (reverse values.old.items) memory.old
        (reverse values.new.items) memory.new) }
    ensures outside { OnFalse result (CopyMisses (reverse values.old.items) memory.old
        × (memory.new ≡ memory.old) × (values.new.items ≡ values.old.items)) }
    ensures room { vec_capacity values.new ≡ vec_capacity values.old }
{
    let len = operand(values, 0) as u32;
    let source = operand(values, 1) as u32;
    let target = operand(values, 2) as u32;
    if !memory.copy(target, source, len) {
        return false;
    }
    remove(values, 3);
    true
}

/// `memory.fill`, or nothing where its range passes the end.
pub fn fill_top(values: &mut Vec<u64>, memory: &mut Memory) -> bool
    requires { HasThree I32 (reverse values.old.items) }
    ensures inside { OnTrue result (Fills (reverse values.old.items) memory.old
        (reverse values.new.items) memory.new) }
    ensures outside { OnFalse result (FillMisses (reverse values.old.items) memory.old
        × (memory.new ≡ memory.old) × (values.new.items ≡ values.old.items)) }
    ensures room { vec_capacity values.new ≡ vec_capacity values.old }
{
    let len = operand(values, 0) as u32;
    let value = (operand(values, 1) & 0xff) as u8;
    let target = operand(values, 2) as u32;
    if !memory.fill(target, value, len) {
        return false;
    }
    remove(values, 3);
    true
}

//! What the instructions of a body are typed in (section 3.1.1).

ghost use Rattle.std.specs.Prelude.{◌≡◌, ◌≤◌, ◌&&◌, length, nat_le, slice_get, IfSome};
ghost use Rattle.std.specs.Option.{option_copied};
ghost use Rattle.wasm_valid.specs.Arities.{results_of};
ghost use Rattle.wasm_valid.specs.Typing.{Context};
ghost use Rattle.wasm_valid.specs.internal.Stack.{if_true};
ghost use Rattle.wasm_valid.specs.internal.Effects.{variable_effect};

use crate::effects::{Effect, MemoryEffect, Takes, numeric, on_memory};
use crate::locals::LocalTypes;
use crate::module_context::ModuleContext;
use wasm_module::{BlockType, FuncType, GlobalType, Instruction, ValueType};

/// What a body's instructions are typed in.
#[derive(Drop)]
pub struct FunctionContext<'s, 'm> {
    pub module_context: &'s ModuleContext<'m>,
    pub locals: LocalTypes<'m>,
    /// What the function returns.
    pub returns: BlockType,
}

/// What a function of this type returns, which is one value at most.
pub fn result_type(function: &FuncType) -> BlockType
    requires { length function.now.results ≤ 1 }
    ensures { results_of result ≡ function.now.results }
{
    match function.results.as_slice() {
        [value_type] => BlockType::Value(*value_type),
        _ => BlockType::Empty,
    }
}

impl<'m> ModuleContext<'m> {
    ghost use Rattle.std.specs.Prelude.{◌↔◌, [], Some, IsTrue};
    ghost use Rattle.wasm_valid.specs.internal.Contexts.{IsModuleContext};

    /// The type of a function.
    pub fn function(&self, index: u32) -> Option<&'m FuncType>
        ensures found { (c : Context) → IsModuleContext self.now c
            → option_copied result ≡ slice_get c.functions index }
        ensures one_result { IfSome result (λ f. length f.now.results ≤ 1) }
    {
        let type_index = self.type_indices.get(index as usize)?;
        self.types.get(*type_index as usize)
    }

    /// Whether a function has no parameters and no results.
    pub fn can_start(&self, index: u32) -> bool
        ensures { (c : Context) → IsModuleContext self.now c → (IsTrue result
            ↔ (slice_get c.functions index ≡ Some (record { params = []; results = [] }))) }
    {
        match self.function(index) {
            Some(function) => function.params.is_empty() && function.results.is_empty(),
            None => false,
        }
    }
}

impl<'s, 'm> FunctionContext<'s, 'm> {
    ghost use Rattle.wasm_valid.specs.internal.Contexts.{IsFunctionContext};

    /// The type that has this index.
    pub fn type_at(&self, index: u32) -> Option<&'m FuncType>
        ensures found { (c : Context) → IsFunctionContext self.now c
            → option_copied result ≡ slice_get c.types index }
        ensures one_result { IfSome result (λ f. length f.now.results ≤ 1) }
    {
        self.module_context.types.get(index as usize)
    }

    /// The type of a local.
    fn local(&self, index: u32) -> Option<ValueType>
        ensures { (c : Context) → IsFunctionContext self.now c → result ≡ slice_get c.locals index }
    {
        self.locals.get(index)
    }

    /// The type of a global.
    fn global(&self, index: u32) -> Option<GlobalType>
        ensures { (c : Context) → IsFunctionContext self.now c
            → result ≡ slice_get c.globals index }
    {
        self.module_context.globals.get(index as usize).copied()
    }

    /// The type of an instruction on memory, if there is one.
    fn memory_effect(&self, access: MemoryEffect) -> Option<Effect>
        ensures { (c : Context) → IsFunctionContext self.now c
            → result ≡ if_true (c.has_memory && nat_le access.align access.most) access.effect }
    {
        (self.module_context.has_memory && access.align <= access.most).then_some(access.effect)
    }

    /// The type of an instruction that has one type here; None for any other.
    pub fn effect(&self, instruction: &Instruction) -> Option<Effect>
        ensures { (c : Context) → IsFunctionContext self.now c
            → result ≡ variable_effect c instruction.now }
    {
        match instruction {
            Instruction::LocalGet(index) => {
                let value_type = self.local(*index)?;
                Some(Effect::new(Takes::Nothing, BlockType::Value(value_type)))
            }
            Instruction::LocalSet(index) => {
                let value_type = self.local(*index)?;
                Some(Effect::new(Takes::One(value_type), BlockType::Empty))
            }
            Instruction::LocalTee(index) => {
                let value_type = self.local(*index)?;
                Some(Effect::new(Takes::One(value_type), BlockType::Value(value_type)))
            }
            Instruction::GlobalGet(index) => {
                let global = self.global(*index)?;
                Some(Effect::new(Takes::Nothing, BlockType::Value(global.value_type)))
            }
            Instruction::GlobalSet(index) => {
                let global = self.global(*index)?;
                global.mutable.then_some(Effect::new(
                    Takes::One(global.value_type),
                    BlockType::Empty,
                ))
            }
            _ => match on_memory(instruction) {
                Some(access) => self.memory_effect(access),
                None => numeric(instruction),
            },
        }
    }
}

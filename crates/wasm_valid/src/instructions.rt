//! Plain instructions (section 3.3): what each makes of the operands.

ghost use Rattle.std.specs.Prelude.{◌≡◌, slice_get, IfOk, ◌∷◌, []};
ghost use Rattle.std.specs.Option.{option_map, option_and_then};
ghost use Rattle.wasm_syntax.specs.declared.instruction.ValueType.TheVariants.{I32};
ghost use Rattle.wasm_valid.specs.Arities.{results_of};
ghost use Rattle.wasm_valid.specs.Typing.{Context};
ghost use Rattle.wasm_valid.specs.internal.Stack.{when, left, moved};
ghost use Rattle.wasm_valid.specs.internal.Effects.{taken, keeps, table_label, called, called_indirect, variable_effect, applied, after};
ghost use Rattle.wasm_valid.specs.internal.Operands.{control_frame_labels, StepsTo};
ghost use Rattle.wasm_valid.specs.internal.Contexts.{IsFunctionContext};

use crate::control_frames::ControlFrames;
use crate::effects::{Effect, Takes};
use crate::function_context::{FunctionContext, result_type};
use crate::operands::OperandStack;
use std::alloc::AllocError;
use wasm_module::{BlockType, BranchTable, Instruction, ValueType};

/// What a branch that keeps this takes.
fn kept(label: BlockType) -> Takes
    ensures { taken result ≡ results_of label }
{
    match label {
        BlockType::Empty => Takes::Nothing,
        BlockType::Value(value_type) => Takes::One(value_type),
    }
}

/// What a branch that keeps this takes, below a number that it asks first.
fn asked(label: BlockType) -> Takes
    ensures { taken result ≡ I32 ∷ results_of label }
{
    match label {
        BlockType::Empty => Takes::One(ValueType::I32),
        BlockType::Value(value_type) => Takes::Two(ValueType::I32, value_type),
    }
}

/// Whether there is a label, and it keeps this.
fn does_keep(label: Option<BlockType>, kept: BlockType) -> bool
    ensures { result ≡ keeps (results_of kept) (option_map results_of label) }
{
    match (label, kept) {
        (Some(BlockType::Empty), BlockType::Empty) => true,
        (Some(BlockType::Value(found)), BlockType::Value(value_type)) => found == value_type,
        _ => false,
    }
}

/// What all labels of a table keep, if it is the same.
fn kept_by_all(control_frames: &ControlFrames, table: &BranchTable) -> Option<BlockType>
    ensures { option_map results_of result ≡ table_label (control_frame_labels control_frames.now)
        table.now.0 table.now.1 }
{
    let kept = control_frames.label(table.default_label())?;
    table
        .labels()
        .iter()
        .all(|label| does_keep(control_frames.label(*label), kept))
        .then_some(kept)
}

/// Changes the operands as `br` does; whether it may stand here.
fn branch(control_frames: &ControlFrames, operands: &mut OperandStack, label: u32) -> bool
    ensures below { operands.new.below ≡ operands.old.below }
    ensures stack { StepsTo result (option_and_then (λ kept. left kept operands.old.stack)
        (slice_get (control_frame_labels control_frames.now) label)) operands.new.stack }
{
    match control_frames.label(label) {
        Some(label) => operands.leave(kept(label)),
        None => false,
    }
}

/// Changes the operands as `br_if` does; whether it may stand here.
fn branch_if(
    control_frames: &ControlFrames,
    operands: &mut OperandStack,
    label: u32,
) -> Result<bool, AllocError>
    ensures below { operands.new.below ≡ operands.old.below }
    ensures stack { IfOk result (λ typed. StepsTo typed
        (option_and_then (λ kept. moved (I32 ∷ kept) kept operands.old.stack)
        (slice_get (control_frame_labels control_frames.now) label)) operands.new.stack) }
{
    match control_frames.label(label) {
        Some(label) => operands.apply(Effect::new(asked(label), label)),
        None => Ok(false),
    }
}

/// Changes the operands as `br_table` does; whether it may stand here.
fn branch_table(
    control_frames: &ControlFrames,
    operands: &mut OperandStack,
    table: &BranchTable,
) -> bool
    ensures below { operands.new.below ≡ operands.old.below }
    ensures stack { StepsTo result (option_and_then (λ kept. left (I32 ∷ kept) operands.old.stack)
        (table_label (control_frame_labels control_frames.now) table.now.0 table.now.1))
        operands.new.stack }
{
    match kept_by_all(control_frames, table) {
        Some(label) => operands.leave(asked(label)),
        None => false,
    }
}

impl<'s, 'm> FunctionContext<'s, 'm> {
    /// Changes the operands as `call` does; whether it may stand here.
    fn call(&self, operands: &mut OperandStack, index: u32) -> Result<bool, AllocError>
        ensures below { operands.new.below ≡ operands.old.below }
        ensures stack { IfOk result (λ typed. (c : Context) → IsFunctionContext self.now c
            → StepsTo typed (option_and_then (λ f. called f operands.old.stack)
            (slice_get c.functions index)) operands.new.stack) }
    {
        match self.module_context.function(index) {
            Some(callee) => operands.call(callee.params.as_slice(), result_type(callee)),
            None => Ok(false),
        }
    }

    /// Changes the operands as `call_indirect` does; whether it may stand here.
    fn call_indirect(&self, operands: &mut OperandStack, index: u32) -> Result<bool, AllocError>
        ensures below { operands.new.below ≡ operands.old.below }
        ensures stack { IfOk result (λ typed. (c : Context) → IsFunctionContext self.now c
            → StepsTo typed (option_and_then (λ f. called_indirect f operands.old.stack)
            (when c.has_table (slice_get c.types index))) operands.new.stack) }
    {
        if !self.module_context.has_table {
            return Ok(false);
        }
        let Some(callee) = self.type_at(index) else {
            return Ok(false);
        };
        if !operands.pop(ValueType::I32) {
            return Ok(false);
        }
        operands.call(callee.params.as_slice(), result_type(callee))
    }

    /// Changes the operands as an instruction of one type does; whether it may stand here.
    fn fixed(
        &self,
        operands: &mut OperandStack,
        instruction: &Instruction,
    ) -> Result<bool, AllocError>
        ensures below { operands.new.below ≡ operands.old.below }
        ensures stack { IfOk result (λ typed. (c : Context) → IsFunctionContext self.now c
            → StepsTo typed (applied (variable_effect c instruction.now) operands.old.stack)
            operands.new.stack) }
    {
        match self.effect(instruction) {
            Some(effect) => operands.apply(effect),
            None => Ok(false),
        }
    }

    /// Changes the operands as a plain instruction does; whether it may stand here.
    #[tactic(auto, unfolding(crate::specs::internal::Effects::after))]
    pub fn plain(
        &self,
        control_frames: &ControlFrames,
        operands: &mut OperandStack,
        instruction: &Instruction,
    ) -> Result<bool, AllocError>
        ensures below { operands.new.below ≡ operands.old.below }
        ensures stack { IfOk result (λ typed. (c : Context) → IsFunctionContext self.now c
            → StepsTo typed (after c (control_frame_labels control_frames.now) instruction.now
            operands.old.stack) operands.new.stack) }
    {
        match instruction {
            Instruction::Unreachable => Ok(operands.leave(Takes::Nothing)),
            Instruction::Br(label) => Ok(branch(control_frames, operands, *label)),
            Instruction::BrIf(label) => branch_if(control_frames, operands, *label),
            Instruction::BrTable(table) => Ok(branch_table(control_frames, operands, table)),
            Instruction::Return => Ok(operands.leave(kept(self.returns))),
            Instruction::Call(index) => self.call(operands, *index),
            Instruction::CallIndirect(index) => self.call_indirect(operands, *index),
            Instruction::Drop => Ok(operands.discard()),
            Instruction::Select => operands.select(),
            _ => self.fixed(operands, instruction),
        }
    }
}

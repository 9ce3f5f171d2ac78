//! One walk over the code of a body.

ghost use Rattle.std.specs.Prelude.{◌≡◌};
ghost use Rattle.wasm_valid.specs.internal.Blocks.{may_end, is_if};

use crate::control_frames::{BlockKind, ControlFrame, ControlFrames, Mark};
use crate::function_context::FunctionContext;
use crate::operands::OperandStack;
use std::alloc::{AllocError, Global};
use std::marker::Model;
use wasm_module::{BlockType, Instruction, ValueType};

/// The blocks that are open at an instruction, with the types of their operands.
#[derive(Drop)]
pub struct BodyValidator {
    operands: OperandStack,
    control_frames: ControlFrames,
}

impl Model for BodyValidator {
    ghost use Rattle.std.specs.Prelude.{ℕ, ◌<◌, List, length};
    ghost use Rattle.wasm_valid.specs.internal.Blocks.{OpenBlock};
    ghost use Rattle.wasm_valid.specs.internal.Operands.{blocks_of, AreNested};

    ghost Value = { List OpenBlock };

    ghost view = { λ w. blocks_of w.operands w.control_frames };

    ghost invariant = { λ w. (0 < length w.control_frames) × AreNested w.operands.below w.control_frames };
}

/// Whether a block may end without an `else`.
fn may_end(control_frame: ControlFrame) -> bool
    ensures { result ≡ may_end control_frame.kind control_frame.block_type }
{
    match (control_frame.kind, control_frame.block_type) {
        (BlockKind::If, BlockType::Value(_)) => false,
        _ => true,
    }
}

/// Whether it is an `if` whose `else` hasn't come.
fn is_if(control_frame: ControlFrame) -> bool
    ensures { result ≡ is_if control_frame.kind }
{
    match control_frame.kind {
        BlockKind::If => true,
        BlockKind::Block | BlockKind::Loop => false,
    }
}

impl BodyValidator {
    ghost use Rattle.std.specs.Prelude.{◌≡◌, [], ◌∷◌, IfOk, Some, None};
    ghost use Rattle.wasm_valid.specs.declared.control_frames.BlockKind.TheVariants.{Block};
    ghost use Rattle.wasm_valid.specs.Typing.{Context};
    ghost use Rattle.wasm_valid.specs.internal.Blocks.{new_block, opened_in, popped_in, begun_in, ended_in, elsed_in, plain_in, stepped, is_finished};
    ghost use Rattle.wasm_valid.specs.internal.Operands.{StepsTo};
    ghost use Rattle.wasm_valid.specs.internal.Contexts.{IsFunctionContext};

    /// The beginning of a body that leaves this.
    pub fn new(alloc: Global, returns: BlockType) -> Result<BodyValidator, AllocError>
        ensures { IfOk result (λ w. w ≡ new_block Block returns ∷ []) }
    {
        let mut control_frames = ControlFrames::new(alloc);
        control_frames.push(ControlFrame {
            kind: BlockKind::Block,
            block_type: returns,
            around: Mark {
                height: 0,
                unreachable: false,
            },
        })?;
        Ok(BodyValidator {
            operands: OperandStack::new(alloc),
            control_frames,
        })
    }

    /// Begins a block.
    fn open(&mut self, kind: BlockKind, block_type: BlockType) -> Result<(), AllocError>
        ensures { IfOk result (λ _. opened_in kind block_type self.old ≡ Some self.new) }
    {
        let around = self.operands.mark();
        self.control_frames.push(ControlFrame {
            kind,
            block_type,
            around,
        })?;
        self.operands.enter();
        Ok(())
    }

    /// Takes an operand of this type; whether one was there.
    fn pop(&mut self, expected: ValueType) -> bool
        ensures { StepsTo result (popped_in expected self.old) self.new }
    {
        self.operands.pop(expected)
    }

    /// Begins an `if`; whether it may stand here.
    fn begin_if(&mut self, block_type: BlockType) -> Result<bool, AllocError>
        ensures { IfOk result (λ typed. StepsTo typed (begun_in block_type self.old) self.new) }
    {
        if !self.pop(ValueType::I32) {
            return Ok(false);
        }
        self.open(BlockKind::If, block_type)?;
        Ok(true)
    }

    /// Goes on with the `else` of an `if`; whether it may stand here.
    fn begin_else(&mut self) -> bool
        ensures { StepsTo result (elsed_in self.old) self.new }
    {
        let Some(control_frame) = self.control_frames.innermost() else {
            return false;
        };
        if !is_if(control_frame) {
            return false;
        }
        if !self.operands.can_be(control_frame.block_type) {
            return false;
        }
        self.control_frames.replace(ControlFrame {
            kind: BlockKind::Block,
            block_type: control_frame.block_type,
            around: control_frame.around,
        });
        self.operands.restart();
        true
    }

    /// Ends a block that isn't the body; whether its end may stand here.
    fn end(&mut self) -> Result<bool, AllocError>
        ensures { IfOk result (λ typed. StepsTo typed (ended_in self.old) self.new) }
    {
        if self.control_frames.len() < 2 {
            return Ok(false);
        }
        let Some(control_frame) = self.control_frames.innermost() else {
            return Ok(false);
        };
        if !may_end(control_frame) {
            return Ok(false);
        }
        if !self.operands.can_be(control_frame.block_type) {
            return Ok(false);
        }
        self.control_frames.pop();
        self.operands.exit(control_frame.around);
        self.operands.push_results(control_frame.block_type)?;
        Ok(true)
    }

    /// Whether the end of the body may stand here, after which the walk is over.
    pub fn finish(&mut self) -> bool
        ensures { result ≡ is_finished self.old }
    {
        if self.control_frames.len() > 1 {
            return false;
        }
        let Some(control_frame) = self.control_frames.innermost() else {
            return false;
        };
        if !may_end(control_frame) {
            return false;
        }
        self.operands.can_be(control_frame.block_type)
    }

    /// Goes over a plain instruction; whether it may stand here.
    fn plain(
        &mut self,
        function_context: &FunctionContext<'_, '_>,
        instruction: &Instruction,
    ) -> Result<bool, AllocError>
        ensures { IfOk result (λ typed. (c : Context) → IsFunctionContext function_context.now c
            → StepsTo typed (plain_in c instruction.now self.old) self.new) }
    {
        function_context.plain(&self.control_frames, &mut self.operands, instruction)
    }

    /// Goes over an instruction; whether it may stand here.
    #[tactic(auto, unfolding(crate::specs::internal::Blocks::stepped))]
    pub fn step(
        &mut self,
        function_context: &FunctionContext<'_, '_>,
        instruction: &Instruction,
    ) -> Result<bool, AllocError>
        ensures { IfOk result (λ typed. (c : Context) → IsFunctionContext function_context.now c
            → StepsTo typed (stepped c instruction.now self.old) self.new) }
    {
        match instruction {
            Instruction::Block(block_type) => {
                self.open(BlockKind::Block, *block_type)?;
                Ok(true)
            }
            Instruction::Loop(block_type) => {
                self.open(BlockKind::Loop, *block_type)?;
                Ok(true)
            }
            Instruction::If(block_type) => self.begin_if(*block_type),
            Instruction::Else => Ok(self.begin_else()),
            Instruction::End => self.end(),
            _ => self.plain(function_context, instruction),
        }
    }
}

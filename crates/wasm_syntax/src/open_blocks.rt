//! The blocks that are open while instructions are read.

ghost use Rattle.wasm_syntax.specs.internal.CodeReading.{after_instruction};
ghost use Rattle.wasm_syntax.specs.Reading.{Gives};

use crate::fault::LoadFault;
use crate::instruction::Instruction;
use std::alloc::{AllocError, Global};
use std::marker::Model;

/// How an open block may go on.
#[derive(Clone, Copy)]
pub enum OpenBlock {
    /// It ends.
    Plain,
    /// An `if` whose `else` hasn't come.
    Conditional,
}

/// The open blocks, the innermost first.
#[derive(Drop)]
pub struct OpenBlocks {
    blocks: Vec<OpenBlock>,
}

impl Model for OpenBlocks {
    ghost use Rattle.std.specs.Prelude.{List, reverse};
    ghost use Rattle.wasm_syntax.specs.declared.open_blocks.OpenBlock.{OpenBlock};

    ghost Value = { List OpenBlock };

    ghost view = { λ f. reverse f.blocks.items };
}

impl OpenBlocks {
    ghost use Rattle.std.specs.Prelude.{◌≡◌, [], ◌∷◌, length, ◌==◌, IfOk, OnOk, MatchOption};

    /// An expression is open, and no block in it.
    pub fn one(alloc: Global) -> Result<OpenBlocks, AllocError>
        ensures { IfOk result (λ blocks. blocks ≡ OpenBlock.Plain ∷ []) }
    {
        let mut blocks = Vec::new(alloc);
        blocks.push(OpenBlock::Plain)?;
        Ok(OpenBlocks { blocks })
    }

    pub fn is_empty(&self) -> bool
        ensures { result ≡ (length self.now == 0) }
    {
        self.blocks.is_empty()
    }

    pub fn push(&mut self, block: OpenBlock) -> Result<(), AllocError>
        ensures { OnOk result (self.new ≡ block ∷ self.old) }
    {
        self.blocks.push(block)?;
        Ok(())
    }

    pub fn pop(&mut self) -> Option<OpenBlock>
        ensures { MatchOption result (self.old ≡ []) (λ f. self.old ≡ f ∷ self.new) }
    {
        self.blocks.pop()
    }

    /// What the instruction at this offset does to the open blocks.
    #[tactic(auto, unfolding(crate::specs::internal::CodeReading::after_instruction))]
    pub fn step(&mut self, instruction: &Instruction, offset: u32) -> Result<(), LoadFault>
        ensures { Gives (λ _. self.new) result (after_instruction instruction.now self.old) }
    {
        if self.is_empty() {
            return Err(LoadFault::BadByte { offset });
        }
        match instruction {
            Instruction::Block(_) | Instruction::Loop(_) => self.push(OpenBlock::Plain)?,
            Instruction::If(_) => self.push(OpenBlock::Conditional)?,
            Instruction::Else => {
                let Some(OpenBlock::Conditional) = self.pop() else {
                    return Err(LoadFault::BadByte { offset });
                };
                self.push(OpenBlock::Plain)?;
            }
            Instruction::End => {
                self.pop();
            }
            _ => {}
        }
        Ok(())
    }
}

//! The types of the operands of a body while it is walked.

ghost use Rattle.std.specs.Prelude.{◌≡◌};
ghost use Rattle.wasm_valid.specs.internal.Stack.{meet};

use crate::control_frames::Mark;
use crate::effects::{Effect, Takes};
use std::alloc::{AllocError, Global};
use std::marker::Model;
use wasm_module::{BlockType, ValueType};

/// The types of the operands of all open blocks, the one on top last, and None for one that may
/// be any. Where the code of the innermost block can't be reached, any types lie below its own.
#[derive(Drop)]
pub struct OperandStack {
    types: Vec<Option<ValueType>>,
    /// How many of them belong to the blocks around the innermost.
    height: usize,
    unreachable: bool,
}

impl Model for OperandStack {
    ghost use Rattle.std.specs.Prelude.{◌≤◌, vec_len};
    ghost use Rattle.wasm_valid.specs.internal.Operands.{Operands, split_at};

    ghost Value = { Operands };

    ghost view = { λ s. split_at s.height s.unreachable s.types.items };

    ghost invariant = { λ s. s.height ≤ vec_len s.types };
}

/// The type of two operands that are to have one.
fn meet(first: Option<ValueType>, second: Option<ValueType>) -> Option<Option<ValueType>>
    ensures { result ≡ meet first second }
{
    match (first, second) {
        (None, _) => Some(second),
        (Some(_), None) => Some(first),
        (Some(one), Some(other)) => (one == other).then_some(first),
    }
}

impl OperandStack {
    ghost use Rattle.std.specs.Prelude.{◌≡◌, ◌≤◌, List, [], ◌∷◌, ◌++◌, length, reverse, take, MatchOption, IfOk, Some, None};
    ghost use Rattle.wasm_valid.specs.Arities.{results_of};
    ghost use Rattle.wasm_valid.specs.internal.Stack.{nothing, anything, pop_any, pop, pops, push_any, push, moved, left, selected, dropped, is_nil, can_be};
    ghost use Rattle.wasm_valid.specs.internal.Effects.{taken};
    ghost use Rattle.wasm_valid.specs.internal.Operands.{operands, split_at, StepsTo};

    pub fn new(alloc: Global) -> OperandStack
        ensures { result ≡ operands [] nothing }
    {
        OperandStack {
            types: Vec::new(alloc),
            height: 0,
            unreachable: false,
        }
    }

    /// Takes the operand on top; None where there is none.
    fn pop_any(&mut self) -> Option<Option<ValueType>>
        ensures below { self.new.below ≡ self.old.below }
        ensures stack { MatchOption result
            (pop_any self.old.stack ≡ None)
            (λ t. pop_any self.old.stack ≡ Some (t, self.new.stack)) }
    {
        if self.types.len() > self.height {
            return self.types.pop();
        }
        if self.unreachable { Some(None) } else { None }
    }

    /// Takes an operand of this type; whether one was there.
    pub fn pop(&mut self, expected: ValueType) -> bool
        ensures below { self.new.below ≡ self.old.below }
        ensures stack { StepsTo result (pop expected self.old.stack) self.new.stack }
    {
        match self.pop_any() {
            Some(Some(found)) => found == expected,
            Some(None) => true,
            None => false,
        }
    }

    /// Takes these operands; whether they were there.
    fn take(&mut self, takes: Takes) -> bool
        ensures below { self.new.below ≡ self.old.below }
        ensures stack { StepsTo result (pops (taken takes) self.old.stack) self.new.stack }
    {
        match takes {
            Takes::Nothing => true,
            Takes::One(first) => self.pop(first),
            Takes::Two(first, second) => self.pop(first) && self.pop(second),
            Takes::Three(first, second, third) => {
                self.pop(first) && self.pop(second) && self.pop(third)
            }
        }
    }

    /// Takes operands of these types, the last of them from the top; whether they were there.
    fn take_all(&mut self, types: &[ValueType]) -> bool
        ensures below { self.new.below ≡ self.old.below }
        ensures stack { StepsTo result (pops (reverse types.now) self.old.stack) self.new.stack }
    {
        let mut left = types;
        while let Some((last, rest)) = left.split_last() {
            if !self.pop(*last) {
                return false;
            }
            left = rest;
        }
        true
    }

    fn push(&mut self, operand: Option<ValueType>) -> Result<(), AllocError>
        ensures below { self.new.below ≡ self.old.below }
        ensures stack { IfOk result (λ _. self.new.stack ≡ push_any operand self.old.stack) }
    {
        self.types.push(operand)?;
        Ok(())
    }

    /// Puts what a block leaves on top.
    pub fn push_results(&mut self, gives: BlockType) -> Result<(), AllocError>
        ensures below { self.new.below ≡ self.old.below }
        ensures stack { IfOk result (λ _. self.new.stack ≡ push (results_of gives) self.old.stack) }
    {
        match gives {
            BlockType::Empty => Ok(()),
            BlockType::Value(value_type) => self.push(Some(value_type)),
        }
    }

    /// Changes the operands as an instruction of this type does; whether it may stand here.
    pub fn apply(&mut self, effect: Effect) -> Result<bool, AllocError>
        ensures below { self.new.below ≡ self.old.below }
        ensures stack { IfOk result (λ typed. StepsTo typed
            (moved (taken effect.takes) (results_of effect.gives) self.old.stack) self.new.stack) }
    {
        if !self.take(effect.takes) {
            return Ok(false);
        }
        self.push_results(effect.gives)?;
        Ok(true)
    }

    /// Changes the operands as a call of a function with these parameters and this result does;
    /// whether it may stand here.
    pub fn call(&mut self, params: &[ValueType], gives: BlockType) -> Result<bool, AllocError>
        ensures below { self.new.below ≡ self.old.below }
        ensures stack { IfOk result (λ typed. StepsTo typed
            (moved (reverse params.now) (results_of gives) self.old.stack) self.new.stack) }
    {
        if !self.take_all(params) {
            return Ok(false);
        }
        self.push_results(gives)?;
        Ok(true)
    }

    /// Takes these operands and leaves the code, so that what follows can't be reached; whether
    /// they were there.
    pub fn leave(&mut self, takes: Takes) -> bool
        ensures below { self.new.below ≡ self.old.below }
        ensures stack { StepsTo result (left (taken takes) self.old.stack) self.new.stack }
    {
        if !self.take(takes) {
            return false;
        }
        self.types.truncate(self.height);
        self.unreachable = true;
        true
    }

    /// Changes the operands as `drop` does; whether it may stand here.
    pub fn discard(&mut self) -> bool
        ensures below { self.new.below ≡ self.old.below }
        ensures stack { StepsTo result (dropped self.old.stack) self.new.stack }
    {
        self.pop_any().is_some()
    }

    /// Changes the operands as `select` does; whether it may stand here.
    pub fn select(&mut self) -> Result<bool, AllocError>
        ensures below { self.new.below ≡ self.old.below }
        ensures stack { IfOk result (λ typed. StepsTo typed (selected self.old.stack)
            self.new.stack) }
    {
        if !self.pop(ValueType::I32) {
            return Ok(false);
        }
        let Some(first) = self.pop_any() else {
            return Ok(false);
        };
        let Some(second) = self.pop_any() else {
            return Ok(false);
        };
        let Some(both) = meet(first, second) else {
            return Ok(false);
        };
        self.push(both)?;
        Ok(true)
    }

    /// Whether no operand of the innermost block is known.
    fn is_bare(&self) -> bool
        ensures { result ≡ is_nil self.now.stack.known }
    {
        self.types.len() == self.height
    }

    /// Whether what a block leaves can be all of its operands, which are taken then.
    pub fn can_be(&mut self, gives: BlockType) -> bool
        ensures below { self.new.below ≡ self.old.below }
        ensures stack { result ≡ can_be (results_of gives) self.old.stack }
    {
        match gives {
            BlockType::Empty => self.is_bare(),
            BlockType::Value(value_type) => self.pop(value_type) && self.is_bare(),
        }
    }

    /// What is to be kept of the innermost block while another is open in it.
    pub fn mark(&self) -> Mark
        ensures { result ≡ record {
          height = length self.now.below;
          unreachable =
              self.now.stack.unreachable;
        } }
    {
        Mark {
            height: self.height,
            unreachable: self.unreachable,
        }
    }

    /// Begins a block.
    pub fn enter(&mut self)
        ensures { self.new ≡ operands (self.old.below ++ reverse self.old.stack.known) nothing }
    {
        self.height = self.types.len();
        self.unreachable = false;
    }

    /// Begins the innermost block again, as `else` does.
    pub fn restart(&mut self)
        ensures { self.new ≡ operands self.old.below nothing }
    {
        self.types.truncate(self.height);
        self.unreachable = false;
    }

    /// Goes back to the block around the innermost.
    pub fn exit(&mut self, around: Mark)
        requires { around.height ≤ length self.old.below }
        ensures { self.new ≡ split_at around.height around.unreachable self.old.below }
    {
        self.types.truncate(self.height);
        self.height = around.height;
        self.unreachable = around.unreachable;
    }
}

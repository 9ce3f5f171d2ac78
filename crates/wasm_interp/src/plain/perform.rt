//! The plain step: how one instruction that stays in its function changes a machine.

ghost use Rattle.std.specs.Prelude.{◌≡◌, suc, ◌+◌, ◌^◌, ◌<◌, ◌≤◌, [], ◌∷◌, OnOk, IfErr, length, max, reverse, slice_index_or, vec_len, vec_capacity};
ghost use Rattle.wasm_branch.specs.declared.target.Target.{Target as TargetValue};
ghost use Rattle.wasm_operands.specs.internal.Standing.{branched};
ghost use Rattle.wasm_operands.specs.internal.Plain.Performing.{IsReady};
ghost use Rattle.wasm_places.specs.internal.Plain.FlatSteps.{BranchesIf, CanBranch, CanBranchIf, CanPick, FlatStep, IsReadyFor, Picks, TestsOne, Works};
ghost use Rattle.wasm_interp.specs.internal.Running.{flat_of, Halts, Pushes, Stays};

use crate::state::State;
use wasm_branch::{Target, TargetTable as BodyTargets};
use wasm_module::Instruction;
use wasm_operands::growth::reserve_within;
use wasm_operands::halt::Halt;
use wasm_operands::operands::{operand, pop, push, unwind};
use wasm_operands::work::work;

impl State {
    /// Goes on at this position of the function, one unit later.
    fn go_to(&mut self, pc: usize)
        requires { self.old.used + 1 < 2 ^ 64 }
        ensures { self.new ≡ record self.old {
          current = record self.old.current { pc = pc };
          used =
              suc self.old.used;
        } }
    {
        self.current.pc = pc;
        self.used += 1;
    }

    /// Goes on with the next instruction, one unit later.
    fn go_on(&mut self)
        requires fits { self.old.used + 1 < 2 ^ 64 }
        requires next_pc { self.old.current.pc + 1 < 2 ^ 64 }
        ensures { self.new ≡ record self.old {
          current = record
              self.old.current { pc = self.old.current.pc + 1 };
          used = suc self.old.used;
        } }
    {
        self.go_to(self.current.pc + 1);
    }

    /// Branches to a target.
    fn branch(&mut self, target: Target)
        requires there { CanBranch (flat_of self.old) (reverse self.old.values.items) target }
        requires fits { self.old.used + 1 < 2 ^ 64 }
        ensures branched { flat_of self.new ≡ branched (flat_of self.old) target
            (reverse self.old.values.items) }
        ensures stays { Stays self.old self.new }
        ensures used { self.new.used ≡ suc self.old.used }
        ensures len { vec_len self.new.values ≤ vec_len self.old.values }
        ensures room { vec_capacity self.new.values ≡ vec_capacity self.old.values }
    {
        unwind(
            &mut self.values,
            target.kept,
            self.current.operands + target.height,
        );
        self.go_to(target.position);
    }

    /// `if`: goes on with its first part, or where its target is if the condition on top is 0.
    fn test(&mut self, target: Target)
        requires top { 0 < vec_len self.old.values }
        requires fits { self.old.used + 1 < 2 ^ 64 }
        requires next_pc { self.old.current.pc + 1 < 2 ^ 64 }
        ensures tested { TestsOne (flat_of self.old) (flat_of self.new) target }
        ensures stays { Stays self.old self.new }
        ensures used { self.new.used ≡ suc self.old.used }
        ensures len { vec_len self.new.values ≤ vec_len self.old.values }
        ensures room { vec_capacity self.new.values ≡ vec_capacity self.old.values }
    {
        if pop(&mut self.values) == 0 {
            self.go_to(target.position);
        } else {
            self.go_on();
        }
    }

    /// `br_if`: branches if the condition on top isn't 0.
    fn branch_if(&mut self, target: Target)
        requires can { CanBranchIf (flat_of self.old) target }
        requires fits { self.old.used + 1 < 2 ^ 64 }
        requires next_pc { self.old.current.pc + 1 < 2 ^ 64 }
        ensures branched { BranchesIf (flat_of self.old) (flat_of self.new) target }
        ensures stays { Stays self.old self.new }
        ensures used { self.new.used ≡ suc self.old.used }
        ensures len { vec_len self.new.values ≤ vec_len self.old.values }
        ensures room { vec_capacity self.new.values ≡ vec_capacity self.old.values }
    {
        if pop(&mut self.values) == 0 {
            self.go_on();
        } else {
            self.branch(target);
        }
    }

    /// `br_table`: branches to the target of the number on top, or past them to the last.
    fn branch_by(&mut self, targets: &[Target])
        requires can { CanPick (flat_of self.old) targets.now }
        requires fits { self.old.used + 1 < 2 ^ 64 }
        ensures branched { Picks (flat_of self.old) (flat_of self.new) targets.now }
        ensures stays { Stays self.old self.new }
        ensures used { self.new.used ≡ suc self.old.used }
        ensures len { vec_len self.new.values ≤ vec_len self.old.values }
        ensures room { vec_capacity self.new.values ≡ vec_capacity self.old.values }
    {
        let index = (pop(&mut self.values) as usize).min(targets.len() - 1);
        self.branch(targets[index]);
    }

    fn get_local(&mut self, index: u32) -> Result<(), Halt>
        requires inside { self.old.current.locals + index < vec_len self.old.values }
        requires spare { vec_len self.old.values < vec_capacity self.old.values }
        requires fits { self.old.used + 1 < 2 ^ 64 }
        requires next_pc { self.old.current.pc + 1 < 2 ^ 64 }
        ensures pushed { OnOk result (FlatStep 0 (Instruction.LocalGet index) [] (flat_of self.old)
            (flat_of self.new)) }
        ensures pushes { Pushes self.old self.new result }
    {
        let value = self.values[self.current.locals + index as usize];
        push(&mut self.values, value, self.most_values)?;
        self.go_on();
        Ok(())
    }

    fn set_local(&mut self, index: u32)
        requires inside { self.old.current.locals + index + 1 < vec_len self.old.values }
        requires fits { self.old.used + 1 < 2 ^ 64 }
        requires next_pc { self.old.current.pc + 1 < 2 ^ 64 }
        ensures set { FlatStep 0 (Instruction.LocalSet index) [] (flat_of self.old)
            (flat_of self.new) }
        ensures stays { Stays self.old self.new }
        ensures used { self.new.used ≡ suc self.old.used }
        ensures len { vec_len self.new.values ≤ vec_len self.old.values }
        ensures room { vec_capacity self.new.values ≡ vec_capacity self.old.values }
    {
        let value = pop(&mut self.values);
        self.values[self.current.locals + index as usize] = value;
        self.go_on();
    }

    fn tee_local(&mut self, index: u32)
        requires inside { self.old.current.locals + index < vec_len self.old.values }
        requires fits { self.old.used + 1 < 2 ^ 64 }
        requires next_pc { self.old.current.pc + 1 < 2 ^ 64 }
        ensures set { FlatStep 0 (Instruction.LocalTee index) [] (flat_of self.old)
            (flat_of self.new) }
        ensures stays { Stays self.old self.new }
        ensures used { self.new.used ≡ suc self.old.used }
        ensures len { vec_len self.new.values ≤ vec_len self.old.values }
        ensures room { vec_capacity self.new.values ≡ vec_capacity self.old.values }
    {
        self.values[self.current.locals + index as usize] = operand(&self.values, 0);
        self.go_on();
    }

    fn get_global(&mut self, index: u32) -> Result<(), Halt>
        requires inside { index < length self.old.globals }
        requires spare { vec_len self.old.values < vec_capacity self.old.values }
        requires fits { self.old.used + 1 < 2 ^ 64 }
        requires next_pc { self.old.current.pc + 1 < 2 ^ 64 }
        ensures pushed { OnOk result (FlatStep 0 (Instruction.GlobalGet index) [] (flat_of self.old)
            (flat_of self.new)) }
        ensures pushes { Pushes self.old self.new result }
    {
        let value = self.globals.as_slice()[index as usize];
        push(&mut self.values, value, self.most_values)?;
        self.go_on();
        Ok(())
    }

    fn set_global(&mut self, index: u32)
        requires top { 0 < vec_len self.old.values }
        requires inside { index < length self.old.globals }
        requires fits { self.old.used + 1 < 2 ^ 64 }
        requires next_pc { self.old.current.pc + 1 < 2 ^ 64 }
        ensures set { FlatStep 0 (Instruction.GlobalSet index) [] (flat_of self.old)
            (flat_of self.new) }
        ensures stays { Stays self.old self.new }
        ensures used { self.new.used ≡ suc self.old.used }
        ensures len { vec_len self.new.values ≤ vec_len self.old.values }
        ensures room { vec_capacity self.new.values ≡ vec_capacity self.old.values }
    {
        let value = pop(&mut self.values);
        self.globals.set(index, value);
        self.go_on();
    }

    /// `memory.size`
    fn push_size(&mut self) -> Result<(), Halt>
        requires spare { vec_len self.old.values < vec_capacity self.old.values }
        requires fits { self.old.used + 1 < 2 ^ 64 }
        requires next_pc { self.old.current.pc + 1 < 2 ^ 64 }
        ensures pushed { OnOk result (FlatStep 0 Instruction.MemorySize [] (flat_of self.old)
            (flat_of self.new)) }
        ensures pushes { Pushes self.old self.new result }
    {
        push(
            &mut self.values,
            u64::from(self.memory.pages()),
            self.most_values,
        )?;
        self.go_on();
        Ok(())
    }

    /// `end`: goes on after it, for no unit.
    pub fn end_block(&mut self)
        requires { self.old.current.pc + 1 < 2 ^ 64 }
        ensures { self.new ≡ record self.old {
          current = record
              self.old.current { pc = self.old.current.pc + 1 };
        } }
    {
        self.current.pc += 1;
    }

    /// `else`: the first part of an `if` has ended, and what is after the second goes on, for no unit.
    pub fn skip_else(&mut self, targets: &BodyTargets)
        requires { 0 < length (slice_index_or targets.now self.old.current.pc []) }
        ensures { (t : TargetValue) → slice_index_or targets.now self.old.current.pc [] ≡ t ∷ []
            → self.new ≡ record self.old { current = record self.old.current { pc = t.position } } }
    {
        let target = targets.at(self.current.pc)[0];
        self.current.pc = target.position;
    }

    /// Performs an instruction that stays in its function, but for `else` and `end`, which take no unit.
    pub fn perform(
        &mut self,
        instruction: &Instruction,
        targets: &BodyTargets,
        limit: u32,
    ) -> Result<(), Halt>
        requires ready { IsReadyFor instruction.now
            (slice_index_or targets.now self.old.current.pc []) (flat_of self.old) }
        requires spare { vec_len self.old.values < vec_capacity self.old.values }
        requires fits { self.old.used + 1 < 2 ^ 64 }
        requires next_pc { self.old.current.pc + 1 < 2 ^ 64 }
        ensures performed { OnOk result (FlatStep limit instruction.now
            (slice_index_or targets.now self.old.current.pc []) (flat_of self.old)
            (flat_of self.new)) }
        ensures used { OnOk result (self.new.used ≡ suc self.old.used) }
        ensures halted { IfErr result (λ h. Halts h instruction.now self.new) }
        ensures same { IfErr result (λ h. flat_of self.new ≡ flat_of self.old) }
        ensures stays { Stays self.old self.new }
        ensures spare { vec_len self.new.values < vec_capacity self.new.values }
        ensures room { vec_capacity self.old.values ≤ vec_capacity self.new.values }
        ensures bound { vec_capacity self.new.values ≤ max (vec_capacity self.old.values)
            (self.old.most_values + 1) }
    {
        match instruction {
            Instruction::Block(_) | Instruction::Loop(_) => self.go_on(),
            Instruction::If(_) => self.test(targets.at(self.current.pc)[0]),
            Instruction::Br(_) => self.branch(targets.at(self.current.pc)[0]),
            Instruction::BrIf(_) => self.branch_if(targets.at(self.current.pc)[0]),
            Instruction::BrTable(_) => self.branch_by(targets.at(self.current.pc)),
            Instruction::Return => return Err(Halt::Return),
            Instruction::Call(function) => return Err(self.before_call(*function)),
            Instruction::CallIndirect(index) => return Err(Halt::CallIndirect(*index)),
            Instruction::LocalGet(index) => self.get_local(*index)?,
            Instruction::LocalSet(index) => self.set_local(*index),
            Instruction::LocalTee(index) => self.tee_local(*index),
            Instruction::GlobalGet(index) => self.get_global(*index)?,
            Instruction::GlobalSet(index) => self.set_global(*index),
            Instruction::MemorySize => self.push_size()?,
            _ => self.work(instruction, limit)?,
        }
        Ok(())
    }

    /// A call comes next. An import's result finds room, whatever the host does.
    fn before_call(&mut self, function: u32) -> Halt
        requires spare { vec_len self.old.values < vec_capacity self.old.values }
        ensures halts { Halts result (Instruction.Call function) self.new }
        ensures same { flat_of self.new ≡ flat_of self.old }
        ensures stays { Stays self.old self.new }
        ensures spare { vec_len self.new.values < vec_capacity self.new.values }
        ensures room { vec_capacity self.old.values ≤ vec_capacity self.new.values }
        ensures bound { vec_capacity self.new.values ≤ max (vec_capacity self.old.values)
            (self.old.most_values + 1) }
    {
        if !reserve_within(&mut self.values, 2, self.most_values) {
            return Halt::Full;
        }
        Halt::Call(function)
    }

    /// Performs an instruction that works only on values and memory.
    fn work(&mut self, instruction: &Instruction, limit: u32) -> Result<(), Halt>
        requires ready { IsReady instruction.now (reverse self.old.values.items) }
        requires spare { vec_len self.old.values < vec_capacity self.old.values }
        requires fits { self.old.used + 1 < 2 ^ 64 }
        requires next_pc { self.old.current.pc + 1 < 2 ^ 64 }
        ensures worked { OnOk result (Works limit instruction.now (flat_of self.old)
            (flat_of self.new)) }
        ensures used { OnOk result (self.new.used ≡ suc self.old.used) }
        ensures halted { IfErr result (λ h. Halts h instruction.now self.new) }
        ensures same { IfErr result (λ h. flat_of self.new ≡ flat_of self.old) }
        ensures stays { Stays self.old self.new }
        ensures spare { vec_len self.new.values < vec_capacity self.new.values }
        ensures room { vec_capacity self.old.values ≤ vec_capacity self.new.values }
        ensures bound { vec_capacity self.new.values ≤ max (vec_capacity self.old.values)
            (self.old.most_values + 1) }
    {
        work(
            &mut self.values,
            &mut self.memory,
            instruction,
            limit,
            self.most_values,
        )?;
        self.go_on();
        Ok(())
    }
}

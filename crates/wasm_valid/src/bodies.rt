//! Bodies of functions (section 3.4.1).

ghost use Rattle.std.specs.Prelude.{◌≡◌, ◌≤◌, [], ◌∷◌, length, IfOk, MatchOption, slice_get, Some};
ghost use Rattle.wasm_valid.specs.declared.control_frames.BlockKind.TheVariants.{Block};
ghost use Rattle.wasm_valid.specs.Typing.{Context};
ghost use Rattle.wasm_valid.specs.Validity.{FunctionTyped};
ghost use Rattle.wasm_valid.specs.internal.Blocks.{new_block};
ghost use Rattle.wasm_valid.specs.internal.Bodies.{Going, BodyTyped};
ghost use Rattle.wasm_valid.specs.internal.Contexts.{IsModuleContext, IsFunctionContext};

use crate::body_validator::BodyValidator;
use crate::function_context::{FunctionContext, result_type};
use crate::locals::LocalTypes;
use crate::module_context::ModuleContext;
use std::alloc::{AllocError, Global};
use wasm_module::{Body, FuncType, Instruction};

impl<'s, 'm> FunctionContext<'s, 'm> {
    /// The first instruction at which the code of a body isn't typed; None where all of it is.
    fn untyped(&self, alloc: Global, code: &[Instruction]) -> Result<Option<usize>, AllocError>
        ensures { IfOk result (λ r. (c : Context) → IsFunctionContext self.now c → MatchOption r
            (Going c (new_block Block self.now.returns ∷ []) code.now)
            (λ _. Going c (new_block Block self.now.returns ∷ []) code.now → ⊥)) }
    {
        let Some((last, inner)) = code.split_last() else {
            return Ok(Some(0));
        };
        let Instruction::End = last else {
            return Ok(Some(inner.len()));
        };
        let mut walk = BodyValidator::new(alloc, self.returns)?;
        for (i, instruction) in inner.iter().enumerate() {
            if !walk.step(self, instruction)? {
                return Ok(Some(i));
            }
        }
        if walk.finish() {
            Ok(None)
        } else {
            Ok(Some(inner.len()))
        }
    }
}

impl<'m> ModuleContext<'m> {
    /// The first instruction at which a body isn't typed by its function's type; None where all of
    /// it is.
    fn untyped(
        &self,
        alloc: Global,
        function: &FuncType,
        body: &Body<'_>,
    ) -> Result<Option<usize>, AllocError>
        requires { length function.now.results ≤ 1 }
        ensures { IfOk result (λ r. (c : Context) → IsModuleContext self.now c → MatchOption r
            (FunctionTyped c function.now body.now)
            (λ _. FunctionTyped c function.now body.now → ⊥)) }
    {
        let locals = LocalTypes::new(alloc, function.params.as_slice(), body.locals.as_slice())?;
        let function_context = FunctionContext {
            module_context: self,
            locals,
            returns: result_type(function),
        };
        function_context.untyped(alloc, body.code.as_slice())
    }

    /// The first instruction at which a body isn't typed by the type that has this index; None
    /// where all of it is.
    pub fn untyped_body(
        &self,
        alloc: Global,
        type_index: u32,
        body: &Body<'_>,
    ) -> Result<Option<usize>, AllocError>
        ensures { IfOk result (λ r. (c : Context) → IsModuleContext self.now c → MatchOption r
            (BodyTyped c self.now.types.now type_index body.now)
            (λ _. BodyTyped c self.now.types.now type_index body.now → ⊥)) }
    {
        match self.types.get(type_index as usize) {
            Some(function) => self.untyped(alloc, function, body),
            None => Ok(Some(0)),
        }
    }
}

//! A host, by what its calls mean.

ghost use Rattle.std.specs.Prelude.{◌≡◌, ℕ, List, Option};
ghost use Rattle.wasm_syntax.specs.declared.module.FuncType.{FuncType as FuncTypeValue};
ghost use Rattle.wasm_store.specs.declared.call.HostCall.{HostCall as HostCallValue};
ghost use Rattle.wasm_store.specs.declared.call.Answer.{Answer as AnswerValue};

use crate::call::{Answer, HostCall};
use crate::memory::Memory;
use wasm_module::FuncType;

/// What answers the calls of a guest's imports.
pub trait Host {
    /// Which call an import of this module name, name and type is.
    ghost links: { Self → List ℕ → List ℕ → FuncTypeValue → Option HostCallValue };

    /// What a call means: the host, the memory, the units used (the call's among them), the call and its arguments, and
    /// then the host, the memory and the answer.
    ghost calls: { Self → List ℕ → ℕ → HostCallValue → List ℕ → Self → List ℕ → AnswerValue → Type 0 };

    /// The call of this module name, name and type, if the host has it.
    fn link(&self, module_name: &str, name: &str, func_type: &FuncType) -> Option<HostCall>
        ensures { result ≡ links self.now module_name.now name.now func_type.now };

    /// Answers a call. An i32 argument is a number below 2 ^ 32.
    fn call(&mut self, memory: &mut Memory, used: u64, call: HostCall, arguments: &[u64]) -> Answer
        ensures { calls self.old memory.old used call arguments.now self.new memory.new result };
}

//! Which imports of a module the host answers at once, and which wait.

ghost use Rattle.std.specs.Prelude.{◌≡◌, None, Some, true};
ghost use Rattle.std.specs.Bool.{OnFalse, OnTrue};
ghost use Rattle.wasm_store.specs.Allocation.{may_embed};
ghost use Rattle.deferred_calls.specs.Machines.{AreParts};
ghost use Rattle.plugin_session.specs.States.{links};
ghost use Rattle.fed_session.specs.Waiting.{AreAnswered, IsUnanswered, answered_at_once, deferred_at, gives_i32, parts_at, reserved_at, waiting, waits_at};

use wasi_calls::call_of;
use wasm_interp::MOST_ARGUMENTS;
use wasm_module::{FuncType, Module, ValueType};
use wasm_places::invocable::import_type;
use wasm_store::{Answer, Host, HostCall, Memory};

/// The module name of WASI's calls.
const WASI: &str = "wasi_snapshot_preview1";

/// Whether these types are one i32.
fn gives_i32(types: &[ValueType]) -> bool
    ensures { result ≡ gives_i32 types.now }
{
    match types {
        [ValueType::I32] => true,
        _ => false,
    }
}

/// Whether a read of this type waits, where the input goes on.
fn waits_at(goes_on: bool, func_type: &FuncType) -> bool
    ensures { result ≡ waits_at goes_on func_type.now }
{
    goes_on && gives_i32(func_type.results.as_slice())
}

/// The call, if it is answered at once.
fn answered_at_once(waits: bool, call: Option<HostCall>) -> Option<HostCall>
    ensures { result ≡ answered_at_once waits call }
{
    if !waits {
        return call;
    }
    match call {
        Some(HostCall::FdRead) => None,
        other => other,
    }
}

/// Whether the call waits.
fn is_waiting(waits: bool, call: Option<HostCall>) -> bool
    ensures yes { OnTrue result (waiting waits call ≡ Some HostCall.FdRead) }
    ensures no { OnFalse result (waiting waits call ≡ None) }
{
    if !waits {
        return false;
    }
    match call {
        Some(HostCall::FdRead) => true,
        _ => false,
    }
}

/// Links imports as a host of WASI does that answers all at once, or all but reads. It answers nothing.
#[derive(Clone, Copy)]
pub struct FedLinker {
    pub goes_on: bool,
}

impl FedLinker {
    /// The module name whose imports are the host's alone.
    pub fn reserved(&self) -> &'static str
        ensures { result.now ≡ reserved_at self.now.goes_on }
    {
        if self.goes_on { "" } else { WASI }
    }
}

impl Host for FedLinker {
    ghost use Rattle.fed_session.specs.Waiting.{links_at_once};

    ghost links = { λ h. links_at_once h.goes_on };

    ghost calls = { λ host memory used call arguments after memory_after answer. Unit {0} };

    fn link(&self, module_name: &str, name: &str, func_type: &FuncType) -> Option<HostCall> {
        let call = call_of(module_name, name, func_type);
        answered_at_once(waits_at(self.goes_on, func_type), call)
    }

    fn call(
        &mut self,
        _memory: &mut Memory,
        _used: u64,
        _call: HostCall,
        _arguments: &[u64],
    ) -> Answer {
        Answer::Exit(0)
    }
}

/// Whether an import of a module is a read that waits.
pub fn is_deferred(guest: &Module, index: usize) -> bool
    ensures yes { OnTrue result (deferred_at true guest.now index ≡ Some HostCall.FdRead) }
    ensures no { OnFalse result (deferred_at true guest.now index ≡ None) }
{
    let Some(func_type) = import_type(guest, index) else {
        return false;
    };
    let Some(import) = guest.imports.as_slice().get(index) else {
        return false;
    };
    let call = call_of(import.module_name.as_str(), import.name.as_str(), func_type);
    is_waiting(waits_at(true, func_type), call)
}

/// Whether the embedder answers an import that the host doesn't link, where this module name is the host's alone.
fn may_embed(reserved: &str, module_name: &str, func_type: &FuncType) -> bool
    ensures { result ≡ may_embed reserved.now module_name.now func_type.now }
{
    module_name != reserved && func_type.params.len() <= MOST_ARGUMENTS
}

/// Whether an import of a module is a function that is nobody's.
fn is_unanswered(guest: &Module, index: usize) -> bool
    ensures yes { OnTrue result (IsUnanswered guest.now index) }
    ensures no { OnFalse result (IsUnanswered guest.now index → ⊥) }
{
    let Some(func_type) = import_type(guest, index) else {
        return false;
    };
    let Some(import) = guest.imports.as_slice().get(index) else {
        return false;
    };
    let module_name = import.module_name.as_str();
    match call_of(module_name, import.name.as_str(), func_type) {
        Some(_) => false,
        None => !may_embed(WASI, module_name, func_type),
    }
}

/// Whether each imported function is the host's or the embedder's.
fn are_answered(guest: &Module) -> bool
    ensures yes { OnTrue result (AreAnswered guest.now) }
    ensures no { OnFalse result (AreAnswered guest.now → ⊥) }
{
    for index in 0..guest.imports.len() {
        if is_unanswered(guest, index) {
            return false;
        }
    }
    true
}

/// Whether the calls of a module that wait are all that the machine leaves to its embedder of the whole instance's.
pub fn can_wait(goes_on: bool, guest: &Module) -> bool
    ensures yes { OnTrue result (AreParts (deferred_at goes_on) guest.now links (parts_at goes_on)) }
    ensures no { OnFalse result ((goes_on ≡ true) × (AreAnswered guest.now → ⊥)) }
{
    if !goes_on {
        return true;
    }
    are_answered(guest)
}

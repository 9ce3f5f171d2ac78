//! Which functions can be called, and why a call, an answer or bytes are refused.

ghost use Rattle.std.specs.Prelude.{◌<◌, None, Some, IfSome, IfNone};
ghost use Rattle.wasm_syntax.specs.declared.module.FuncType.{FuncType as FuncTypeValue};
ghost use Rattle.wasm_places.specs.FunctionTypes.{IsImportType, IsOwnType};

use wasm_module::{FuncType, ImportKind, Module};
use wasm_steps::Pause;

/// Why a function isn't invoked. The machine is as it was.
#[derive(Clone, Copy)]
pub enum NotInvoked {
    /// No function of the module's own has this number, or it takes more than `MOST_ARGUMENTS`.
    Absent,
    /// It takes another number of arguments, or one of them isn't of its type.
    Mistyped,
}

/// Why an answer isn't taken. The machine is as it was.
#[derive(Clone, Copy)]
pub enum NotAnswered {
    /// The embedder isn't asked.
    NotAsked,
    /// The function has another number of results, or the result isn't of its type.
    Mistyped,
}

/// Why bytes aren't written. The machine is as it was.
#[derive(Clone, Copy)]
pub enum NotWritten {
    /// A function is at work, and the embedder isn't asked; or the run has ended: let it go first.
    AtWork,
    /// The bytes would pass the end of memory.
    PastEnd,
}

/// A call of one of the embedder's functions.
#[derive(Clone, Copy)]
pub struct AskedCall<'m> {
    /// The index of the import.
    pub import: usize,
    /// The first one first.
    pub arguments: &'m [u64],
}

/// Why a machine came back.
#[derive(Clone, Copy)]
pub enum Event {
    /// The function that was invoked has returned: nothing runs.
    Returned,
    /// A function of the embedder is called, the import of this index: it is to be answered.
    Asked(usize),
    Paused(Pause),
}

/// The type of an imported function.
pub fn import_type<'m>(guest: &'m Module, import: usize) -> Option<&'m FuncType>
    ensures found { IfSome result (λ f. IsImportType guest.now import f.now) }
    ensures missing { IfNone result ((f : FuncTypeValue) → IsImportType guest.now import f → ⊥) }
{
    let imports = guest.imports.as_slice();
    if import >= imports.len() {
        return None;
    }
    let ImportKind::Function(index) = imports[import].kind else {
        return None;
    };
    let index = index as usize;
    let types = guest.types.as_slice();
    if index >= types.len() {
        return None;
    }
    Some(&types[index])
}

/// The type of one of the module's own functions.
pub fn own_type<'m>(guest: &'m Module, function: u32) -> Option<&'m FuncType>
    ensures found { IfSome result (λ f. IsOwnType guest.now function f.now) }
    ensures missing { IfNone result ((f : FuncTypeValue) → IsOwnType guest.now function f → ⊥) }
{
    let own = (function as usize).checked_sub(guest.imports.len())?;
    let functions = guest.functions.as_slice();
    if own >= functions.len() {
        return None;
    }
    let index = functions[own] as usize;
    let types = guest.types.as_slice();
    if index >= types.len() {
        return None;
    }
    Some(&types[index])
}

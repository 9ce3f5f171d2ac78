//! The functions of a module, the imported ones first.

ghost use Rattle.std.specs.Prelude.{◌≡◌, IfOk};
ghost use Rattle.wasm_valid.specs.Spaces.{functions_of};

use std::alloc::{AllocError, Global};
use wasm_module::Module;
use wasm_valid::imported_functions;

/// The type's index of each function.
pub(crate) fn functions_of(alloc: Global, module: &Module<'_>) -> Result<Vec<u32>, AllocError>
    ensures { IfOk result (λ v. v.items ≡ functions_of «module».now) }
{
    let mut functions = imported_functions(alloc, module.imports.as_slice())?;
    functions.extend_from_slice(module.functions.as_slice())?;
    Ok(functions)
}

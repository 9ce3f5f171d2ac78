//! Names of exports.

ghost use Rattle.std.specs.Prelude.{◌↔◌, IfOk, IsTrue, map};
ghost use Rattle.wasm_valid.specs.Validity.{AreApart};

use std::alloc::{AllocError, Global};
use std::collections::BTreeSet;
use wasm_module::Export;

/// Whether no two exports have one name (section 3.4.10).
pub fn names_differ(alloc: Global, exports: &[Export<'_>]) -> Result<bool, AllocError>
    ensures { IfOk result (λ differ. IsTrue differ ↔ AreApart (map (λ e. e.name) exports.now)) }
{
    let names: BTreeSet<&str> = exports.iter().map(|e| e.name.as_str()).collect(alloc)?;
    Ok(names.len() == exports.len())
}

//! Exported functions by their names.

ghost use Rattle.std.specs.Prelude.{◌≡◌, IfNone, IfSome, ℕ};
ghost use Rattle.wasm_syntax.specs.declared.module.ExportKind.TheVariants as exports;
ghost use Rattle.wasm_syntax.specs.declared.module.FuncType.{FuncType as FuncTypeValue};
ghost use Rattle.wasm_interp.specs.Invoking.{IsOwnType};
ghost use Rattle.invoked_run.specs.Exports.{IsExportOf};

use wasm_module::{Export, ExportKind, FuncType, Module};

/// The type of one of the module's own functions.
fn own_type<'m>(guest: &'m Module, function: u32) -> Option<&'m FuncType>
    ensures found { IfSome result (λ f. IsOwnType guest.now function f.now) }
    ensures missing { IfNone result ((f : FuncTypeValue) → IsOwnType guest.now function f → ⊥) }
{
    let own = (function as usize).checked_sub(guest.imports.len())?;
    let functions = guest.functions.as_slice();
    if own >= functions.len() {
        return None;
    }
    let index = functions[own] as usize;
    let types = guest.types.as_slice();
    if index >= types.len() {
        return None;
    }
    Some(&types[index])
}

/// The function of this export, if it has this name.
fn named_function(export: &Export, name: &str) -> Option<u32>
    ensures found { IfSome result (λ x. export.now
        ≡ record { name = name.now; kind = exports.Function x }) }
    ensures other { IfNone result ((x : ℕ) → export.now
        ≡ record { name = name.now; kind = exports.Function x } → ⊥) }
{
    let ExportKind::Function(function) = export.kind else {
        return None;
    };
    if export.name.as_str() != name {
        return None;
    }
    Some(function)
}

/// The type of the module's own function that this export is, if it has this name.
fn named_type<'m>(guest: &'m Module, export: &Export, name: &str) -> Option<&'m FuncType>
    ensures found { IfSome result (λ f. (x : ℕ)
        × (export.now ≡ record { name = name.now; kind = exports.Function x })
        × IsOwnType guest.now x f.now) }
    ensures other { IfNone result ((x : ℕ) (f : FuncTypeValue)
        → export.now ≡ record { name = name.now; kind = exports.Function x }
        → IsOwnType guest.now x f → ⊥) }
{
    match named_function(export, name) {
        Some(function) => own_type(guest, function),
        None => None,
    }
}

/// The type of the module's own function that is exported by this name.
pub fn exported_type<'m>(guest: &'m Module, name: &str) -> Option<&'m FuncType>
    ensures found { IfSome result (λ f. IsExportOf guest.now name.now f.now) }
    ensures missing { IfNone result ((f : FuncTypeValue) → IsExportOf guest.now name.now f → ⊥) }
{
    for export in guest.exports.as_slice() {
        if let Some(func_type) = named_type(guest, export, name) {
            return Some(func_type);
        }
    }
    None
}
